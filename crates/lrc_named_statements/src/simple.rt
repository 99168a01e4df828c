// The core of statements that set nothing and have no statements within.

ghost use Rattle.std.specs.Prelude.{◌≡◌, OnOk, [], length};
ghost use Rattle.lrc_named_tree.specs.Tree.{acquire as an_acquire, release as a_release, assert as an_assert};
ghost use Rattle.lrc_named_tree.specs.View.{expression_of as tree_of, expressions_of as trees_of, place_of};
ghost use Rattle.lrc_named_names.specs.View.{declared_of};
ghost use Rattle.lrc_named_constants.specs.Well.{AreWell, IsSound, IsWell};
ghost use Rattle.lrc_named_core.specs.Tree.{barrier, only};
ghost use Rattle.lrc_named_translation.specs.Added.{IsAdded};
ghost use Rattle.lrc_named_statements.specs.Statements.{ArePrinted, IsCore, from};
ghost use Rattle.lrc_named_statements.specs.Well.{IsLockPlace};

use crate::origins::{asserting, at_item, from};
use crate::statements::{Statements, lock_item, trial};
use lrc_named_core::tree::{Expression as Core, Statement};
use lrc_named_translation::own::{following, has_division};
use lrc_named_translation::parts::holding;
use lrc_named_tree::tree::{Expression, Place};
use std::alloc::AllocError;

impl<'t, 'n, 'p> Statements<'t, 'n, 'p> {
    /// Adds the core of `acquire place;` where this is the statement that begins with a token, and so many names of the
    /// translation's own are held. It fails only if memory runs out.
    pub fn acquire(
        &self,
        token: u32,
        place: &Place<'p>,
        held: u32,
        into: &mut Vec<Statement<'p>>,
    ) -> Result<(), AllocError>
        requires table { IsSound (declared_of self.now.names.now) }
        requires lock { IsLockPlace (declared_of self.now.names.now) (place_of place.now) }
        ensures { OnOk result (IsAdded (IsCore (declared_of self.now.names.now) held
            (an_acquire token (place_of place.now))) into.old.items into.new.items) }
    {
        let item = lock_item(self.names, place.name.bytes);
        let mut taken = held;
        let number = self.place(token, item, place, &mut taken, into)?;
        let origin = at_item(token, place);
        into.push(Statement::Acquire(origin, number))?;
        Ok(())
    }

    /// Adds the core of `release place;`, likewise. It fails only if memory runs out.
    pub fn release(
        &self,
        token: u32,
        place: &Place<'p>,
        held: u32,
        into: &mut Vec<Statement<'p>>,
    ) -> Result<(), AllocError>
        requires table { IsSound (declared_of self.now.names.now) }
        requires lock { IsLockPlace (declared_of self.now.names.now) (place_of place.now) }
        ensures { OnOk result (IsAdded (IsCore (declared_of self.now.names.now) held
            (a_release token (place_of place.now))) into.old.items into.new.items) }
    {
        let item = lock_item(self.names, place.name.bytes);
        let mut taken = held;
        let number = self.place(token, item, place, &mut taken, into)?;
        let origin = at_item(token, place);
        into.push(Statement::Release(origin, number))?;
        Ok(())
    }

    /// Adds the core of `print value, ..;`, likewise. It fails only if memory runs out.
    pub fn print(
        &self,
        token: u32,
        values: &[Expression<'p>],
        held: u32,
        into: &mut Vec<Statement<'p>>,
    ) -> Result<(), AllocError>
        requires table { IsSound (declared_of self.now.names.now) }
        requires well { AreWell (declared_of self.now.names.now) []
            (length (declared_of self.now.names.now)) (trees_of values.now) }
        ensures { OnOk result (IsAdded (ArePrinted (declared_of self.now.names.now) held token
            (trees_of values.now)) into.old.items into.new.items) }
    {
        for value in values {
            let mut taken = held;
            let p = self.expression(token, value, &mut taken, into)?;
            let origin = from(token);
            into.push(Statement::Print(origin, p))?;
        }
        Ok(())
    }

    /// Adds the core of `assert condition;`, likewise. It fails only if memory runs out.
    pub fn assert(
        &self,
        token: u32,
        condition: &Expression<'p>,
        held: u32,
        into: &mut Vec<Statement<'p>>,
    ) -> Result<(), AllocError>
        requires table { IsSound (declared_of self.now.names.now) }
        requires well { IsWell (declared_of self.now.names.now) []
            (length (declared_of self.now.names.now)) (tree_of condition.now) }
        ensures { OnOk result (IsAdded (IsCore (declared_of self.now.names.now) held
            (an_assert token (tree_of condition.now))) into.old.items into.new.items) }
    {
        let mut taken = held;
        let p = self.expression(token, condition, &mut taken, into)?;
        let number = following(taken)?;
        let name = holding(number, condition);
        let origin = from(token);
        let asserts = asserting(token);
        let divides = has_division(&p);
        if divides {
            let test = trial(self.alloc, Core::private(name))?;
            into.push(Statement::Assign(origin, name, p))?;
            into.push(Statement::Assign(asserts, name, test))?;
            Ok(())
        } else {
            let trap = trial(self.alloc, p)?;
            into.push(Statement::Assign(asserts, name, trap))?;
            Ok(())
        }
    }
}

/// Adds the core of `barrier;` where this is the statement that begins with a token. It fails only if memory runs out.
pub fn barrier(token: u32, into: &mut Vec<Statement<'_>>) -> Result<(), AllocError>
    ensures { OnOk result (IsAdded (λ b. b ≡ only (barrier (from token)))
        into.old.items into.new.items) }
{
    let origin = from(token);
    into.push(Statement::Barrier(origin))?;
    Ok(())
}
