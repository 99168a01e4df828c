// The core of statements with statements within, and of blocks.

ghost use Rattle.std.specs.Prelude.{◌≡◌, OnOk, [], length};
ghost use Rattle.lrc_named_tree.specs.Tree.{with_do, while_do, for_do};
ghost use Rattle.lrc_named_tree.specs.View.{block_of, expression_of as tree_of, named_of, place_of, statement_of};
ghost use Rattle.lrc_named_names.specs.View.{declared_of};
ghost use Rattle.lrc_named_constants.specs.Well.{IsSound, IsWell};
ghost use Rattle.lrc_named_core.specs.Tree.{Block};
ghost use Rattle.lrc_named_core.specs.View.{expression_of};
ghost use Rattle.lrc_named_translation.specs.Added.{IsAdded};
ghost use Rattle.lrc_named_statements.specs.Statements.{AreCores, IsChoice, IsCore, IsElse, IsHeldFor, IsHeldWith, counting, guarded};
ghost use Rattle.lrc_named_blocks.specs.View.{arms_of};
ghost use Rattle.lrc_named_statements.specs.Well.{AreWellArms, IsLockPlace, IsWellBlock, IsWellStatement};

use lrc_named_core::binary;
use lrc_named_core::tree::{Expression as Core, Private, Statement};
use lrc_named_names::names::Names;
use lrc_named_statements::origins::{at_item, closing, from, holding_place};
use lrc_named_statements::{Statements, barrier, lock_item};
use lrc_named_translation::own::{following, has_name};
use lrc_named_translation::parts::holding;
use lrc_named_tree::tree::{Arm, Expression, Name, Place, Statement as Tree};
use lrc_program::Operator;
use std::alloc::{AllocError, Global};

/// A `with`: which token it is, its lock, its block, and which token the `}` is.
#[derive(Clone, Copy)]
struct With<'s, 'p> {
    token: u32,
    place: &'s Place<'p>,
    inside: &'s [Tree<'p>],
    close: u32,
}

/// A `for`: which token it is, its name, its first value and its end, and its block.
#[derive(Clone, Copy)]
struct For<'s, 'p> {
    token: u32,
    name: Name<'p>,
    first: &'s Expression<'p>,
    end: &'s Expression<'p>,
    inside: &'s [Tree<'p>],
}

/// An `if`, or an `else if`: which token it is, its condition, its block, and what stands behind its `else`.
#[derive(Clone, Copy)]
struct Choice<'s, 'p> {
    token: u32,
    condition: &'s Expression<'p>,
    then: &'s [Tree<'p>],
    arms: &'s [Arm<'p>],
    otherwise: &'s [Tree<'p>],
}

/// What blocks are translated by: what is declared.
#[derive(Clone, Copy)]
pub struct Blocks<'t, 'n, 'p> {
    pub alloc: Global,
    pub names: &'t Names<'n, 'p>,
}

impl<'t, 'n, 'p> Blocks<'t, 'n, 'p> {
    /// Adds the core of statements where so many names of the translation's own are held. It fails only if memory runs out.
    #[cycle(blocks)]
    pub fn block(
        &self,
        statements: &[Tree<'p>],
        held: u32,
        into: &mut Vec<Statement<'p>>,
    ) -> Result<(), AllocError>
        requires table { IsSound (declared_of self.now.names.now) }
        requires well { IsWellBlock (declared_of self.now.names.now) (block_of statements.now) }
        ensures { OnOk result (IsAdded (AreCores (declared_of self.now.names.now) held
            (block_of statements.now)) into.old.items into.new.items) }
    {
        for statement in statements {
            self.add(statement, held, into)?;
        }
        Ok(())
    }

    // Adds the core of a statement.
    #[cycle(blocks)]
    fn add(
        &self,
        statement: &Tree<'p>,
        held: u32,
        into: &mut Vec<Statement<'p>>,
    ) -> Result<(), AllocError>
        requires table { IsSound (declared_of self.now.names.now) }
        requires well { IsWellStatement (declared_of self.now.names.now)
            (statement_of statement.now) }
        ensures { OnOk result (IsAdded (IsCore (declared_of self.now.names.now) held
            (statement_of statement.now)) into.old.items into.new.items) }
    {
        let statements = Statements {
            alloc: self.alloc,
            names: self.names,
        };
        match statement {
            Tree::Assign(place, update, value) => statements.assign(
                place, *update, value, held, into,
            ),
            Tree::Acquire(at, place) => statements.acquire(*at, place, held, into),
            Tree::Release(at, place) => statements.release(*at, place, held, into),
            Tree::Barrier(at) => barrier(*at, into),
            Tree::Print(at, values) => statements.print(*at, values, held, into),
            Tree::Assert(at, condition) => statements.assert(*at, condition, held, into),
            Tree::With(at, place, inside, close) => {
                let with = With {
                    token: *at,
                    place,
                    inside,
                    close: *close,
                };
                self.with_lock(with, held, into)
            }
            Tree::If(at, condition, then, arms, otherwise) => {
                let choice = Choice {
                    token: *at,
                    condition,
                    then,
                    arms,
                    otherwise,
                };
                self.choice(choice, held, into)
            }
            Tree::While(at, condition, inside) => self.repeat(*at, condition, inside, held, into),
            Tree::For(at, name, first, end, inside) => {
                let count = For {
                    token: *at,
                    name: *name,
                    first,
                    end,
                    inside,
                };
                self.count(count, held, into)
            }
        }
    }

    // Adds the core of `with place { .. }`: where the number of the lock has a name, it is held.
    #[cycle(blocks)]
    fn with_lock(
        &self,
        with: With<'_, 'p>,
        held: u32,
        into: &mut Vec<Statement<'p>>,
    ) -> Result<(), AllocError>
        requires table { IsSound (declared_of self.now.names.now) }
        requires lock { IsLockPlace (declared_of self.now.names.now) (place_of with.place.now) }
        requires well { IsWellBlock (declared_of self.now.names.now) (block_of with.inside.now) }
        ensures { OnOk result (IsAdded (IsCore (declared_of self.now.names.now) held
            (with_do with.entry.token (place_of with.entry.place.now)
            (block_of with.entry.inside.now) with.entry.close)) into.old.items into.new.items) }
    {
        let statements = Statements {
            alloc: self.alloc,
            names: self.names,
        };
        let place = with.place;
        let item = lock_item(self.names, place.name.bytes);
        let start = into.len();
        let mut taken = held;
        let number = statements.place(with.token, item, with.place, &mut taken, into)?;
        let named = has_name(&number);
        if named {
            into.truncate(start);
            self.with_held(with, held, into)
        } else {
            self.guard(with, number, held, into)
        }
    }

    // Adds the core of a `with` whose lock's number is held.
    #[cycle(blocks)]
    fn with_held(
        &self,
        with: With<'_, 'p>,
        held: u32,
        into: &mut Vec<Statement<'p>>,
    ) -> Result<(), AllocError>
        requires table { IsSound (declared_of self.now.names.now) }
        requires lock { IsLockPlace (declared_of self.now.names.now) (place_of with.place.now) }
        requires well { IsWellBlock (declared_of self.now.names.now) (block_of with.inside.now) }
        ensures { OnOk result (IsAdded (IsHeldWith (declared_of self.now.names.now) held
            with.entry.token (place_of with.entry.place.now) (block_of with.entry.inside.now)
            with.entry.close) into.old.items into.new.items) }
    {
        let statements = Statements {
            alloc: self.alloc,
            names: self.names,
        };
        let place = with.place;
        let item = lock_item(self.names, place.name.bytes);
        let holds = following(held)?;
        let mut taken = holds;
        let number = statements.place(with.token, item, with.place, &mut taken, into)?;
        let name = holding_place(holds, with.place)?;
        let origin = from(with.token);
        into.push(Statement::Assign(origin, name, number))?;
        self.guard(with, Core::private(name), holds, into)
    }

    // Adds the block of a `with`, between the statements that acquire and release the lock of this number.
    #[cycle(blocks)]
    fn guard(
        &self,
        with: With<'_, 'p>,
        number: Core<'p>,
        held: u32,
        into: &mut Vec<Statement<'p>>,
    ) -> Result<(), AllocError>
        requires table { IsSound (declared_of self.now.names.now) }
        requires well { IsWellBlock (declared_of self.now.names.now) (block_of with.inside.now) }
        ensures { OnOk result (IsAdded (λ b. (within : Block)
            × AreCores (declared_of self.now.names.now) held (block_of with.entry.inside.now) within
            × (b ≡ guarded with.entry.token with.entry.close (place_of with.entry.place.now)
            (expression_of number.entry) within)) into.old.items into.new.items) }
    {
        let again = number.copy()?;
        let origin = at_item(with.token, with.place);
        let end = closing(with.token, with.close, with.place);
        into.push(Statement::Acquire(origin, number))?;
        self.block(with.inside, held, into)?;
        into.push(Statement::Release(end, again))?;
        Ok(())
    }

    // Adds the core of `while condition { .. }`: what comes before the condition comes again at the end of each round.
    #[cycle(blocks)]
    fn repeat(
        &self,
        token: u32,
        condition: &Expression<'p>,
        inside: &[Tree<'p>],
        held: u32,
        into: &mut Vec<Statement<'p>>,
    ) -> Result<(), AllocError>
        requires table { IsSound (declared_of self.now.names.now) }
        requires condition { IsWell (declared_of self.now.names.now) []
            (length (declared_of self.now.names.now)) (tree_of condition.now) }
        requires well { IsWellBlock (declared_of self.now.names.now) (block_of inside.now) }
        ensures { OnOk result (IsAdded (IsCore (declared_of self.now.names.now) held
            (while_do token (tree_of condition.now) (block_of inside.now)))
            into.old.items into.new.items) }
    {
        let statements = Statements {
            alloc: self.alloc,
            names: self.names,
        };
        let mut taken = held;
        let p = statements.expression(token, condition, &mut taken, into)?;
        let mut round = Vec::new(self.alloc);
        self.block(inside, held, &mut round)?;
        let mut again = held;
        let _again = statements.expression(token, condition, &mut again, &mut round)?;
        let origin = from(token);
        into.push(Statement::While(origin, p, round))?;
        Ok(())
    }

    // Adds the core of `for name in first..end { .. }`: where the end has a name, it is held.
    #[cycle(blocks)]
    fn count(
        &self,
        count: For<'_, 'p>,
        held: u32,
        into: &mut Vec<Statement<'p>>,
    ) -> Result<(), AllocError>
        requires table { IsSound (declared_of self.now.names.now) }
        requires first { IsWell (declared_of self.now.names.now) []
            (length (declared_of self.now.names.now)) (tree_of count.first.now) }
        requires end { IsWell (declared_of self.now.names.now) []
            (length (declared_of self.now.names.now)) (tree_of count.end.now) }
        requires well { IsWellBlock (declared_of self.now.names.now) (block_of count.inside.now) }
        ensures { OnOk result (IsAdded (IsCore (declared_of self.now.names.now) held
            (for_do count.entry.token (named_of count.entry.name) (tree_of count.entry.first.now)
            (tree_of count.entry.end.now) (block_of count.entry.inside.now)))
            into.old.items into.new.items) }
    {
        let statements = Statements {
            alloc: self.alloc,
            names: self.names,
        };
        let start = into.len();
        let mut taken = held;
        let first = statements.expression(count.token, count.first, &mut taken, into)?;
        let end = statements.expression(count.token, count.end, &mut taken, into)?;
        let named = has_name(&end);
        if named {
            into.truncate(start);
            self.count_held(count, held, into)
        } else {
            self.rounds(count, first, end, held, into)
        }
    }

    // Adds the core of a `for` whose end is held.
    #[cycle(blocks)]
    fn count_held(
        &self,
        count: For<'_, 'p>,
        held: u32,
        into: &mut Vec<Statement<'p>>,
    ) -> Result<(), AllocError>
        requires table { IsSound (declared_of self.now.names.now) }
        requires first { IsWell (declared_of self.now.names.now) []
            (length (declared_of self.now.names.now)) (tree_of count.first.now) }
        requires end { IsWell (declared_of self.now.names.now) []
            (length (declared_of self.now.names.now)) (tree_of count.end.now) }
        requires well { IsWellBlock (declared_of self.now.names.now) (block_of count.inside.now) }
        ensures { OnOk result (IsAdded (IsHeldFor (declared_of self.now.names.now) held
            count.entry.token (named_of count.entry.name) (tree_of count.entry.first.now)
            (tree_of count.entry.end.now) (block_of count.entry.inside.now))
            into.old.items into.new.items) }
    {
        let statements = Statements {
            alloc: self.alloc,
            names: self.names,
        };
        let holds = following(held)?;
        let mut taken = holds;
        let first = statements.expression(count.token, count.first, &mut taken, into)?;
        let end = statements.expression(count.token, count.end, &mut taken, into)?;
        let limit = holding(holds, count.end);
        let origin = from(count.token);
        into.push(Statement::Assign(origin, limit, end))?;
        self.rounds(count, first, Core::private(limit), holds, into)
    }

    // Adds the loop of a `for` from this value to below this limit.
    #[cycle(blocks)]
    fn rounds(
        &self,
        count: For<'_, 'p>,
        first: Core<'p>,
        limit: Core<'p>,
        held: u32,
        into: &mut Vec<Statement<'p>>,
    ) -> Result<(), AllocError>
        requires table { IsSound (declared_of self.now.names.now) }
        requires well { IsWellBlock (declared_of self.now.names.now) (block_of count.inside.now) }
        ensures { OnOk result (IsAdded (λ b. (within : Block)
            × AreCores (declared_of self.now.names.now) held (block_of count.entry.inside.now) within
            × (b ≡ counting count.entry.token (named_of count.entry.name)
            (expression_of first.entry) (expression_of limit.entry) within))
            into.old.items into.new.items) }
    {
        let name = Private::Named(count.name.bytes);
        let origin = from(count.token);
        let test = binary(self.alloc, Core::private(name), Operator::Less, limit)?;
        let next = binary(
            self.alloc,
            Core::private(name),
            Operator::Add,
            Core::number(1),
        )?;
        into.push(Statement::Assign(origin, name, first))?;
        let mut round = Vec::new(self.alloc);
        self.block(count.inside, held, &mut round)?;
        round.push(Statement::Assign(origin, name, next))?;
        into.push(Statement::While(origin, test, round))?;
        Ok(())
    }

    // Adds the core of an `if`, or of an `else if`.
    #[cycle(blocks)]
    fn choice(
        &self,
        choice: Choice<'_, 'p>,
        held: u32,
        into: &mut Vec<Statement<'p>>,
    ) -> Result<(), AllocError>
        requires table { IsSound (declared_of self.now.names.now) }
        requires condition { IsWell (declared_of self.now.names.now) []
            (length (declared_of self.now.names.now)) (tree_of choice.condition.now) }
        requires then { IsWellBlock (declared_of self.now.names.now) (block_of choice.then.now) }
        requires arms { AreWellArms (declared_of self.now.names.now) (arms_of choice.arms.now) }
        requires otherwise { IsWellBlock (declared_of self.now.names.now)
            (block_of choice.otherwise.now) }
        ensures { OnOk result (IsAdded (IsChoice (declared_of self.now.names.now) held
            choice.entry.token (tree_of choice.entry.condition.now) (block_of choice.entry.then.now)
            (arms_of choice.entry.arms.now) (block_of choice.entry.otherwise.now))
            into.old.items into.new.items) }
    {
        let statements = Statements {
            alloc: self.alloc,
            names: self.names,
        };
        let mut taken = held;
        let p = statements.expression(choice.token, choice.condition, &mut taken, into)?;
        let mut first = Vec::new(self.alloc);
        self.block(choice.then, held, &mut first)?;
        let mut second = Vec::new(self.alloc);
        self.otherwise(choice.arms, choice.otherwise, held, &mut second)?;
        let origin = from(choice.token);
        into.push(Statement::If(origin, p, first, second))?;
        Ok(())
    }

    // Adds the core of what stands behind an `else`.
    #[cycle(blocks)]
    fn otherwise(
        &self,
        arms: &[Arm<'p>],
        otherwise: &[Tree<'p>],
        held: u32,
        into: &mut Vec<Statement<'p>>,
    ) -> Result<(), AllocError>
        requires table { IsSound (declared_of self.now.names.now) }
        requires arms { AreWellArms (declared_of self.now.names.now) (arms_of arms.now) }
        requires otherwise { IsWellBlock (declared_of self.now.names.now) (block_of otherwise.now) }
        ensures { OnOk result (IsAdded (IsElse (declared_of self.now.names.now) held
            (arms_of arms.now) (block_of otherwise.now)) into.old.items into.new.items) }
    {
        match arms {
            [] => self.block(otherwise, held, into),
            [arm, others @ ..] => {
                let choice = Choice {
                    token: arm.at,
                    condition: &arm.condition,
                    then: &arm.block,
                    arms: others,
                    otherwise,
                };
                self.choice(choice, held, into)
            }
        }
    }
}
