// The core of the parts of statements.

ghost use Rattle.std.specs.Prelude.{◌≡◌, Some, IfOk, MatchOption, [], length};
ghost use Rattle.lrc_named_tree.specs.View.{expression_of as tree_of, expressions_of as trees_of, place_of};
ghost use Rattle.lrc_named_names.specs.Names.{lock, meaning_of};
ghost use Rattle.lrc_named_names.specs.View.{declared_of, item_of};
ghost use Rattle.lrc_named_constants.specs.Well.{AreWell, IsSound, IsWell};
ghost use Rattle.lrc_named_core.specs.View.{expression_of};
ghost use Rattle.lrc_named_translation.specs.Added.{IsAdded};
ghost use Rattle.lrc_named_translation.specs.Meanings.{IsShared};
ghost use Rattle.lrc_named_translation.specs.Turn.{element_of};
ghost use Rattle.lrc_named_statements.specs.Statements.{IsAddress, IsMadeAt, IsNoItem, trial_of};
ghost use Rattle.lrc_named_statements.specs.Well.{IsLock, is_shared};

use crate::origins::from;
use lrc_named_address::address;
use lrc_named_core::binary;
use lrc_named_core::tree::{Expression as Core, Statement};
use lrc_named_names::item::Item;
use lrc_named_names::names::{Meaning, Names};
use lrc_named_translation::own::truth;
use lrc_named_translation::parts::Element;
use lrc_named_translation::{Arguments, Translator};
use lrc_named_tree::tree::{Expression, Place};
use lrc_program::Operator;
use std::alloc::{AllocError, Global};

/// What statements are translated by: what is declared.
#[derive(Clone, Copy)]
pub struct Statements<'t, 'n, 'p> {
    pub alloc: Global,
    pub names: &'t Names<'n, 'p>,
}

impl<'t, 'n, 'p> Statements<'t, 'n, 'p> {
    /// Returns the core of an expression of the statement that begins with a token, and adds what comes before it. `taken` is
    /// how many names of the translation's own are taken. It fails only if memory runs out.
    pub fn expression(
        &self,
        token: u32,
        e: &Expression<'p>,
        taken: &mut u32,
        into: &mut Vec<Statement<'p>>,
    ) -> Result<Core<'p>, AllocError>
        requires table { IsSound (declared_of self.now.names.now) }
        requires well { IsWell (declared_of self.now.names.now) []
            (length (declared_of self.now.names.now)) (tree_of e.now) }
        ensures { IfOk result (λ p. IsAdded (λ b. IsMadeAt (declared_of self.now.names.now) token
            (tree_of e.now) taken.old b (expression_of p) taken.new) into.old.items into.new.items) }
    {
        let translator = Translator {
            alloc: self.alloc,
            names: self.names,
            origin: from(token),
        };
        let with = Arguments {
            known: &[],
            cores: &[],
        };
        translator.made(self.names.declared.len(), with, e, taken, into)
    }

    /// Returns the address of an element of an item, in the statement that begins with a token, and adds what comes before it.
    /// It fails only if memory runs out.
    pub fn element(
        &self,
        token: u32,
        item: &Item,
        indices: &[Expression<'p>],
        taken: &mut u32,
        into: &mut Vec<Statement<'p>>,
    ) -> Result<Core<'p>, AllocError>
        requires table { IsSound (declared_of self.now.names.now) }
        requires well { AreWell (declared_of self.now.names.now) []
            (length (declared_of self.now.names.now)) (trees_of indices.now) }
        ensures { IfOk result (λ p. IsAdded (λ b. IsAddress (declared_of self.now.names.now) token
            (item_of item.now) (trees_of indices.now) taken.old b (expression_of p) taken.new)
            into.old.items into.new.items) }
    {
        let translator = Translator {
            alloc: self.alloc,
            names: self.names,
            origin: from(token),
        };
        let with = Arguments {
            known: &[],
            cores: &[],
        };
        let cores = translator.all_made(self.names.declared.len(), with, indices, taken, into)?;
        let word = address(self.alloc, item, &cores)?;
        Ok(word)
    }

    /// Returns the address that a place of this item has, likewise.
    pub fn place(
        &self,
        token: u32,
        item: &Item,
        place: &Place<'p>,
        taken: &mut u32,
        into: &mut Vec<Statement<'p>>,
    ) -> Result<Core<'p>, AllocError>
        requires table { IsSound (declared_of self.now.names.now) }
        requires well { AreWell (declared_of self.now.names.now) []
            (length (declared_of self.now.names.now)) (place_of place.now).indices }
        ensures { IfOk result (λ p. IsAdded (λ b. IsAddress (declared_of self.now.names.now) token
            (item_of item.now) (place_of place.now).indices taken.old b (expression_of p) taken.new)
            into.old.items into.new.items) }
    {
        self.element(token, item, &place.indices, taken, into)
    }
}

/// Returns the item of the lock of this name.
pub fn lock_item<'n>(names: &'n Names<'_, '_>, name: &[u8]) -> &'n Item
    requires { IsLock (meaning_of (declared_of names.now) name.now) }
    ensures { meaning_of (declared_of names.now) name.now ≡ Some (lock (item_of result.now)) }
{
    match names.meaning(names.place(name)) {
        Some(Meaning::Lock(item)) => item,
        _ => unreachable!(),
    }
}

/// Returns whether this is the name of a shared item.
pub fn is_shared(names: &Names<'_, '_>, name: &[u8]) -> bool
    ensures { result ≡ is_shared (meaning_of (declared_of names.now) name.now) }
{
    match names.meaning(names.place(name)) {
        Some(Meaning::Shared(_)) => true,
        _ => false,
    }
}

/// Returns the name and the indices of the shared item that an expression is, where it is one.
pub fn shared_element<'e, 'p>(
    names: &Names<'_, 'p>,
    e: &'e Expression<'p>,
) -> Option<Element<'e, 'p>>
    ensures { MatchOption result (IsNoItem (declared_of names.now) (tree_of e.now))
        (λ x. (tree_of e.now ≡ element_of x)
        × IsShared (meaning_of (declared_of names.now) x.name.bytes.now)) }
{
    match e {
        Expression::Element(name, indices, last) => {
            if is_shared(names, name.bytes) {
                Some(Element {
                    name: *name,
                    indices,
                    last: *last,
                })
            } else {
                None
            }
        }
        Expression::Number(_, _)
        | Expression::Me(_)
        | Expression::Nodes(_)
        | Expression::Call(_, _, _)
        | Expression::Group(_, _, _)
        | Expression::Not(_, _)
        | Expression::Binary(_, _, _)
        | Expression::And(_, _)
        | Expression::Or(_, _) => None,
    }
}

/// Returns the expression that divides by zero where a condition is 0. It fails only if memory runs out.
pub fn trial<'p>(alloc: Global, condition: Core<'p>) -> Result<Core<'p>, AllocError>
    ensures { IfOk result (λ e. expression_of e ≡ trial_of (expression_of condition.entry)) }
{
    let holds = truth(alloc, condition)?;
    let test = binary(alloc, Core::number(1), Operator::Divide, holds)?;
    Ok(test)
}
