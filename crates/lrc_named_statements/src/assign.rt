// The core of statements that set a place.

ghost use Rattle.std.specs.Prelude.{◌≡◌, Some, OnOk, [], length};
ghost use Rattle.lrc_named_tree.specs.Tree.{Expression as Tree, Update as Change, assign as an_assign, set as to_set};
ghost use Rattle.lrc_named_tree.specs.View.{expression_of as tree_of, expressions_of as trees_of, place_of, update_of};
ghost use Rattle.lrc_named_names.specs.Names.{meaning_of};
ghost use Rattle.lrc_named_names.specs.View.{declared_of};
ghost use Rattle.lrc_named_constants.specs.Well.{AreWell, IsSound, IsWell};
ghost use Rattle.lrc_named_translation.specs.Added.{IsAdded};
ghost use Rattle.lrc_named_translation.specs.Made.{bare};
ghost use Rattle.lrc_named_translation.specs.Meanings.{IsShared};
ghost use Rattle.lrc_named_translation.specs.Turn.{element_of};
ghost use Rattle.lrc_named_statements.specs.Statements.{IsCore, IsNoItem, IsPrivate, operator_of};
ghost use Rattle.lrc_named_statements.specs.Well.{IsSettable};

use crate::origins::{at_item, from, holding_place, operator_of};
use crate::statements::{Statements, is_shared, shared_element};
use lrc_named_core::binary;
use lrc_named_core::tree::{Expression as Core, Private, Statement};
use lrc_named_translation::meanings::shared_item;
use lrc_named_translation::own::following;
use lrc_named_translation::parts::{Element, bare, using_item};
use lrc_named_tree::tree::{Expression, Place, Update};
use lrc_program::Operator;
use std::alloc::AllocError;

impl<'t, 'n, 'p> Statements<'t, 'n, 'p> {
    /// Adds the core of `place = value;`, `place += value;` or `place -= value;` where so many names of the translation's own
    /// are held. It fails only if memory runs out.
    pub fn assign(
        &self,
        place: &Place<'p>,
        update: Update,
        value: &Expression<'p>,
        held: u32,
        into: &mut Vec<Statement<'p>>,
    ) -> Result<(), AllocError>
        requires table { IsSound (declared_of self.now.names.now) }
        requires place { IsSettable
            (meaning_of (declared_of self.now.names.now) place.now.name.bytes.now)
            (place_of place.now).indices }
        requires indices { AreWell (declared_of self.now.names.now) []
            (length (declared_of self.now.names.now)) (place_of place.now).indices }
        requires well { IsWell (declared_of self.now.names.now) []
            (length (declared_of self.now.names.now)) (tree_of value.now) }
        ensures { OnOk result (IsAdded (IsCore (declared_of self.now.names.now) held
            (an_assign (place_of place.now) (update_of update) (tree_of value.now)))
            into.old.items into.new.items) }
    {
        let shared = is_shared(self.names, place.name.bytes);
        match operator_of(update) {
            Some(operator) => {
                if shared {
                    self.write_over(place, operator, value, held, into)
                } else {
                    self.change(place, operator, value, held, into)
                }
            }
            None => {
                if shared {
                    self.write(place, value, held, into)
                } else {
                    self.set(place, value, held, into)
                }
            }
        }
    }

    // Adds the core of `place = value;` of a shared item.
    fn write(
        &self,
        place: &Place<'p>,
        value: &Expression<'p>,
        held: u32,
        into: &mut Vec<Statement<'p>>,
    ) -> Result<(), AllocError>
        requires table { IsSound (declared_of self.now.names.now) }
        requires shared { IsShared
            (meaning_of (declared_of self.now.names.now) place.now.name.bytes.now) }
        requires indices { AreWell (declared_of self.now.names.now) []
            (length (declared_of self.now.names.now)) (place_of place.now).indices }
        requires well { IsWell (declared_of self.now.names.now) []
            (length (declared_of self.now.names.now)) (tree_of value.now) }
        ensures { OnOk result (IsAdded (IsCore (declared_of self.now.names.now) held
            (an_assign (place_of place.now) to_set (tree_of value.now)))
            into.old.items into.new.items) }
    {
        let item = shared_item(self.names, place.name.bytes);
        let mut taken = held;
        let word = self.place(place.name.at, item, place, &mut taken, into)?;
        let v = self.expression(place.name.at, value, &mut taken, into)?;
        let origin = at_item(place.name.at, place);
        into.push(Statement::Write(origin, word, v))?;
        Ok(())
    }

    // Adds the core of `place += value;` or `place -= value;` of a shared item.
    fn write_over(
        &self,
        place: &Place<'p>,
        operator: Operator,
        value: &Expression<'p>,
        held: u32,
        into: &mut Vec<Statement<'p>>,
    ) -> Result<(), AllocError>
        requires table { IsSound (declared_of self.now.names.now) }
        requires shared { IsShared
            (meaning_of (declared_of self.now.names.now) place.now.name.bytes.now) }
        requires indices { AreWell (declared_of self.now.names.now) []
            (length (declared_of self.now.names.now)) (place_of place.now).indices }
        requires well { IsWell (declared_of self.now.names.now) []
            (length (declared_of self.now.names.now)) (tree_of value.now) }
        ensures { OnOk result (IsAdded (λ b. (update : Change) →
            operator_of update ≡ Some operator → IsCore (declared_of self.now.names.now) held
            (an_assign (place_of place.now) update (tree_of value.now)) b)
            into.old.items into.new.items) }
    {
        let item = shared_item(self.names, place.name.bytes);
        let mut taken = held;
        let word = self.place(place.name.at, item, place, &mut taken, into)?;
        let again = word.copy()?;
        let mut number = following(taken)?;
        let old = holding_place(number, place)?;
        let origin = at_item(place.name.at, place);
        into.push(Statement::Read(origin, old, again))?;
        let v = self.expression(place.name.at, value, &mut number, into)?;
        let changed = binary(self.alloc, Core::private(old), operator, v)?;
        into.push(Statement::Write(origin, word, changed))?;
        Ok(())
    }

    // Adds the core of `name += value;` or `name -= value;` of a private name.
    fn change(
        &self,
        place: &Place<'p>,
        operator: Operator,
        value: &Expression<'p>,
        held: u32,
        into: &mut Vec<Statement<'p>>,
    ) -> Result<(), AllocError>
        requires table { IsSound (declared_of self.now.names.now) }
        requires private { IsPrivate (declared_of self.now.names.now) (place_of place.now) }
        requires well { IsWell (declared_of self.now.names.now) []
            (length (declared_of self.now.names.now)) (tree_of value.now) }
        ensures { OnOk result (IsAdded (λ b. (update : Change) →
            operator_of update ≡ Some operator → IsCore (declared_of self.now.names.now) held
            (an_assign (place_of place.now) update (tree_of value.now)) b)
            into.old.items into.new.items) }
    {
        let mut taken = held;
        let v = self.expression(place.name.at, value, &mut taken, into)?;
        let name = Private::Named(place.name.bytes);
        let changed = binary(self.alloc, Core::private(name), operator, v)?;
        let origin = from(place.name.at);
        into.push(Statement::Assign(origin, name, changed))?;
        Ok(())
    }

    // Adds the core of `name = value;` of a private name.
    fn set(
        &self,
        place: &Place<'p>,
        value: &Expression<'p>,
        held: u32,
        into: &mut Vec<Statement<'p>>,
    ) -> Result<(), AllocError>
        requires table { IsSound (declared_of self.now.names.now) }
        requires private { IsPrivate (declared_of self.now.names.now) (place_of place.now) }
        requires well { IsWell (declared_of self.now.names.now) []
            (length (declared_of self.now.names.now)) (tree_of value.now) }
        ensures { OnOk result (IsAdded (IsCore (declared_of self.now.names.now) held
            (an_assign (place_of place.now) to_set (tree_of value.now)))
            into.old.items into.new.items) }
    {
        match shared_element(self.names, bare(value)) {
            Some(element) => self.read_into(place, element, held, into),
            None => self.set_to(place, value, held, into),
        }
    }

    // Adds the core of a statement that sets a private name to a shared item, parentheses aside.
    fn read_into(
        &self,
        place: &Place<'p>,
        element: Element<'_, 'p>,
        held: u32,
        into: &mut Vec<Statement<'p>>,
    ) -> Result<(), AllocError>
        requires table { IsSound (declared_of self.now.names.now) }
        requires private { IsPrivate (declared_of self.now.names.now) (place_of place.now) }
        requires shared { IsShared
            (meaning_of (declared_of self.now.names.now) element.name.bytes.now) }
        requires well { AreWell (declared_of self.now.names.now) []
            (length (declared_of self.now.names.now)) (trees_of element.indices.now) }
        ensures { OnOk result (IsAdded (λ b. (value : Tree) →
            bare value ≡ element_of element.entry → IsCore (declared_of self.now.names.now) held
            (an_assign (place_of place.now) to_set value) b) into.old.items into.new.items) }
    {
        let item = shared_item(self.names, element.name.bytes);
        let mut taken = held;
        let word = self.element(place.name.at, item, element.indices, &mut taken, into)?;
        let from_here = from(place.name.at);
        let origin = using_item(from_here, element.name.bytes, element.indices);
        let name = Private::Named(place.name.bytes);
        into.push(Statement::Read(origin, name, word))?;
        Ok(())
    }

    // Adds the core of a statement that sets a private name to a value that is no shared item alone.
    fn set_to(
        &self,
        place: &Place<'p>,
        value: &Expression<'p>,
        held: u32,
        into: &mut Vec<Statement<'p>>,
    ) -> Result<(), AllocError>
        requires table { IsSound (declared_of self.now.names.now) }
        requires private { IsPrivate (declared_of self.now.names.now) (place_of place.now) }
        requires alone { IsNoItem (declared_of self.now.names.now) (bare (tree_of value.now)) }
        requires well { IsWell (declared_of self.now.names.now) []
            (length (declared_of self.now.names.now)) (tree_of value.now) }
        ensures { OnOk result (IsAdded (IsCore (declared_of self.now.names.now) held
            (an_assign (place_of place.now) to_set (tree_of value.now)))
            into.old.items into.new.items) }
    {
        let mut taken = held;
        let v = self.expression(place.name.at, value, &mut taken, into)?;
        let origin = from(place.name.at);
        let name = Private::Named(place.name.bytes);
        into.push(Statement::Assign(origin, name, v))?;
        Ok(())
    }
}
