// The faults of shared items and locks.

ghost use Rattle.std.specs.Prelude.{◌≡◌, ◌≤◌, ◌<◌, ◌+◌, true, IfOk, OnOk, map, min};
ghost use Rattle.lrc_named_tree.specs.View.{expressions_of, place_of};
ghost use Rattle.lrc_named_names.specs.Elements.{elements};
ghost use Rattle.lrc_named_names.specs.View.{declared_of};
ghost use Rattle.lrc_named_constants.specs.Well.{IsSound};
ghost use Rattle.lrc_named_expression_faults.specs.Extent.{AreExtents};
ghost use Rattle.lrc_named_expression_faults.specs.View.{scope_of};
ghost use Rattle.lrc_named_faults.specs.Declarations.{constant_scope, limit_of, most, used};
ghost use Rattle.lrc_named_faults.specs.Found.{AreItemsTaken, AreSizesFound, IsItemDeclared, IsItemFound, kind_of};
ghost use Rattle.lrc_named_faults.specs.Layout.{IsLaidOut};
ghost use Rattle.lrc_named_faults.specs.Values.{IsSizeJoined};

use crate::layout::Layout;
use crate::values::{Found, in_name, size, told};
use lrc_named_expression_faults::extent::Extent;
use lrc_named_expression_faults::fault::{Fault, FaultKind, Limit, earlier};
use lrc_named_expression_faults::scope::Scope;
use lrc_named_expression_faults::spelled::Spelled;
use lrc_named_names::item::Item;
use lrc_named_names::names::Meaning;
use lrc_named_tree::tree::{Expression, Place};
use std::alloc::{AllocError, Global};

/// What an item is of.
#[derive(Clone, Copy)]
pub enum Kind {
    Words,
    Locks,
}

// Adds a size that was found to those before it, or returns the first fault with one more.
fn join(
    first: Option<Fault>,
    sizes: &mut Vec<u32>,
    found: Found<u32>,
) -> Result<Option<Fault>, AllocError>
    ensures { IfOk result (λ now. IsSizeJoined first found sizes.old.items sizes.new.items now) }
{
    match found {
        Found::Good(size) => {
            sizes.push(size)?;
            Ok(first)
        }
        Found::Bad(fault) => Ok(earlier(first, Some(fault))),
    }
}

// The sizes of an item, or the first fault of these.
fn sizes<'p>(
    scope: &Scope<'_, '_, 'p>,
    expressions: &[Expression<'p>],
) -> Result<Found<Vec<u32>>, AllocError>
    requires table { IsSound (declared_of scope.now.names.now) }
    requires extents { AreExtents (declared_of scope.now.names.now) scope.now.extents.now }
    requires constant { scope_of scope.now ≡ constant_scope (declared_of scope.now.names.now) }
    ensures { IfOk result (λ found. AreSizesFound (declared_of scope.now.names.now)
        (expressions_of expressions.now) found) }
{
    let mut all = Vec::new(scope.alloc);
    let mut first = None;
    for expression in expressions {
        let found = size(scope, expression)?;
        first = join(first, &mut all, found)?;
    }
    match first {
        Some(fault) => Ok(Found::Bad(fault)),
        None => Ok(Found::Good(all)),
    }
}

// How many elements an array of these sizes has; 65,537 stands for any more.
fn count(sizes: &[u32]) -> u32
    ensures { result ≡ min (elements sizes.now) 65537 }
{
    let mut count: u64 = 1;
    for i in (0..sizes.len()).rev() {
        count = (u64::from(sizes[i]) * count).min(65537);
    }
    count as u32
}

// The limit of the items of this kind.
fn limit(kind: Kind) -> Limit
    ensures { result ≡ limit_of (kind_of kind) }
{
    match kind {
        Kind::Words => Limit::Words,
        Kind::Locks => Limit::Locks,
    }
}

// How many words or locks there may be.
fn most(kind: Kind) -> u32
    ensures { result ≡ most (kind_of kind) }
{
    match kind {
        Kind::Words => 65536,
        Kind::Locks => 64,
    }
}

// Whether there would be too many words or locks with so many more.
fn exceeds(kind: Kind, used: u32, more: u32) -> bool
    requires { used ≤ most (kind_of kind) }
    ensures over { result ≡ true → most (kind_of kind) < used + more }
    ensures only { most (kind_of kind) < used + more → result ≡ true }
{
    more > most(kind) - used
}

impl<'n, 'p> Layout<'n, 'p> {
    // How many words or locks there are so far.
    fn used(&self, kind: Kind) -> u32
        requires { IsLaidOut self.now }
        ensures used { result ≡ used (kind_of kind) (declared_of self.now.names) }
        ensures few { result ≤ most (kind_of kind) }
    {
        match kind {
            Kind::Words => self.words,
            Kind::Locks => self.locks,
        }
    }

    // The sizes of an item that is declared next, or the first fault of these.
    fn sizes(
        &self,
        alloc: Global,
        expressions: &[Expression<'p>],
    ) -> Result<Found<Vec<u32>>, AllocError>
        requires { IsLaidOut self.now }
        ensures { IfOk result (λ found. AreSizesFound (declared_of self.now.names)
            (expressions_of expressions.now) found) }
    {
        let none = Spelled::none(alloc);
        let scope = Scope {
            alloc,
            names: &self.names,
            extents: &self.extents,
            known: &[],
            parameters: &none,
            assigned: &none,
            is_constant: true,
        };
        sizes(&scope, expressions)
    }

    // The item that is declared next, or its first fault.
    fn item(&self, alloc: Global, kind: Kind, place: &Place<'p>) -> Result<Found<Item>, AllocError>
        requires { IsLaidOut self.now }
        ensures { IfOk result (λ found. IsItemFound (kind_of kind) (declared_of self.now.names)
            (place_of place.now) found) }
    {
        let own = in_name(&self.names, false, place.name);
        let found = self.sizes(alloc, &place.indices)?;
        match found {
            Found::Bad(fault) => Ok(Found::Bad(told(own, fault))),
            Found::Good(sizes) => {
                let count = count(&sizes);
                let first = self.used(kind);
                let large = Fault::at_token(place.name.at, FaultKind::OverLimit(limit(kind)));
                let many = large.only_if(exceeds(kind, first, count));
                match earlier(own, many) {
                    Some(fault) => Ok(Found::Bad(fault)),
                    None => {
                        let item = Item {
                            first,
                            sizes,
                            count,
                        };
                        Ok(Found::Good(item))
                    }
                }
            }
        }
    }

    // Declares an item whose words or locks are the next ones.
    fn declare_item(&mut self, kind: Kind, place: &Place<'p>, item: Item) -> Result<(), AllocError>
        requires laid_out { IsLaidOut self.old }
        requires next { item.first ≡ used (kind_of kind) (declared_of self.old.names) }
        requires few { used (kind_of kind) (declared_of self.old.names) + elements item.sizes.items ≤ most (kind_of kind) }
        ensures { OnOk result (IsItemDeclared (kind_of kind) self.old self.new (place_of place.now) item.sizes.items) }
    {
        let nothing = Extent {
            varies: false,
            weight: 0,
        };
        let count = item.count;
        match kind {
            Kind::Words => {
                self.declare(place.name, Meaning::Shared(item), nothing)?;
                self.words += count;
            }
            Kind::Locks => {
                self.declare(place.name, Meaning::Lock(item), nothing)?;
                self.locks += count;
            }
        }
        Ok(())
    }

    // Declares items one behind the other, up to one that has a fault, and returns its first one.
    pub(crate) fn items(
        &mut self,
        alloc: Global,
        kind: Kind,
        places: &[Place<'p>],
    ) -> Result<Option<Fault>, AllocError>
        requires { IsLaidOut self.old }
        ensures { IfOk result (λ found. AreItemsTaken (kind_of kind) self.old self.new
            (map place_of places.now) found) }
    {
        for place in places {
            let found = self.item(alloc, kind, place)?;
            match found {
                Found::Bad(fault) => return Ok(Some(fault)),
                Found::Good(item) => self.declare_item(kind, place, item)?,
            }
        }
        Ok(None)
    }
}
