// The faults of statements.

ghost use Rattle.std.specs.Prelude.{◌≡◌, IfOk, map, slice_get, true};
ghost use Rattle.lrc_named_tree.specs.View.{block_of, expressions_of, named_of, place_of};
ghost use Rattle.lrc_named_names.specs.View.{declared_of};
ghost use Rattle.lrc_named_constants.specs.Well.{IsSound};
ghost use Rattle.lrc_named_expression_faults.specs.Extent.{AreExtents};
ghost use Rattle.lrc_named_expression_faults.specs.Fault.{IsFirstOf};
ghost use Rattle.lrc_named_expression_faults.specs.View.{scope_of, sense_seen};
ghost use Rattle.lrc_named_statement_faults.specs.Parts.{lock_place, part_seen, target};
ghost use Rattle.lrc_named_statement_faults.specs.Statements.{IsInCounter, IsInLock, IsInPart, IsInParts, IsInStatements, IsInTarget, IsReserved, IsReservedTarget, is_reserved};

use crate::parts::{Part, push_parts};
use crate::privates::{names_set, too_many};
use lrc_named_expression_faults::extent::Extent;
use lrc_named_expression_faults::fault::{Fault, FaultKind, earlier};
use lrc_named_expression_faults::scope::{Scope, Sense};
use lrc_named_expression_faults::spelled::Spelled;
use lrc_named_expression_faults::{indexed, wrong_indices};
use lrc_named_names::names::{Meaning, Names};
use lrc_named_tree::tree::{Expression, Name, Place, Statement};
use std::alloc::{AllocError, Global};

// The first byte, if there is one.
fn first_byte(name: &[u8]) -> Option<u8>
    ensures { result ≡ slice_get name.now 0 }
{
    name.first().copied()
}

/// Returns whether a name begins with `_`.
pub fn is_reserved(name: &[u8]) -> bool
    ensures { result ≡ is_reserved name.now }
{
    match first_byte(name) {
        Some(first) => first == b'_',
        None => false,
    }
}

/// Returns the fault of a name that begins with `_`, if it does.
pub fn reserved(name: Name<'_>) -> Option<Fault>
    ensures { IsFirstOf (λ f. IsReserved (named_of name.entry) f) result }
{
    let fault = Fault::at_token(name.at, FaultKind::ReservedName);
    fault.only_if(is_reserved(name.bytes))
}

// The fault of a name that begins with `_` and is set without an index, if it does and is.
fn reserved_target(name: Name<'_>, indices: &[Expression<'_>]) -> Option<Fault>
    ensures { IsFirstOf (λ f. IsReservedTarget (expressions_of indices.now) (named_of name.entry) f) result }
{
    match indices {
        [] => reserved(name),
        [_, ..] => None,
    }
}

// The fault of the name of what is set, if it has one.
fn in_target(sense: Sense<'_, '_, '_>, name: Name<'_>, indices: &[Expression<'_>]) -> Option<Fault>
    ensures { IsFirstOf (λ f. IsInTarget (sense_seen sense.entry) (named_of name.entry)
        (expressions_of indices.now) f) result }
{
    match sense {
        Sense::Unknown => Some(Fault::at_token(name.at, FaultKind::UnknownName)),
        Sense::Parameter => Some(Fault::at_token(name.at, FaultKind::WrongUse)),
        Sense::Private => indexed(name, indices),
        Sense::Declared(meaning) => match meaning {
            Meaning::Constant(_) => Some(Fault::at_token(name.at, FaultKind::WrongUse)),
            Meaning::Shared(item) => wrong_indices(name, indices, &item.sizes),
            Meaning::Lock(_) => Some(Fault::at_token(name.at, FaultKind::WrongUse)),
            Meaning::Function(_, _) => Some(Fault::at_token(name.at, FaultKind::WrongUse)),
        },
    }
}

// The fault of the name of what is acquired or released, if it has one.
fn in_lock(sense: Sense<'_, '_, '_>, name: Name<'_>, indices: &[Expression<'_>]) -> Option<Fault>
    ensures { IsFirstOf (λ f. IsInLock (sense_seen sense.entry) (named_of name.entry)
        (expressions_of indices.now) f) result }
{
    match sense {
        Sense::Unknown => Some(Fault::at_token(name.at, FaultKind::UnknownName)),
        Sense::Parameter => Some(Fault::at_token(name.at, FaultKind::WrongUse)),
        Sense::Private => Some(Fault::at_token(name.at, FaultKind::WrongUse)),
        Sense::Declared(meaning) => match meaning {
            Meaning::Constant(_) => Some(Fault::at_token(name.at, FaultKind::WrongUse)),
            Meaning::Shared(_) => Some(Fault::at_token(name.at, FaultKind::WrongUse)),
            Meaning::Lock(item) => wrong_indices(name, indices, &item.sizes),
            Meaning::Function(_, _) => Some(Fault::at_token(name.at, FaultKind::WrongUse)),
        },
    }
}

// The fault of a name behind `for`, if it is not private.
fn in_counter(sense: Sense<'_, '_, '_>, name: Name<'_>) -> Option<Fault>
    ensures { IsFirstOf (λ f. IsInCounter (sense_seen sense.entry) (named_of name.entry) f) result }
{
    match sense {
        Sense::Unknown => Some(Fault::at_token(name.at, FaultKind::WrongUse)),
        Sense::Parameter => Some(Fault::at_token(name.at, FaultKind::WrongUse)),
        Sense::Private => None,
        Sense::Declared(_) => Some(Fault::at_token(name.at, FaultKind::WrongUse)),
    }
}

// The first fault of a place that is set.
fn of_target<'p>(scope: &Scope<'_, '_, 'p>, place: &Place<'p>) -> Result<Option<Fault>, AllocError>
    requires table { IsSound (declared_of scope.now.names.now) }
    requires extents { AreExtents (declared_of scope.now.names.now) scope.now.extents.now }
    ensures { IfOk result (λ found. IsFirstOf (λ f. IsInPart (scope_of scope.now) (target (place_of place.now)) f) found) }
{
    let name = place.name;
    let sense = scope.sense(name.bytes);
    let inside = scope.indices(&place.indices, sense.shared_sizes())?;
    let reserved = reserved_target(name, &place.indices);
    let own = in_target(sense, name, &place.indices);
    Ok(earlier(earlier(reserved, own), inside))
}

// The first fault of a lock that is acquired or released.
fn of_lock<'p>(scope: &Scope<'_, '_, 'p>, place: &Place<'p>) -> Result<Option<Fault>, AllocError>
    requires table { IsSound (declared_of scope.now.names.now) }
    requires extents { AreExtents (declared_of scope.now.names.now) scope.now.extents.now }
    ensures { IfOk result (λ found. IsFirstOf (λ f. IsInPart (scope_of scope.now) (lock_place (place_of place.now)) f) found) }
{
    let name = place.name;
    let sense = scope.sense(name.bytes);
    let inside = scope.indices(&place.indices, sense.lock_sizes())?;
    let own = in_lock(sense, name, &place.indices);
    Ok(earlier(own, inside))
}

// The first fault of a part.
fn of_part<'p>(scope: &Scope<'_, '_, 'p>, part: Part<'_, 'p>) -> Result<Option<Fault>, AllocError>
    requires table { IsSound (declared_of scope.now.names.now) }
    requires extents { AreExtents (declared_of scope.now.names.now) scope.now.extents.now }
    ensures { IfOk result (λ found. IsFirstOf (λ f. IsInPart (scope_of scope.now) (part_seen part.entry) f) found) }
{
    match part {
        Part::Target(place) => of_target(scope, place),
        Part::Lock(place) => of_lock(scope, place),
        Part::Counter(name) => {
            let own = in_counter(scope.sense(name.bytes), name);
            Ok(earlier(reserved(name), own))
        }
        Part::Value(value) => scope.expression(value),
    }
}

// The first fault of these parts.
fn of_parts<'p>(
    scope: &Scope<'_, '_, 'p>,
    parts: &[Part<'_, 'p>],
) -> Result<Option<Fault>, AllocError>
    requires table { IsSound (declared_of scope.now.names.now) }
    requires extents { AreExtents (declared_of scope.now.names.now) scope.now.extents.now }
    ensures { IfOk result (λ found. IsFirstOf (λ f. IsInParts (scope_of scope.now) (map part_seen parts.now) f) found) }
{
    let mut first = None;
    for i in (0..parts.len()).rev() {
        let one = of_part(scope, parts[i])?;
        first = earlier(one, first);
    }
    Ok(first)
}

/// Returns the first fault of the statements of a text in which so much is declared, if they have one. It fails only if
/// memory runs out.
pub fn first_fault<'p>(
    alloc: Global,
    names: &Names<'_, 'p>,
    extents: &[Extent],
    statements: &[Statement<'p>],
) -> Result<Option<Fault>, AllocError>
    requires table { IsSound (declared_of names.now) }
    requires extents { AreExtents (declared_of names.now) extents.now }
    ensures { IfOk result (λ found. IsFirstOf
        (λ f. IsInStatements (declared_of names.now) (block_of statements.now) f) found) }
{
    let mut parts = Vec::new(alloc);
    push_parts(&mut parts, statements)?;
    let set = names_set(alloc, &parts)?;
    let assigned = Spelled::of(alloc, &set)?;
    let none = Spelled::none(alloc);
    let scope = Scope {
        alloc,
        names,
        extents,
        known: &[],
        parameters: &none,
        assigned: &assigned,
        is_constant: false,
    };
    let inside = of_parts(&scope, &parts)?;
    let many = too_many(&scope, &parts)?;
    Ok(earlier(inside, many))
}
