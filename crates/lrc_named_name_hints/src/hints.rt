// Which hint a fault of a name has.

ghost use Rattle.std.specs.Prelude.{◌≡◌, IfOk, map};
ghost use Rattle.std.specs.List.{find};
ghost use Rattle.std.specs.Option.{option_map};
ghost use Rattle.lrc_named_name_hints.specs.Hint.{words_of};
ghost use Rattle.lrc_named_name_hints.specs.Hints.{IsHintOf, IsUnknownHint, arguments_row, count_of, declared_place, declared_row, earlier_entry, earlier_parameter, indices_row, is_entry, owner_in};
ghost use Rattle.lrc_named_name_hints.specs.Hints.{is_truth, sense_of, sense_of_entry, sense_of_sort, stood, twice_place, twice_row, use_row};
ghost use Rattle.lrc_named_name_hints.specs.Seen.{name_at, seen_of};
ghost use Rattle.lrc_named_entries.specs.View.{entry_seen};
ghost use Rattle.lrc_named_tree.specs.View.{named_of};

use crate::hint::{Hint, Sense};
use crate::near::near;
use crate::owner::owner;
use crate::seen::{Seen, is_entry, is_parameter};
use lrc_named_entries::entry::{Entry, Sort};
use lrc_named_expression_faults::fault::FaultKind;
use lrc_named_tree::tree::Name;
use std::alloc::{AllocError, Global};

/// Returns the hint on a fault of a name, if it has one. It fails only if memory runs out.
pub fn hint_for<'t>(
    alloc: Global,
    kind: FaultKind,
    seen: &Seen<'t>,
) -> Result<Option<Hint<'t>>, AllocError>
    ensures { IfOk result (λ hint. IsHintOf kind (seen_of seen.now) (words_of hint)) }
{
    match kind {
        FaultKind::DeclaredTwice => Ok(declared_twice(seen)),
        FaultKind::ReservedName => Ok(Some(Hint::Reserved)),
        FaultKind::UnknownName => unknown(alloc, seen),
        FaultKind::WrongUse => Ok(wrong_use(seen)),
        FaultKind::NotConstant => Ok(Some(Hint::NotConstant)),
        FaultKind::OverLimit(limit) => Ok(Some(Hint::Over(limit))),
        FaultKind::TooManyNames => Ok(Some(Hint::TooManyNames)),
        FaultKind::WrongIndices => Ok(wrong_indices(seen)),
        FaultKind::WrongArguments => Ok(wrong_arguments(seen)),
        FaultKind::IndexOutOfRange => Ok(None),
    }
}

fn declared_twice<'t>(seen: &Seen<'t>) -> Option<Hint<'t>>
    ensures { words_of result ≡ twice_row (seen_of seen.now) }
{
    declared_at(seen, twice_place(seen, seen.name()))
}

// The hint that tells where something is declared.
fn declared_at<'t>(seen: &Seen<'t>, place: Option<u32>) -> Option<Hint<'t>>
    ensures { words_of result ≡ declared_row (seen_of seen.now) place }
{
    match place {
        Some(at) => Some(Hint::DeclaredOn(seen.line(at))),
        None => None,
    }
}

// Where what is declared twice is declared first.
fn twice_place(seen: &Seen<'_>, name: Option<&[u8]>) -> Option<u32>
    ensures { result ≡ twice_place (seen_of seen.now) (option_map (λ name. name.now) name.entry) }
{
    match name {
        Some(name) => earlier_entry(seen, name).or(earlier_parameter(seen, name)),
        None => seen.counted,
    }
}

fn earlier_entry(seen: &Seen<'_>, name: &[u8]) -> Option<u32>
    ensures { result ≡ earlier_entry (seen_of seen.now) name.now }
{
    for entry in seen.entries {
        if stood(seen.at, name, entry.name) {
            return Some(entry.name.at);
        }
    }
    None
}

fn earlier_parameter(seen: &Seen<'_>, name: &[u8]) -> Option<u32>
    ensures { result ≡ earlier_parameter (seen_of seen.now) name.now }
{
    for parameter in seen.parameters {
        if stood(seen.at, name, *parameter) {
            return Some(parameter.at);
        }
    }
    None
}

// Whether this is an earlier place of a name.
fn stood(at: usize, name: &[u8], place: Name<'_>) -> bool
    ensures { result ≡ stood at name.now (named_of place.entry) }
{
    (place.at as usize) < at && place.bytes == name
}

// The hint on a name that is unknown where it stands.
fn unknown<'t>(alloc: Global, seen: &Seen<'t>) -> Result<Option<Hint<'t>>, AllocError>
    ensures { IfOk result (λ hint. IsUnknownHint (seen_of seen.now) (name_at (seen_of seen.now)) (words_of hint)) }
{
    match seen.name() {
        Some(name) => unknown_name(alloc, seen, name),
        None => Ok(None),
    }
}

fn unknown_name<'t>(
    alloc: Global,
    seen: &Seen<'t>,
    name: &[u8],
) -> Result<Option<Hint<'t>>, AllocError>
    ensures { IfOk result (λ hint. IsUnknownHint (seen_of seen.now) (Some name.now) (words_of hint)) }
{
    let place = declared_place(seen, name);
    if place.is_some() {
        return Ok(declared_at(seen, place));
    }
    if is_truth(name) {
        return Ok(Some(Hint::Truth));
    }
    near(alloc, seen, name)
}

// Where a name is declared, parameters aside.
fn declared_place(seen: &Seen<'_>, name: &[u8]) -> Option<u32>
    ensures { result ≡ declared_place (seen_of seen.now) name.now }
{
    for entry in seen.entries {
        if is_entry(name, entry) {
            return Some(entry.name.at);
        }
    }
    None
}

fn is_truth(name: &[u8]) -> bool
    ensures { result ≡ is_truth name.now }
{
    name == b"true".as_slice() || name == b"false".as_slice()
}

// The hint on a name that is used as what it is not.
fn wrong_use<'t>(seen: &Seen<'t>) -> Option<Hint<'t>>
    ensures { words_of result ≡ use_row (seen_of seen.now) (name_at (seen_of seen.now)) }
{
    match seen.name() {
        Some(name) => Some(Hint::Is(name, sense_of(seen, name))),
        None => None,
    }
}

// The hint that tells how many indices an item has.
fn wrong_indices<'t>(seen: &Seen<'t>) -> Option<Hint<'t>>
    ensures { words_of result ≡ indices_row (seen_of seen.now) (owner_in (seen_of seen.now) 0) }
{
    match owner(seen.tokens, seen.at, 0) {
        Some(name) => Some(Hint::Indices(name, count_of(seen, name))),
        None => None,
    }
}

// The hint that tells how many arguments a function takes.
fn wrong_arguments<'t>(seen: &Seen<'t>) -> Option<Hint<'t>>
    ensures { words_of result ≡ arguments_row (seen_of seen.now) (owner_in (seen_of seen.now) 1) }
{
    match owner(seen.tokens, seen.at, 1) {
        Some(name) => Some(Hint::Arguments(name, count_of(seen, name))),
        None => None,
    }
}

// How many indices or arguments there are of what a name is; none of what is not declared.
fn count_of(seen: &Seen<'_>, name: &[u8]) -> usize
    ensures { result ≡ count_of (seen_of seen.now) name.now }
{
    for entry in seen.entries {
        if is_entry(name, entry) {
            return entry.count;
        }
    }
    0
}

// What a name is.
fn sense_of(seen: &Seen<'_>, name: &[u8]) -> Sense
    ensures { result ≡ sense_of (seen_of seen.now) name.now }
{
    if is_parameter(seen, name) {
        Sense::Parameter
    } else {
        sense_declared(seen, name)
    }
}

fn sense_declared(seen: &Seen<'_>, name: &[u8]) -> Sense
    ensures { result ≡ sense_of_entry (find (is_entry name.now) (map entry_seen seen.now.entries.now)) }
{
    for entry in seen.entries {
        if is_entry(name, entry) {
            return sense_of_sort(entry.sort);
        }
    }
    Sense::Private
}

fn sense_of_sort(sort: Sort) -> Sense
    ensures { result ≡ sense_of_sort sort }
{
    match sort {
        Sort::Constant => Sense::Constant,
        Sort::Shared => Sense::Shared,
        Sort::Lock => Sense::Lock,
        Sort::Function => Sense::Function,
    }
}
