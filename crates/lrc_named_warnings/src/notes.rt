// The warnings of a named program, in their order.

ghost use Rattle.std.specs.Prelude.{◌≡◌, ◌++◌, IfOk, IsPermutation, IsSortedByKey, OnOk, [], count_by, map, nat_le, slice_get, slice_index_or};
ghost use Rattle.std.specs.List.{flat_map};
ghost use Rattle.lrc_named_core.specs.View.{origin_of};
ghost use Rattle.lrc_named_entries.specs.View.{entry_seen};
ghost use Rattle.lrc_named_warnings.specs.Context.{context_seen, no_origin, no_spot};
ghost use Rattle.lrc_named_warnings.specs.Notes.{entry_token, is_of_own, is_own, key_of, key_order, kind_notes};
ghost use Rattle.lrc_named_warnings.specs.Notes.{loop_note, note_at, notes_of, statement_around, unused_note, unused_notes, warned_notes};

use crate::context::Context;
use crate::note::{Note, Says, rank};
use lrc_lint_warned::found::Kind;
use lrc_lint_warnings::warning::{Says as CoreSays, Spot, Warning};
use lrc_named_core::tree::{Origin, Trap};
use lrc_named_entries::entry::Entry;
use std::alloc::{AllocError, Global};

/// Returns the warnings of a named program, by line, column and kind, then as in the core. `warned` is what is warned of in
/// the core: each has the place of its token among those of the core's text as its column. It fails only if memory runs
/// out.
pub(crate) fn notes_of(
    alloc: Global,
    context: &Context<'_>,
    warned: &[Warning],
) -> Result<Vec<Note>, AllocError>
    ensures these { IfOk result (λ notes. IsPermutation
        (notes_of (context_seen context.now) warned.now) notes.items) }
    ensures sorted { IfOk result (λ notes. IsSortedByKey key_of key_order notes.items) }
{
    let mut notes = placed(alloc, context, warned)?;
    sort(&mut notes)?;
    Ok(notes)
}

fn sort(notes: &mut Vec<Note>) -> Result<(), AllocError>
    ensures these { IsPermutation notes.old.items notes.new.items }
    ensures sorted { OnOk result (IsSortedByKey key_of key_order notes.new.items) }
{
    notes.sort_by_key(|n| ((n.line, n.column), (rank(n.says), n.at)))
}

// All warnings, with their places.
fn placed(alloc: Global, context: &Context<'_>, warned: &[Warning]) -> Result<Vec<Note>, AllocError>
    ensures { IfOk result (λ notes. notes.items ≡ notes_of (context_seen context.now) warned.now) }
{
    let mut notes = Vec::new(alloc);
    put_warned(&mut notes, context, warned)?;
    put_loops(&mut notes, context.spots, context.loops)?;
    put_unused(&mut notes, context.spots, context.unused)?;
    Ok(notes)
}

fn put_warned(
    notes: &mut Vec<Note>,
    context: &Context<'_>,
    warned: &[Warning],
) -> Result<(), AllocError>
    ensures { OnOk result (notes.new.items
        ≡ notes.old.items ++ flat_map (warned_notes (context_seen context.now)) warned.now) }
{
    for warning in warned {
        put_warning(notes, context, *warning)?;
    }
    Ok(())
}

fn put_warning(
    notes: &mut Vec<Note>,
    context: &Context<'_>,
    warning: Warning,
) -> Result<(), AllocError>
    ensures { OnOk result (notes.new.items
        ≡ notes.old.items ++ warned_notes (context_seen context.now) warning) }
{
    match warning.says {
        CoreSays::OfText(kind) => put_kind(notes, context, warning.column, kind),
        CoreSays::OfLabel(_) => Ok(()),
    }
}

// Adds what is warned of at this token of the core, unless it is about a name of the translation's own.
fn put_kind(
    notes: &mut Vec<Note>,
    context: &Context<'_>,
    at: usize,
    kind: Kind,
) -> Result<(), AllocError>
    ensures { OnOk result (notes.new.items
        ≡ notes.old.items ++ kind_notes (context_seen context.now) at kind) }
{
    if is_of_own(context.names, kind) {
        return Ok(());
    }
    let statement = statement_around(context.begins, at);
    let token = origin_at(context.origins, statement).statement;
    notes.push(note_at(context.spots, token, at, Says::OfCore(kind, statement)))?;
    Ok(())
}

// Whether something is said of a name of the translation's own.
fn is_of_own(names: &[&[u8]], kind: Kind) -> bool
    ensures { result ≡ is_of_own (map (λ name. name.now) names.now) kind }
{
    match kind {
        Kind::NeverSet(name) | Kind::NeverRead(name) => is_own(names, name as usize),
        _ => false,
    }
}

fn is_own(names: &[&[u8]], name: usize) -> bool
    ensures { result ≡ is_own (slice_index_or (map (λ name. name.now) names.now) name []) }
{
    name < names.len() && begins_with_line(names[name])
}

fn begins_with_line(name: &[u8]) -> bool
    ensures { result ≡ is_own name.now }
{
    match name {
        [first, ..] => *first == b'_',
        [] => false,
    }
}

// How many statements of the core begin with a token up to this one.
fn count_up_to(begins: &[u32], at: usize) -> usize
    ensures { result ≡ count_by (λ begin. nat_le begin at) begins.now }
{
    begins
        .iter()
        .filter(|begin| (**begin as usize) <= at)
        .count()
}

// Which statement of the core a token stands in.
fn statement_around(begins: &[u32], at: usize) -> usize
    ensures { result ≡ statement_around begins.now at }
{
    count_up_to(begins, at).saturating_sub(1)
}

/// Returns what the statement of this number comes from.
pub(crate) fn origin_at<'t>(origins: &[Origin<'t>], statement: usize) -> Origin<'t>
    ensures { origin_of result ≡ slice_index_or (map origin_of origins.now) statement no_origin }
{
    if statement < origins.len() {
        origins[statement]
    } else {
        Origin {
            statement: 0,
            line: 0,
            trap: Trap::Plain,
        }
    }
}

// A warning at this token of the named program's text.
fn note_at(spots: &[Spot], token: u32, at: usize, says: Says) -> Note
    ensures { result ≡ note_at spots.now token at says }
{
    let spot = spot_at(spots, token as usize);
    Note {
        line: spot.line,
        column: spot.column,
        at,
        says,
    }
}

fn spot_at(spots: &[Spot], token: usize) -> Spot
    ensures { result ≡ slice_index_or spots.now token no_spot }
{
    if token < spots.len() {
        spots[token]
    } else {
        Spot { line: 0, column: 0 }
    }
}

fn put_loops(notes: &mut Vec<Note>, spots: &[Spot], loops: &[u32]) -> Result<(), AllocError>
    ensures { OnOk result (notes.new.items
        ≡ notes.old.items ++ map (loop_note spots.now) loops.now) }
{
    for token in loops {
        notes.push(note_at(spots, *token, 0, Says::OfLoop))?;
    }
    Ok(())
}

fn put_unused(notes: &mut Vec<Note>, spots: &[Spot], unused: &[Entry<'_>]) -> Result<(), AllocError>
    ensures { OnOk result (notes.new.items
        ≡ notes.old.items ++ unused_notes spots.now (map entry_seen unused.now)) }
{
    for i in 0..unused.len() {
        notes.push(unused_note(spots, unused, i))?;
    }
    Ok(())
}

// The warning of the unused name of this number.
fn unused_note(spots: &[Spot], unused: &[Entry<'_>], number: usize) -> Note
    ensures { result ≡ unused_note spots.now (map entry_seen unused.now) number }
{
    note_at(spots, token_at(unused, number), 0, Says::Unused(number))
}

// Where the name of this number is declared.
fn token_at(unused: &[Entry<'_>], number: usize) -> u32
    ensures { result ≡ entry_token (slice_get (map entry_seen unused.now) number) }
{
    match unused.get(number) {
        Some(entry) => entry.name.at,
        None => 0,
    }
}
