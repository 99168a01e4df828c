// The turns of a run in words.

ghost use Rattle.std.specs.Prelude.{◌≡◌, ◌+◌, ◌<◌, ◌≤◌, [], ◌∷◌, ◌++◌, IfOk, List, MatchOption, None, OnOk, OnSome, Some, slice_index};
ghost use Rattle.lrc_protocol.specs.Run.{turns_of_logs};
ghost use Rattle.lrc_turns_text.specs.Told.{Tells};
ghost use Rattle.lrc_turns_text.specs.Turns.{Made, log_entry, next};
ghost use Rattle.lrc_turns_text.specs.TurnsText.{messages_text, text_behind, texts_behind};

use crate::told::Told;
use crate::turn::push_turn;
use lrc_log::Entry;
use std::alloc::{AllocError, Global};

/// Returns the turn at a place of a node's log, or none if the log has no such turn.
pub fn entry_of(logs: &[Vec<Entry>], node: u8, place: usize) -> Option<&Entry>
    ensures there { MatchOption result (log_entry (turns_of_logs logs.now) node place
        ≡ None)
        (λ entry. log_entry (turns_of_logs logs.now) node place ≡ Some entry.now) }
    ensures bound { OnSome result (place < 18446744073709551615) }
{
    logs.get(usize::from(node))?.get(place)
}

// The line at a place; 0 where there is none.
fn line_at(lines: &[u32], place: usize) -> u32
    ensures { result ≡ slice_index lines.now place }
{
    if place < lines.len() { lines[place] } else { 0 }
}

// Adds a turn behind those that were told.
fn tell(
    alloc: Global,
    text: &mut Vec<u8>,
    told: &mut Told,
    node: u8,
    entry: &Entry,
    lines: &[u32],
) -> Result<(), AllocError>
    requires made { slice_index told.old.made node < 18446744073709551615 }
    requires acts { told.old.acts < 18446744073709551615 }
    ensures text { OnOk result ((turns : List Made) → Tells turns told.old
        → text.new.items ≡ text.old.items ++ text_behind lines.now turns
        (record { node = node; entry = entry.now })) }
    ensures tells { OnOk result ((turns : List Made) → Tells turns told.old
        → Tells (turns ++ record { node = node; entry = entry.now } ∷ []) told.new) }
    ensures acts { told.new.acts ≤ told.old.acts + 1 }
{
    let line = line_at(lines, told.acts());
    let again = told.note(node, entry)?;
    push_turn(alloc, text, node, entry, again, line)
}

// Adds the next turn of a node, if its log has one, behind those that were told.
fn tell_next(
    alloc: Global,
    text: &mut Vec<u8>,
    told: &mut Told,
    logs: &[Vec<Entry>],
    node: u8,
    lines: &[u32],
) -> Result<(), AllocError>
    requires { told.old.acts < 18446744073709551615 }
    ensures text { OnOk result ((turns : List Made) → Tells turns told.old
        → text.new.items ≡ text.old.items
        ++ texts_behind lines.now turns (next (turns_of_logs logs.now) turns node)) }
    ensures tells { OnOk result ((turns : List Made) → Tells turns told.old
        → Tells (turns ++ next (turns_of_logs logs.now) turns node) told.new) }
    ensures acts { told.new.acts ≤ told.old.acts + 1 }
{
    match entry_of(logs, node, told.made_by(node)) {
        Some(entry) => tell(alloc, text, told, node, entry, lines),
        None => Ok(()),
    }
}

/// Returns the text of the turns that nodes made, in the order of `order`: each is the next one of its node's log. A
/// turn that takes a message begins with that message. Then comes its act, with its line of the program's text, where
/// `lines` are the lines of the run's acts. The messages that the turn sends come last.
pub fn messages_part(
    alloc: Global,
    logs: &[Vec<Entry>],
    order: &[u8],
    lines: &[u32],
) -> Result<Vec<u8>, AllocError>
    ensures { IfOk result (λ part. part.items
        ≡ messages_text (turns_of_logs logs.now) order.now lines.now) }
{
    let mut text = Vec::new(alloc);
    let mut told = Told::new(alloc);
    for node in order {
        tell_next(alloc, &mut text, &mut told, logs, *node, lines)?;
    }
    Ok(text)
}
