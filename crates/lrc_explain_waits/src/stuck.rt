// How nodes ended and why, in words.

ghost use Rattle.std.specs.Prelude.{◌≡◌, ◌++◌, IfOk, OnErr, OnOk, codes, decimal, map};
ghost use Rattle.lrc_text.specs.Front.{BeginsWith};
ghost use Rattle.lrc_labels.specs.Reading.{label_seen};
ghost use Rattle.lrc_explain_waits.specs.Stand.{stands_of};
ghost use Rattle.lrc_explain_waits.specs.Stuck.{end_text, fate_words, reason_text, stuck_line, stuck_lines, stuck_text};
ghost use Rattle.lrc_explain_waits.specs.Traps.{traps_told, wording_of};
ghost use Rattle.lrc_explain_waits.specs.Words.{coming_words};
ghost use Rattle.lrc_named_core.specs.View.{trap_of};
ghost use Rattle.lrc_trap_words.specs.Words.{cause_words};

use crate::circles::push_deadlocks;
use crate::stand::{Fate, Stand, stands_of};
use crate::traps::{Wording, trap_at, traps_told};
use crate::words::push_coming;
use lrc_exec::code::Code;
use lrc_labels::label::Label;
use lrc_lines::walks::follow_acts;
use lrc_named_core::tree::Trap;
use lrc_text::push_number;
use lrc_trace::act::{Act, Cause};
use lrc_trap_words::push_cause;
use std::alloc::{AllocError, Global};

// Adds how a node ended.
fn push_fate(text: &mut Vec<u8>, fate: Fate) -> Result<(), AllocError>
    ensures ok { OnOk result (text.new.items ≡ text.old.items ++ fate_words fate) }
    ensures err { OnErr result (BeginsWith text.new.items text.old.items) }
{
    match fate {
        Fate::Ended => text.extend_from_slice(b" ended\n"),
        Fate::Trapped(cause) => {
            push_number(text, b" trapped ", u64::from(cause as u8))?;
            text.extend_from_slice(b"\n")
        }
        Fate::Unfinished => text.extend_from_slice(b" unfinished\n"),
    }
}

// Adds the line at which a node stands, behind a word.
fn push_line(text: &mut Vec<u8>, word: &[u8], line: u32) -> Result<(), AllocError>
    ensures ok { OnOk result (text.new.items
        ≡ text.old.items ++ (word.now ++ decimal line ++ codes ": ")) }
    ensures err { OnErr result (BeginsWith text.new.items text.old.items) }
{
    push_number(text, word, u64::from(line))?;
    text.extend_from_slice(b": ")
}

// Adds where a node trapped, and why.
fn push_trapped(
    text: &mut Vec<u8>,
    trap: Trap<'_>,
    line: u32,
    cause: Cause,
) -> Result<(), AllocError>
    ensures ok { OnOk result (text.new.items
        ≡ text.old.items ++ (codes "  line " ++ decimal line ++ codes ": "
        ++ cause_words (trap_of trap.entry) cause ++ codes "\n")) }
    ensures err { OnErr result (BeginsWith text.new.items text.old.items) }
{
    push_line(text, b"  line ", line)?;
    push_cause(text, trap, cause)?;
    text.extend_from_slice(b"\n")
}

// Adds what comes next of a node that is unfinished.
fn push_next(
    alloc: Global,
    text: &mut Vec<u8>,
    labels: &[Label<'_>],
    trap: Trap<'_>,
    stands: &[Stand],
    me: usize,
    stand: Stand,
) -> Result<(), AllocError>
    ensures ok { OnOk result (text.new.items ≡ text.old.items
        ++ (codes "  next, line " ++ decimal stand.line ++ codes ": "
        ++ coming_words (map label_seen labels.now) (trap_of trap.entry) stands.now me stand.coming
        ++ codes "\n")) }
    ensures err { OnErr result (BeginsWith text.new.items text.old.items) }
{
    push_line(text, b"  next, line ", stand.line)?;
    push_coming(alloc, text, labels, trap, stands, me, stand.coming)?;
    text.extend_from_slice(b"\n")
}

// Adds the line on why a node ended so, which came to no end of the text.
fn push_reason(
    alloc: Global,
    text: &mut Vec<u8>,
    labels: &[Label<'_>],
    trap: Trap<'_>,
    stands: &[Stand],
    me: usize,
    stand: Stand,
) -> Result<(), AllocError>
    ensures ok { OnOk result (text.new.items
        ≡ text.old.items
        ++ reason_text (map label_seen labels.now) (trap_of trap.entry) stands.now me stand) }
    ensures err { OnErr result (BeginsWith text.new.items text.old.items) }
{
    match stand.fate {
        Fate::Ended => Ok(()),
        Fate::Trapped(cause) => push_trapped(text, trap, stand.line, cause),
        Fate::Unfinished => push_next(alloc, text, labels, trap, stands, me, stand),
    }
}

/// Adds how node `me` ended and why, with the labels of words and locks, and with what the text says of a trap of the
/// statement to which the node has come. On error `text` still begins with its old bytes.
pub fn push_end(
    alloc: Global,
    text: &mut Vec<u8>,
    labels: &[Label<'_>],
    trap: Trap<'_>,
    stands: &[Stand],
    me: usize,
    stand: Stand,
) -> Result<(), AllocError>
    ensures ok { OnOk result (text.new.items
        ≡ text.old.items
        ++ end_text (map label_seen labels.now) (trap_of trap.entry) stands.now me stand) }
    ensures err { OnErr result (BeginsWith text.new.items text.old.items) }
{
    push_number(text, b"node ", me as u64)?;
    push_fate(text, stand.fate)?;
    push_reason(alloc, text, labels, trap, stands, me, stand)
}

// Adds the two lines of a node that is unfinished.
fn push_stuck(
    alloc: Global,
    text: &mut Vec<u8>,
    labels: &[Label<'_>],
    trap: Trap<'_>,
    stands: &[Stand],
    me: usize,
    stand: Stand,
) -> Result<(), AllocError>
    ensures { OnOk result (text.new.items
        ≡ text.old.items
        ++ stuck_line (map label_seen labels.now) (trap_of trap.entry) stands.now me stand) }
{
    match stand.fate {
        Fate::Unfinished => push_end(alloc, text, labels, trap, stands, me, stand),
        _ => Ok(()),
    }
}

fn stuck_lines(
    alloc: Global,
    labels: &[Label<'_>],
    traps: &[Trap<'_>],
    stands: &[Stand],
) -> Result<Vec<u8>, AllocError>
    ensures { IfOk result (λ part. part.items
        ≡ stuck_lines (map label_seen labels.now) (map trap_of traps.now) stands.now) }
{
    let mut text = Vec::new(alloc);
    for me in 0..stands.len() {
        let trap = trap_at(traps, me);
        push_stuck(alloc, &mut text, labels, trap, stands, me, stands[me])?;
    }
    Ok(text)
}

/// Returns what is printed of the nodes that are unfinished after acts: two lines for each, and then a line for each
/// circle of waiting. `lines` has the lines of the program's statements, and of the text's end behind them. `steps` is
/// the number of steps that a node has, if it is limited. The labels of words and locks follow their numbers, and a trap
/// is told by what the text says of it.
pub fn stuck_part(
    alloc: Global,
    wording: &Wording<'_, '_>,
    code: &Code<'_>,
    lines: &[u32],
    nodes: u8,
    steps: Option<u32>,
    acts: &[Act],
) -> Result<Vec<u8>, AllocError>
    ensures { IfOk result (λ part. part.items
        ≡ stuck_text (wording_of wording.now).labels
        (traps_told (wording_of wording.now).traps code.now nodes acts.now)
        (stands_of code.now nodes lines.now steps acts.now)) }
{
    let followed = follow_acts(alloc, code, lines, nodes, acts)?;
    let stands = stands_of(alloc, &followed, nodes, steps, acts)?;
    let traps = traps_told(alloc, code, wording.traps, nodes, acts)?;
    let mut text = stuck_lines(alloc, wording.labels, &traps, &stands)?;
    push_deadlocks(alloc, &mut text, &stands)?;
    Ok(text)
}
