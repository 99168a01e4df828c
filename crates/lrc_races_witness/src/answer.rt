// What is said of the events on two lines.
ghost use Rattle.std.specs.Prelude.{◌<◌, IfOk, OnOk, length};
ghost use Rattle.lrc_races_lines.specs.Table.{names_of};
ghost use Rattle.lrc_races_witness.specs.Relations.{AreByLine};
ghost use Rattle.lrc_races_witness.specs.Answer.{IsAnswered, IsShown};

use crate::relating::relate;
use crate::relation::Relation;
use crate::reordering::reordering_of;
use crate::spelling::{push_refusal, push_shown};
use lrc_races_lines::table::Table;
use lrc_races_trace::event::Event;
use std::alloc::{AllocError, Global};

/// The exit status if the accesses are a sure race.
const SHOWN: u8 = 0;

/// The exit status if they are none.
const REFUSED: u8 = 4;

// Adds the lines of the reordering that shows a sure race.
fn push_reordering(
    alloc: Global,
    text: &mut Vec<u8>,
    events: &[Event],
    lines: &[Vec<u8>],
    earlier: usize,
    later: usize,
) -> Result<(), AllocError>
    requires order { earlier < later }
    requires within { later < length events.now }
    ensures { OnOk result (IsShown events.now lines.now earlier later text.old.items
        text.new.items) }
{
    let positions = reordering_of(alloc, events, earlier, later)?;
    push_shown(text, lines, positions.as_slice())?;
    Ok(())
}

/// Adds to `text` what is printed of the events on two lines of a trace, the lesser line first: if they are a sure race,
/// the lines of the reordering that shows it, and else one line that says why they are none. `lines` has for each event
/// the text of its line. Returns the exit status: 0 for a sure race, else 4. It fails if memory runs out.
pub fn push_answer(
    alloc: Global,
    text: &mut Vec<u8>,
    threads: &Table,
    events: &[Event],
    lines: &[Vec<u8>],
    first: u64,
    second: u64,
) -> Result<u8, AllocError>
    requires by_line { AreByLine events.now }
    requires ascending { first < second }
    ensures { IfOk result (IsAnswered (names_of threads.now) events.now lines.now first second
        text.old.items text.new.items) }
{
    let relation = relate(alloc, events, first, second)?;
    if let Relation::Sure { earlier, later } = relation {
        push_reordering(alloc, text, events, lines, earlier, later)?;
        return Ok(SHOWN);
    }
    push_refusal(text, threads, first, second, relation)?;
    Ok(REFUSED)
}
