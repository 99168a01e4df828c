// What is printed of two lines.
ghost use Rattle.std.specs.Prelude.{◌≡◌, ◌++◌, OnOk};
ghost use Rattle.lrc_races_lines.specs.Table.{names_of};
ghost use Rattle.lrc_races_witness.specs.Spelled.{text_at, shown_lines, name_at, reached_text, reason_text, refusal_line};

use crate::relation::Relation;
use lrc_races_lines::table::Table;
use lrc_text::push_number;
use std::alloc::AllocError;

// The text of the event at a position.
fn text_at(lines: &[Vec<u8>], position: u64) -> &[u8]
    ensures { result.now ≡ text_at lines.now position }
{
    match lines.get(position as usize) {
        Some(line) => line.as_slice(),
        None => &[],
    }
}

/// Adds the lines of the events at these positions.
pub fn push_shown(
    text: &mut Vec<u8>,
    lines: &[Vec<u8>],
    positions: &[u64],
) -> Result<(), AllocError>
    ensures { OnOk result (text.new.items ≡ text.old.items ++ shown_lines lines.now positions.now) }
{
    for position in positions {
        text.extend_from_slice(text_at(lines, *position))?;
        text.extend_from_slice(b"\n")?;
    }
    Ok(())
}

// The name of a thread.
fn name_of(threads: &Table, thread: u32) -> &[u8]
    ensures { result.now ≡ name_at (names_of threads.now) thread }
{
    match threads.name(thread as usize) {
        Some(name) => name,
        None => &[],
    }
}

// Adds that the later line was reached by way of the earlier one.
fn push_reached(text: &mut Vec<u8>, first: u64, second: u64) -> Result<(), AllocError>
    ensures { OnOk result (text.new.items ≡ text.old.items ++ reached_text first second) }
{
    push_number(text, b"line ", second)?;
    push_number(text, b" was reached by way of line ", first)?;
    Ok(())
}

// Adds why two lines are no sure race.
fn push_reason(
    text: &mut Vec<u8>,
    threads: &Table,
    first: u64,
    second: u64,
    relation: Relation,
) -> Result<(), AllocError>
    ensures { OnOk result (text.new.items
        ≡ text.old.items ++ reason_text (names_of threads.now) first second relation) }
{
    match relation {
        Relation::NoAccess { line } => {
            push_number(text, b"line ", line)?;
            text.extend_from_slice(b" is no access")?;
            Ok(())
        }
        Relation::OneThread { thread } => {
            text.extend_from_slice(b"both are of thread ")?;
            text.extend_from_slice(name_of(threads, thread))?;
            Ok(())
        }
        Relation::TwoVariables => {
            text.extend_from_slice(b"they are of different variables")?;
            Ok(())
        }
        Relation::BothRead => {
            text.extend_from_slice(b"both read")?;
            Ok(())
        }
        Relation::Ordered => {
            push_reached(text, first, second)?;
            Ok(())
        }
        Relation::Reached => {
            push_reached(text, first, second)?;
            text.extend_from_slice(b" (they race)")?;
            Ok(())
        }
        Relation::Sure { .. } => Ok(()),
    }
}

/// Adds the line that says why two lines are no sure race.
pub fn push_refusal(
    text: &mut Vec<u8>,
    threads: &Table,
    first: u64,
    second: u64,
    relation: Relation,
) -> Result<(), AllocError>
    ensures { OnOk result (text.new.items
        ≡ text.old.items ++ refusal_line (names_of threads.now) first second relation) }
{
    text.extend_from_slice(b"no sure race: ")?;
    push_reason(text, threads, first, second, relation)?;
    text.extend_from_slice(b"\n")?;
    Ok(())
}
