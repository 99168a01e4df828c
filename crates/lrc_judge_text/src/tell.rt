// The lines of a judgement, one for each question.

ghost use Rattle.std.specs.Prelude.{◌≡◌, ◌<◌, ◌≤◌, ℕ, All, IfOk, MatchOption, OnOk, length, true, false};
ghost use Rattle.lrc_trace.specs.declared.act.Deed.TheVariants.{Read};
ghost use Rattle.lrc_trace.specs.Run.{IsDone};
ghost use Rattle.lrc_judge.specs.declared.TheConstants.{NODES};
ghost use Rattle.lrc_judge.specs.InOrder.{IsFirstOutOfOrder};
ghost use Rattle.lrc_judge.specs.Reading.{IsFirstMisread};
ghost use Rattle.lrc_judge_text.specs.Judgement.{AddsText, TellsLazyReading, TellsOrder, TellsRaces, TellsSynchronization, place_at};

use lrc_acts::judge_lines::{Place, push_unlazy, push_unordered, push_unsynchronized};
use lrc_judge::NODES;
use lrc_judge::in_order::{OutOfOrder, first_out_of_order};
use lrc_judge::order::happens_before;
use lrc_judge::races::named_races;
use lrc_judge::reading::{first_fault_of_reading, values_allowed};
use lrc_judge::synchronization::first_fault_of_synchronization;
use lrc_text::races_part;
use lrc_trace::act::{Act, Deed};
use std::alloc::{AllocError, Global};

/// Returns the place of the act at this position.
pub(crate) fn place_at(lines: &[u32], position: usize) -> Place
    requires { position < length lines.now }
    ensures { result ≡ place_at lines.now position }
{
    Place {
        position,
        line: lines[position],
    }
}

/// Adds the line on well-synchronization, and returns whether the acts are well synchronized.
pub(crate) fn tell_synchronization(
    text: &mut Vec<u8>,
    acts: &[Act],
    lines: &[u32],
    nodes: u8,
) -> Result<bool, AllocError>
    requires nodes { nodes ≤ NODES }
    requires acts { All (λ act. act.node < NODES) acts.now }
    requires lines { length acts.now ≡ length lines.now }
    ensures { IfOk result (λ holds. AddsText text.old.items text.new.items
        (TellsSynchronization nodes acts.now lines.now holds)) }
{
    match first_fault_of_synchronization(acts, nodes) {
        Some(position) => {
            push_unsynchronized(text, place_at(lines, position))?;
            Ok(false)
        }
        None => {
            text.extend_from_slice(b"well synchronized\n")?;
            Ok(true)
        }
    }
}

/// One read: its word, and its value.
#[derive(Clone, Copy)]
struct ReadValue {
    word: u32,
    value: u64,
}

// The read at this position, if there is one.
fn read_at(acts: &[Act], position: usize) -> Option<ReadValue>
    ensures { MatchOption result ((word value : ℕ) → ¬ IsDone acts.now position (Read word value))
        (λ read. IsDone acts.now position (Read read.word read.value)) }
{
    match acts.get(position)?.deed {
        Deed::Read(word, value) => Some(ReadValue { word, value }),
        _ => None,
    }
}

/// Adds the line on lazy reading, and returns whether the acts read lazily.
pub(crate) fn tell_lazy_reading(
    alloc: Global,
    text: &mut Vec<u8>,
    acts: &[Act],
    lines: &[u32],
) -> Result<bool, AllocError>
    requires acts { All (λ act. act.node < NODES) acts.now }
    requires lines { length acts.now ≡ length lines.now }
    ensures { IfOk result (λ holds. AddsText text.old.items text.new.items
        (TellsLazyReading acts.now lines.now holds)) }
{
    let first = first_fault_of_reading(alloc, acts)?;
    match first {
        Some(position) => {
            tell_unlazy(alloc, text, acts, lines, position)?;
            Ok(false)
        }
        None => {
            text.extend_from_slice(b"reads lazily\n")?;
            Ok(true)
        }
    }
}

fn tell_unlazy(
    alloc: Global,
    text: &mut Vec<u8>,
    acts: &[Act],
    lines: &[u32],
    position: usize,
) -> Result<(), AllocError>
    requires acts { All (λ act. act.node < NODES) acts.now }
    requires lines { length acts.now ≡ length lines.now }
    requires first { IsFirstMisread acts.now position }
    ensures { OnOk result (AddsText text.old.items text.new.items
        (TellsLazyReading acts.now lines.now false)) }
{
    let Some(read) = read_at(acts, position) else {
        unreachable!()
    };
    let order = happens_before(alloc, acts)?;
    let allowed = values_allowed(alloc, &order, acts, position, read.word)?;
    push_unlazy(text, place_at(lines, position), read.value, &allowed)?;
    Ok(())
}

/// Adds the line on reading in order.
pub(crate) fn tell_order(
    alloc: Global,
    text: &mut Vec<u8>,
    acts: &[Act],
    lines: &[u32],
) -> Result<(), AllocError>
    requires lines { length acts.now ≡ length lines.now }
    ensures { OnOk result (AddsText text.old.items text.new.items (TellsOrder acts.now lines.now)) }
{
    let first = first_out_of_order(alloc, acts)?;
    match first {
        Some(first) => tell_disorder(text, acts, lines, first)?,
        None => text.extend_from_slice(b"reads in order\n")?,
    }
    Ok(())
}

fn tell_disorder(
    text: &mut Vec<u8>,
    acts: &[Act],
    lines: &[u32],
    first: OutOfOrder,
) -> Result<(), AllocError>
    requires lines { length acts.now ≡ length lines.now }
    requires first { IsFirstOutOfOrder acts.now first }
    ensures { OnOk result (AddsText text.old.items text.new.items (TellsOrder acts.now lines.now)) }
{
    let Some(read) = read_at(acts, first.position) else {
        unreachable!()
    };
    push_unordered(
        text,
        place_at(lines, first.position),
        read.value,
        first.last_written,
    )?;
    Ok(())
}

/// Returns the lines of the races.
pub(crate) fn races_told(alloc: Global, acts: &[Act]) -> Result<Vec<u8>, AllocError>
    requires { All (λ act. act.node < NODES) acts.now }
    ensures { IfOk result (λ part. TellsRaces acts.now false part.items) }
{
    let races = named_races(alloc, acts)?;
    let part = races_part(alloc, &races)?;
    Ok(part)
}
