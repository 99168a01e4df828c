// The lines of the reads that give what they may not give.

ghost use Rattle.std.specs.Prelude.{◌≡◌, ◌+◌, ◌<◌, ◌↔◌, ◌∷◌, [], ℕ, List, All, IfOk, IsTrue, OnOk, false, length, vec_len};
ghost use Rattle.std.specs.Option.{option_copied};
ghost use Rattle.std.specs.Ordering.{nat_cmp};
ghost use Rattle.std.specs.BTreeSet.{IsOrdered};
ghost use Rattle.lrc_trace.specs.declared.act.Act.{Act};
ghost use Rattle.lrc_trace.specs.Reading.{MayRead};
ghost use Rattle.lrc_judge.specs.declared.TheConstants.{NODES};
ghost use Rattle.lrc_judge.specs.Allowed.{AreAllowed};
ghost use Rattle.lrc_judge.specs.Order.{IsOrderOf};
ghost use Rattle.lrc_judge.specs.Reading.{IsFirstMisread, Misreads};
ghost use Rattle.lrc_judge_text.specs.Judgement.{AddsText};
ghost use Rattle.lrc_judge_all.specs.JudgesAll.{TellsMisread, TellsMisreads};
ghost use Rattle.lrc_judge_all.specs.Known.{AreReaders, IsKeptAt};
ghost use Rattle.lrc_judge_all.specs.Steps.{TellsAt};

use crate::kept::Kept;
use crate::learning::{learn, nothing_known};
use crate::place::place_at;
use crate::reader::Reader;
use lrc_acts::judge_lines::push_unlazy;
use lrc_judge::NODES;
use lrc_judge::order::{Order, happens_before};
use lrc_judge::reading::first_fault_of_reading;
use lrc_trace::act::{Act, Deed};
use std::alloc::{AllocError, Global};
use std::collections::BTreeSet;

/// Adds the line that the acts read lazily, or a line for each read that breaks lazy reading. Returns whether they read
/// lazily. The cost is nearly linear in the acts times the square of the number of nodes, and in the text.
pub(crate) fn tell_misreads(
    alloc: Global,
    text: &mut Vec<u8>,
    acts: &[Act],
    lines: &[u32],
) -> Result<bool, AllocError>
    requires acts { All (λ act. act.node < NODES) acts.now }
    requires lines { length acts.now ≡ length lines.now }
    ensures { IfOk result (λ holds. AddsText text.old.items text.new.items
        (TellsMisreads acts.now lines.now holds)) }
{
    let fault = first_fault_of_reading(alloc, acts)?;
    match fault {
        Some(first) => {
            tell_from(alloc, text, acts, lines, first)?;
            Ok(false)
        }
        None => {
            text.extend_from_slice(b"reads lazily\n")?;
            Ok(true)
        }
    }
}

// Adds a line for each read that breaks lazy reading, of which this is the first.
fn tell_from(
    alloc: Global,
    text: &mut Vec<u8>,
    acts: &[Act],
    lines: &[u32],
    first: usize,
) -> Result<(), AllocError>
    requires acts { All (λ act. act.node < NODES) acts.now }
    requires lines { length acts.now ≡ length lines.now }
    requires first { IsFirstMisread acts.now first }
    ensures { OnOk result (AddsText text.old.items text.new.items
        (TellsMisreads acts.now lines.now false)) }
{
    let order = happens_before(alloc, acts)?;
    let mut readers = readers_of(alloc)?;
    for position in first..acts.len() {
        tell_at(
            alloc,
            text,
            acts,
            lines,
            &order,
            readers.as_mut_slice(),
            position,
        )?;
    }
    Ok(())
}

// What each node knows at the start.
fn readers_of(alloc: Global) -> Result<Vec<Reader>, AllocError>
    ensures many { IfOk result (λ readers. vec_len readers ≡ NODES) }
    ensures readers { IfOk result (λ readers. (run : List Act) (n : ℕ)
        → AreReaders run n readers.items) }
{
    let mut readers = Vec::new(alloc);
    for _node in 0..NODES {
        readers.push(nothing_known(alloc))?;
    }
    Ok(readers)
}

// Adds a line for the act at this position, if it is a read that breaks lazy reading.
fn tell_at(
    alloc: Global,
    text: &mut Vec<u8>,
    acts: &[Act],
    lines: &[u32],
    order: &Order,
    readers: &mut [Reader],
    position: usize,
) -> Result<(), AllocError>
    requires acts { All (λ act. act.node < NODES) acts.now }
    requires lines { length acts.now ≡ length lines.now }
    requires order { IsOrderOf acts.now order.now }
    requires within { position < length acts.now }
    requires many { length readers.old ≡ NODES }
    requires readers { AreReaders acts.now position readers.old }
    ensures text { OnOk result (TellsAt (Misreads acts.now) (TellsMisread acts.now lines.now)
        position text.old.items text.new.items) }
    ensures readers { OnOk result (AreReaders acts.now (position + 1) readers.new) }
{
    let act = acts[position];
    let Deed::Read(word, value) = act.deed else {
        return Ok(());
    };
    let node = usize::from(act.node);
    learn(alloc, &mut readers[node], order, acts, position)?;
    let reader = &readers[node];
    let kept = reader.words.get(&word);
    if may_give(kept, value) {
        return Ok(());
    }
    let allowed = allowed_of(alloc, kept)?;
    push_unlazy(text, place_at(lines, position), value, &allowed)?;
    Ok(())
}

// Whether a read may give the value, where this is kept of its word.
fn may_give(kept: Option<&Kept>, value: u64) -> bool
    ensures { (run : List Act) (position word : ℕ) → IsKeptAt run position word (option_copied kept.entry)
        → IsTrue result ↔ MayRead run position word value }
{
    match kept {
        None => value == 0,
        Some(kept) => {
            if kept.are_ordered {
                value == kept.latest
            } else {
                kept.values.contains(&value)
            }
        }
    }
}

// The values that a read may give, where this is kept of its word.
fn allowed_of(alloc: Global, kept: Option<&Kept>) -> Result<Vec<u64>, AllocError>
    ensures { IfOk result (λ allowed. (run : List Act) (position word : ℕ)
        → IsKeptAt run position word (option_copied kept.entry)
        → AreAllowed run position word allowed.items) }
{
    match kept {
        None => one_value(alloc, 0),
        Some(kept) => {
            if kept.are_ordered {
                one_value(alloc, kept.latest)
            } else {
                listed(alloc, &kept.values)
            }
        }
    }
}

// The numbers of a set, ascending.
fn listed(alloc: Global, values: &BTreeSet<u64>) -> Result<Vec<u64>, AllocError>
    ensures items { IfOk result (λ list. list.items ≡ values.now.keys) }
    ensures ordered { IsOrdered nat_cmp values.now }
{
    values.iter().copied().collect(alloc)
}

fn one_value(alloc: Global, value: u64) -> Result<Vec<u64>, AllocError>
    ensures { IfOk result (λ values. values.items ≡ value ∷ []) }
{
    let mut values = Vec::new(alloc);
    values.push(value)?;
    Ok(values)
}
