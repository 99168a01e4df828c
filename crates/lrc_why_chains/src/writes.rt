// The writes that are known where a word is read, and which of them race.
ghost use Rattle.std.specs.Prelude.{ℕ, ◌<◌, ◌≤◌, List, Contains, IfOk, IsTrue, MatchBool, MatchOption, length, slice_index};
ghost use Rattle.lrc_trace.specs.declared.act.Act.{Act};
ghost use Rattle.lrc_trace.specs.Order.{HappensBefore};
ghost use Rattle.lrc_judge.specs.Order.{is_before, IsOrderOf};
ghost use Rattle.lrc_why_chains.specs.Writes.{AreExactly, IsWrite, IsKnownWrite, IsLastKnownWrite, IsCrossing, IsFirstCrossing, IsUnfollowed, IsLastUnknownWrite};
ghost use Rattle.lrc_why_chains.specs.Crossing.{IsFirstBeside};

use lrc_judge::order::Order;
use lrc_trace::act::{Act, Deed};
use std::alloc::{AllocError, Global};

/// The positions of two writes that race.
#[derive(Clone, Copy)]
pub struct Crossing {
    pub earlier: usize,
    pub later: usize,
}

// Whether the word is written at this position.
fn is_write(acts: &[Act], position: usize, word: u32) -> bool
    requires { position < length acts.now }
    ensures { MatchBool result (IsWrite acts.now word position) (¬ IsWrite acts.now word position) }
{
    match acts[position].deed {
        Deed::Write(to, _) => to == word,
        _ => false,
    }
}

/// Returns the writes to the word that are known at the position, ascending: those that happen before it. It fails if
/// memory runs out.
pub fn known_writes(
    alloc: Global,
    acts: &[Act],
    order: &Order,
    position: usize,
    word: u32,
) -> Result<Vec<usize>, AllocError>
    requires { IsOrderOf acts.now order.now }
    ensures { IfOk result (λ writes. AreExactly
        (IsKnownWrite acts.now position word) writes.items) }
{
    let mut writes = Vec::new(alloc);
    for k in 0..acts.len() {
        if is_write(acts, k, word) && order.is_before(k, position) {
            writes.push(k)?;
        }
    }
    Ok(writes)
}

/// Returns the last of the known writes, or none if there are none.
pub fn last_write(writes: &[usize]) -> Option<usize>
    ensures { (run : List Act) (position word : ℕ)
        → AreExactly (IsKnownWrite run position word) writes.now
        → MatchOption result ((i : ℕ) → ¬ IsKnownWrite run position word i)
        (IsLastKnownWrite run position word) }
{
    writes.last().copied()
}

// The first of the writes before this place that does not happen before the write there.
fn first_beside(order: &Order, writes: &[usize], place: usize) -> Option<Crossing>
    requires { place < length writes.now }
    ensures { MatchOption result
        ((k : ℕ) → k < place → IsTrue
        (is_before order.now (slice_index writes.now k) (slice_index writes.now place)))
        (IsFirstBeside order.now writes.now place) }
{
    for k in 0..place {
        if !order.is_before(writes[k], writes[place]) {
            return Some(Crossing {
                earlier: writes[k],
                later: writes[place],
            });
        }
    }
    None
}

/// Returns the two known writes that race with the least later one, and among these the least earlier one. Returns none
/// exactly if no two of them race. It takes two passes over the writes, because up to the first write that does not
/// follow the one before it, all are in order.
pub fn first_crossing(order: &Order, writes: &[usize]) -> Option<Crossing>
    ensures { (run : List Act) (position word : ℕ) → IsOrderOf run order.now
        → AreExactly (IsKnownWrite run position word) writes.now
        → MatchOption result ((i j : ℕ) → ¬ IsCrossing run position word i j)
        (λ two. IsFirstCrossing run position word two.earlier two.later) }
{
    for place in 1..writes.len() {
        if !order.is_before(writes[place - 1], writes[place]) {
            return first_beside(order, writes, place);
        }
    }
    None
}

// Whether the write happens before one of these.
fn is_followed(order: &Order, write: usize, others: &[usize]) -> bool
    ensures { MatchBool result ((k : ℕ) × Contains others.now k
        × IsTrue (is_before order.now write k))
        ((k : ℕ) → Contains others.now k → ¬ IsTrue (is_before order.now write k)) }
{
    for k in 0..others.len() {
        if order.is_before(write, others[k]) {
            return true;
        }
    }
    false
}

/// Returns the known writes that happen before no other known write, ascending. There is at most one of each node. It
/// fails if memory runs out.
pub fn unfollowed(alloc: Global, order: &Order, writes: &[usize]) -> Result<Vec<usize>, AllocError>
    ensures { (run : List Act) (position word : ℕ) → IsOrderOf run order.now
        → AreExactly (IsKnownWrite run position word) writes.now
        → IfOk result (λ last. AreExactly (IsUnfollowed run position word) last.items) }
{
    let mut last = Vec::new(alloc);
    for place in (0..writes.len()).rev() {
        if !is_followed(order, writes[place], last.as_slice()) {
            last.insert(0, writes[place])?;
        }
    }
    Ok(last)
}

/// Returns the last write to the word before the position in the run, if it is not known there: if it does not happen
/// before the position. Returns none if it is known, or if there is no write before.
pub fn last_written(acts: &[Act], order: &Order, position: usize, word: u32) -> Option<usize>
    requires { IsOrderOf acts.now order.now }
    ensures { MatchOption result ((i : ℕ) → ¬ IsLastUnknownWrite acts.now position word i)
        (IsLastUnknownWrite acts.now position word) }
{
    for k in (0..position.min(acts.len())).rev() {
        if is_write(acts, k, word) {
            if order.is_before(k, position) {
                return None;
            }
            return Some(k);
        }
    }
    None
}
