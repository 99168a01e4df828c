// The intervals of acts, and of the accesses of a lane the first of each interval.
ghost use Rattle.std.specs.Prelude.{◌≡◌, ℕ, ◌<◌, All, IfOk, MatchBool, Some, length, slice_get};
ghost use Rattle.std.specs.List.Sorted.{IsStrictlySortedBy};
ghost use Rattle.lrc_judge.specs.declared.TheConstants.{NODES};
ghost use Rattle.lrc_judge.specs.declared.lanes.Entry.{Entry};
ghost use Rattle.lrc_judge.specs.Firsts.{AreFirsts, AreIntervals, IsFirstAt};
ghost use Rattle.lrc_judge.specs.Lanes.{entry_cmp};

use crate::NODES;
use crate::lanes::Entry;
use lrc_trace::act::{Act, Deed};
use std::alloc::{AllocError, Global};

/// Returns for each act the interval of its node in which it is. It fails only if memory runs out.
pub fn intervals_of(alloc: Global, acts: &[Act]) -> Result<Vec<u64>, AllocError>
    requires { All (λ act. act.node < NODES) acts.now }
    ensures { IfOk result (λ intervals. AreIntervals acts.now (length acts.now) intervals.items) }
{
    let mut reached = [1u64; NODES];
    let mut intervals = Vec::new(alloc);
    for position in 0..acts.len() {
        let node = usize::from(acts[position].node);
        let interval = reached[node];
        intervals.push(interval)?;
        match acts[position].deed {
            Deed::Acquire(_) | Deed::Release(_) | Deed::Arrive => reached[node] = interval + 1,
            _ => {}
        }
    }
    Ok(intervals)
}

// Whether the entry at this index is of the same lane and interval as the one before.
fn is_alike(entries: &[Entry], intervals: &[u64], at: usize) -> bool
    requires at { at < length entries.now }
    requires within { All (λ e. e.position < length intervals.now) entries.now }
    ensures { MatchBool result ((e : Entry) → ¬ IsFirstAt entries.now intervals.now at e)
        ((e : Entry) → slice_get entries.now at ≡ Some e
        → IsFirstAt entries.now intervals.now at e) }
{
    if at == 0 {
        return false;
    }
    let before = entries[at - 1];
    let entry = entries[at];
    if before.lane != entry.lane {
        return false;
    }
    intervals[before.position] == intervals[entry.position]
}

/// Returns the first access in each interval of each lane. It fails only if memory runs out.
pub fn firsts_of(
    alloc: Global,
    entries: &[Entry],
    intervals: &[u64],
) -> Result<Vec<Entry>, AllocError>
    requires in_order { IsStrictlySortedBy entry_cmp entries.now }
    requires within { All (λ e. e.position < length intervals.now) entries.now }
    ensures { IfOk result (λ firsts. AreFirsts entries.now intervals.now firsts.items) }
{
    let mut firsts = Vec::new(alloc);
    for at in 0..entries.len() {
        if !is_alike(entries, intervals, at) {
            firsts.push(entries[at])?;
        }
    }
    Ok(firsts)
}
