//! Reading indices of intervals.

ghost use Rattle.std.specs.Prelude.{◌≡◌, ◌≤◌, ◌<◌, length, IfOk, IfSome, Option, Some, None};
ghost use Rattle.lrc_wire.specs.Reading.{Gives, elements_at, next_index_at, indices_at};

use super::fields::read_count;
use super::numbers::read_u32;
use super::room;
use crate::fault::WireFault;
use lrc_envelope::{FEW_INDICES, Indices};
use smallvec::SmallVec;
use std::alloc::Global;

/// Reads an index, which must be at least 1 and above the one before it, if there is one.
#[tactic(auto, unfolding(crate::specs::Reading::next_index_at, crate::specs::Reading::tested, crate::specs::Reading::is_after))]
pub(super) fn read_next_index(before: Option<u32>, bytes: &mut &[u8]) -> Result<u32, WireFault>
    ensures exact { Gives (λ n. (n, bytes.new.now)) result (next_index_at before bytes.old.now) }
    ensures begun { IfOk result (λ n. 1 ≤ n) }
{
    let index = read_u32(bytes)?;
    if index == 0 {
        return Err(WireFault::BadCount);
    }
    if before.is_some_and(|before| index <= before) {
        return Err(WireFault::NotAscending);
    }
    Ok(index)
}

fn read_indices_of(
    alloc: Global,
    count: u32,
    bytes: &mut &[u8],
) -> Result<SmallVec<u32, FEW_INDICES>, WireFault>
    ensures { Gives (λ v. (v.items, bytes.new.now)) result
        (elements_at next_index_at (λ _ index. Some index) count None bytes.old.now) }
{
    let mut indices = SmallVec::with_capacity(alloc, room(count, bytes, 4))?;
    let mut before = None;
    for _ in 0..count {
        let index = read_next_index(before, bytes)?;
        indices.push(index)?;
        before = Some(index);
    }
    Ok(indices)
}

/// Reads a list of at least one index.
#[tactic(auto, unfolding(crate::specs::Reading::indices_at))]
pub(super) fn read_indices(alloc: Global, bytes: &mut &[u8]) -> Result<Indices, WireFault>
    ensures exact { Gives (λ v. (v, bytes.new.now)) result (indices_at bytes.old.now) }
    ensures some { IfOk result (λ v. 1 ≤ length v) }
{
    let count = read_count(bytes)?;
    let list = read_indices_of(alloc, count, bytes)?;
    Ok(Indices::from_short(list))
}
