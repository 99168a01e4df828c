//! Reading the changes of several intervals.

ghost use Rattle.std.specs.Prelude.{◌≡◌, ◌≤◌, length, IfOk, Option, Some, None};
ghost use Rattle.lrc_wire.specs.Reading.{Gives, elements_at, next_part_at, parts_at};

use super::changes::read_changes;
use super::fields::read_count;
use super::indices::read_next_index;
use super::room;
use crate::fault::WireFault;
use crate::version::Version;
use lrc_envelope::{FEW_PARTS, IndexedChanges, Parts};
use smallvec::SmallVec;
use std::alloc::Global;

// What an interval changed, after another of a lower index.
#[tactic(auto, unfolding(crate::specs::Reading::next_part_at))]
fn read_next_part(
    alloc: Global,
    version: Version,
    before: Option<u32>,
    bytes: &mut &[u8],
) -> Result<IndexedChanges, WireFault>
    ensures { Gives (λ part. (part, bytes.new.now)) result
        (next_part_at version before bytes.old.now) }
{
    let index = read_next_index(before, bytes)?;
    let changes = read_changes(alloc, version, bytes)?;
    Ok(IndexedChanges { index, changes })
}

fn index_of(part: &IndexedChanges) -> u32
    ensures { result ≡ part.now.index }
{
    part.index
}

fn read_parts_of(
    alloc: Global,
    version: Version,
    count: u32,
    bytes: &mut &[u8],
) -> Result<SmallVec<IndexedChanges, FEW_PARTS>, WireFault>
    ensures { Gives (λ v. (v.items, bytes.new.now)) result
        (elements_at (next_part_at version) (λ _ part. Some part.index) count None bytes.old.now) }
{
    let mut parts = SmallVec::with_capacity(alloc, room(count, bytes, 5))?;
    let mut before = None;
    for _ in 0..count {
        let part = read_next_part(alloc, version, before, bytes)?;
        before = Some(index_of(&part));
        parts.push(part)?;
    }
    Ok(parts)
}

/// Reads the changes of at least one interval.
#[tactic(auto, unfolding(crate::specs::Reading::parts_at))]
pub(super) fn read_parts(
    alloc: Global,
    version: Version,
    bytes: &mut &[u8],
) -> Result<Parts, WireFault>
    ensures exact { Gives (λ v. (v, bytes.new.now)) result (parts_at version bytes.old.now) }
    ensures some { IfOk result (λ v. 1 ≤ length v) }
{
    let count = read_count(bytes)?;
    let list = read_parts_of(alloc, version, count, bytes)?;
    Ok(Parts::from_short(list))
}
