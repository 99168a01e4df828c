//! Reading changes, one by one and in runs.

ghost use Rattle.std.specs.Prelude.{◌≡◌, ◌+◌, ◌≤◌, ◌<◌, IfOk, OnOk, IfSome, IsSomeAnd, Option, Some, None};
ghost use Rattle.std.specs.Option.{ForSome};
ghost use Rattle.lrc_page.specs.Changes.{last_change};
ghost use Rattle.lrc_wire.specs.Reading.{Gives, PutsRun, PutsValues, is_after, is_apart, elements_at, next_offset_at, next_change_at};
ghost use Rattle.lrc_wire.specs.Reading.{singly_at, values_at, next_run_at, last_of, whole_runs, runs_at, changes_at};

use super::numbers::{read_u8, read_u16, read_u64};
use crate::fault::WireFault;
use crate::limits::MOST_RUNS;
use crate::version::Version;
use lrc_page::{Change, Changes};
use std::alloc::Global;

// An offset after another.
#[tactic(auto, unfolding(crate::specs::Reading::next_offset_at, crate::specs::Reading::tested, crate::specs::Reading::is_after))]
fn read_next_offset(before: Option<u8>, bytes: &mut &[u8]) -> Result<u8, WireFault>
    ensures exact { Gives (λ n. (n, bytes.new.now)) result (next_offset_at before bytes.old.now) }
    ensures above { IfOk result (λ n. IfSome before (λ b. b < n)) }
{
    let offset = read_u8(bytes)?;
    if offset >= 64 {
        return Err(WireFault::BadCount);
    }
    if before.is_some_and(|before| offset <= before) {
        return Err(WireFault::NotAscending);
    }
    Ok(offset)
}

// A change after another.
#[tactic(auto, unfolding(crate::specs::Reading::next_change_at))]
fn read_next_change(before: Option<u8>, bytes: &mut &[u8]) -> Result<Change, WireFault>
    ensures exact { Gives (λ change. (change, bytes.new.now)) result
        (next_change_at before bytes.old.now) }
    ensures above { IfOk result (λ change. IfSome before (λ b. b < change.offset)) }
{
    let offset = read_next_offset(before, bytes)?;
    let value = read_u64(bytes)?;
    Ok(Change { offset, value })
}

fn read_changes_of(alloc: Global, count: u8, bytes: &mut &[u8]) -> Result<Changes, WireFault>
    ensures { Gives (λ changes. (changes, bytes.new.now)) result
        (elements_at next_change_at (λ _ change. Some change.offset) count None bytes.old.now) }
{
    let mut changes = Changes::empty(alloc);
    let mut before = None;
    for _ in 0..count {
        let change = read_next_change(before, bytes)?;
        changes.push(change.offset, change.value)?;
        before = Some(change.offset);
    }
    Ok(changes)
}

// Changes one by one.
#[tactic(auto, unfolding(crate::specs::Reading::singly_at, crate::specs::Reading::tested))]
fn read_singly(alloc: Global, bytes: &mut &[u8]) -> Result<Changes, WireFault>
    ensures { Gives (λ changes. (changes, bytes.new.now)) result (singly_at bytes.old.now) }
{
    let count = read_u8(bytes)?;
    if count > 64 {
        return Err(WireFault::BadCount);
    }
    read_changes_of(alloc, count, bytes)
}

// The values of a run, as changes behind the others.
fn read_run_values(
    changes: &mut Changes,
    first: u8,
    more: u8,
    bytes: &mut &[u8],
) -> Result<(), WireFault>
    requires within { first + more < 256 }
    requires above { ForSome (last_change changes.old) (λ c. c.offset < first) }
    ensures put { PutsValues result (values_at (more + 1) bytes.old.now) first changes.old
        changes.new bytes.new.now }
    ensures last { OnOk result (ForSome (last_change changes.new) (λ c. c.offset ≤ first + more)) }
{
    let end = u16::from(first) + u16::from(more) + 1;
    for offset in u16::from(first)..end {
        let value = read_u64(bytes)?;
        changes.push(offset as u8, value)?;
    }
    Ok(())
}

// Whether a run may begin at an offset behind a run that ends at the offset `before`.
#[tactic(auto, unfolding(crate::specs::Reading::is_after))]
fn may_begin(before: Option<u8>, first: u8) -> bool
    ensures { result ≡ is_after is_apart before first }
{
    match before {
        None => true,
        Some(last) => u16::from(last) + 1 < u16::from(first),
    }
}

// A run after another, which ends at the offset `before`, as changes behind the others: its last offset.
#[tactic(auto, unfolding(crate::specs::Reading::next_run_at, crate::specs::Reading::tested, crate::specs::Reading::is_after))]
fn read_run(before: Option<u8>, changes: &mut Changes, bytes: &mut &[u8]) -> Result<u8, WireFault>
    requires { ForSome (last_change changes.old) (λ c. IsSomeAnd before (λ last. c.offset ≤ last)) }
    ensures put { PutsRun result (next_run_at before bytes.old.now) changes.old changes.new
        bytes.new.now }
    ensures last { IfOk result (λ last. ForSome (last_change changes.new) (λ c. c.offset ≤ last)) }
{
    let first = read_u8(bytes)?;
    if !may_begin(before, first) {
        return Err(WireFault::NotAscending);
    }
    let more = read_u8(bytes)?;
    let Some(last) = first.checked_add(more) else {
        return Err(WireFault::BadCount);
    };
    read_run_values(changes, first, more, bytes)?;
    Ok(last)
}

fn read_runs_of(alloc: Global, count: u16, bytes: &mut &[u8]) -> Result<Changes, WireFault>
    ensures { Gives (λ changes. (changes, bytes.new.now)) result
        (whole_runs (elements_at next_run_at
        (λ _ run. Some (last_of run)) count None bytes.old.now)) }
{
    let mut changes = Changes::empty(alloc);
    let mut before = None;
    for _ in 0..count {
        let last = read_run(before, &mut changes, bytes)?;
        before = Some(last);
    }
    Ok(changes)
}

// Changes in runs.
#[tactic(auto, unfolding(crate::specs::Reading::runs_at, crate::specs::Reading::tested))]
fn read_runs(alloc: Global, bytes: &mut &[u8]) -> Result<Changes, WireFault>
    ensures { Gives (λ changes. (changes, bytes.new.now)) result
        (whole_runs (runs_at bytes.old.now)) }
{
    let count = read_u16(bytes)?;
    if count > MOST_RUNS {
        return Err(WireFault::BadCount);
    }
    read_runs_of(alloc, count, bytes)
}

/// Reads the changes of one interval.
#[tactic(auto, unfolding(crate::specs::Reading::changes_at))]
pub(super) fn read_changes(
    alloc: Global,
    version: Version,
    bytes: &mut &[u8],
) -> Result<Changes, WireFault>
    ensures { Gives (λ changes. (changes, bytes.new.now)) result
        (changes_at version bytes.old.now) }
{
    match version {
        Version::One => read_singly(alloc, bytes),
        Version::Two => read_runs(alloc, bytes),
    }
}
