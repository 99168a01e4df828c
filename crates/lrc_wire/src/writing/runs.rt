//! Writing changes in runs.

ghost use Rattle.std.specs.Prelude.{◌≡◌, ◌==◌, ◌++◌, ◌+◌, ◌-◌, ◌<◌, ◌≤◌, length, take, drop, map, All, OnOk};
ghost use Rattle.std.specs.Int.{w64};
ghost use Rattle.std.specs.List.{flat_map};
ghost use Rattle.lrc_wire.specs.Ranges.{HasBits};
ghost use Rattle.lrc_wire.specs.Runs.{runs_of, lead, first_run};
ghost use Rattle.lrc_wire.specs.Spelling.{numbers, run, in_runs};

use bytes::BufMut;
use lrc_page::{Change, Changes};
use std::alloc::AllocError;

// Whether the second offset is the one after the first.
fn is_next(first: Change, second: Change) -> bool
    ensures { result ≡ (second.offset == first.offset + 1) }
{
    u16::from(second.offset) == u16::from(first.offset) + 1
}

// The place behind the run that begins at `start`.
fn run_end(changes: &Changes, start: usize) -> usize
    requires { start < length changes.now }
    ensures exact { result ≡ start + lead (drop start changes.now) }
    ensures some { start < result }
    ensures within { result ≤ length changes.now }
    ensures few { length changes.now ≤ 256 }
{
    let all = changes.len();
    for end in start + 1..all {
        if !is_next(changes.at(end - 1), changes.at(end)) {
            return end;
        }
    }
    all
}

/// Returns the number of runs into which the changes are cut.
pub(super) fn count_runs(changes: &Changes) -> usize
    ensures exact { result ≡ length (runs_of changes.now) }
    ensures few { result ≤ length changes.now }
    ensures small { length changes.now ≤ 256 }
{
    let mut count = 0;
    let mut start = 0;
    while start < changes.len() {
        start = run_end(changes, start);
        count += 1;
    }
    count
}

// The values of the changes from `start` on, up to `end`.
#[tactic(auto, unfolding(crate::specs::Spelling::numbers, crate::specs::Spelling::number))]
fn put_run_values(
    out: &mut Vec<u8>,
    changes: &Changes,
    start: usize,
    end: usize,
) -> Result<(), AllocError>
    requires order { start ≤ end }
    requires within { end ≤ length changes.now }
    requires bits { All (λ c. HasBits 64 c.value) (take start changes.now) }
    ensures written { OnOk result (out.new.items
        ≡ out.old.items ++ numbers w64
        (map (λ c. c.value) (take (end - start) (drop start changes.now)))) }
    ensures bits { OnOk result (All (λ c. HasBits 64 c.value) (take end changes.now)) }
{
    for place in start..end {
        out.put_u64(changes.at(place).value)?;
    }
    Ok(())
}

// The run from `start` on, up to `end`.
#[tactic(auto, unfolding(crate::specs::Spelling::run, crate::specs::Spelling::byte))]
fn put_run(out: &mut Vec<u8>, changes: &Changes, start: usize, end: usize) -> Result<(), AllocError>
    requires exact { end ≡ start + lead (drop start changes.now) }
    requires some { start < end }
    requires within { end ≤ length changes.now }
    requires few { length changes.now ≤ 256 }
    requires bits { All (λ c. HasBits 64 c.value) (take start changes.now) }
    ensures written { OnOk result (out.new.items
        ≡ out.old.items ++ run (first_run (drop start changes.now))) }
    ensures bits { OnOk result (All (λ c. HasBits 64 c.value) (take end changes.now)) }
{
    out.put_u8(changes.at(start).offset)?;
    out.put_u8((end - start - 1) as u8)?;
    put_run_values(out, changes, start, end)
}

fn put_each_run(out: &mut Vec<u8>, changes: &Changes) -> Result<(), AllocError>
    ensures written { OnOk result (out.new.items
        ≡ out.old.items ++ flat_map run (runs_of changes.now)) }
    ensures bits { OnOk result (All (λ c. HasBits 64 c.value) changes.now) }
{
    let mut start = 0;
    while start < changes.len() {
        let end = run_end(changes, start);
        put_run(out, changes, start, end)?;
        start = end;
    }
    Ok(())
}

/// Appends changes in runs.
#[tactic(auto, unfolding(crate::specs::Spelling::in_runs, crate::specs::Spelling::number))]
pub(super) fn put_runs(out: &mut Vec<u8>, changes: &Changes) -> Result<(), AllocError>
    ensures written { OnOk result (out.new.items ≡ out.old.items ++ in_runs (runs_of changes.now)) }
    ensures bits { OnOk result (All (λ c. HasBits 64 c.value) changes.now) }
{
    out.put_u16(count_runs(changes) as u16)?;
    put_each_run(out, changes)
}
