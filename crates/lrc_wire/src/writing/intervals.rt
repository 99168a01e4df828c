//! Writing flags, times and intervals.

ghost use Rattle.std.specs.Prelude.{◌≡◌, ◌++◌, ◌+◌, ◌*◌, ◌<◌, ◌≤◌, ◌^◌, IsTrue, length, All, AllPairs, OnOk};
ghost use Rattle.std.specs.Int.{w16, w32};
ghost use Rattle.std.specs.List.{flat_map};
ghost use Rattle.lrc_store.specs.Interval.{IsInterval, by_node};
ghost use Rattle.lrc_wire.specs.declared.version.Version.TheVariants.{Two};
ghost use Rattle.lrc_wire.specs.Ranges.{HasBits, IsTime, FitNews};
ghost use Rattle.lrc_wire.specs.Spelling.{byte, number, numbers, flag, time, interval, intervals, news};

use arrayvec::ArrayVec;
use bytes::BufMut;
use lrc_envelope::News;
use lrc_store::{Interval, Intervals};
use lrc_time::Time;
use std::alloc::AllocError;

// What stands before the pages of an interval, at most: its node, a time of 16 entries, and how many pages there are.
type Block = ArrayVec<u8, 68>;

#[tactic(auto, unfolding(crate::specs::Spelling::flag, crate::specs::Spelling::byte))]
pub(super) fn put_flag(out: &mut Vec<u8>, on: bool) -> Result<(), AllocError>
    ensures { OnOk result (out.new.items ≡ out.old.items ++ flag on) }
{
    out.put_u8(u8::from(on))
}

// The entries of a time, behind what a block has.
#[tactic(auto, unfolding(crate::specs::Spelling::numbers, crate::specs::Spelling::number))]
fn add_entries(block: &mut Block, entries: &Time)
    requires { length block.old.items ≤ 2 }
    ensures written { block.new.items ≡ block.old.items ++ numbers w32 entries.now }
    ensures bits { All (HasBits 32) entries.now }
    ensures long { length block.new.items ≡ length block.old.items + 4 * length entries.now }
{
    for node in 0..entries.nodes() {
        let entry = entries.at(node).to_be_bytes();
        block.try_extend_from_slice(&entry).unwrap();
    }
}

// A time, behind what a block has.
#[tactic(auto, unfolding(crate::specs::Spelling::time, crate::specs::Spelling::byte))]
fn add_time(block: &mut Block, entries: &Time)
    requires { length block.old.items ≤ 1 }
    ensures written { block.new.items ≡ block.old.items ++ time entries.now }
    ensures fits { IsTime entries.now }
    ensures long { length block.new.items ≤ 66 }
{
    block.push(entries.nodes());
    add_entries(block, entries);
}

pub(super) fn put_time(out: &mut Vec<u8>, entries: &Time) -> Result<(), AllocError>
    ensures written { OnOk result (out.new.items ≡ out.old.items ++ time entries.now) }
    ensures fits { OnOk result (IsTime entries.now) }
{
    let mut block = Block::new();
    add_time(&mut block, entries);
    out.put_slice(block.as_slice())
}

#[tactic(auto, unfolding(crate::specs::Spelling::numbers, crate::specs::Spelling::number))]
fn put_numbers_16(out: &mut Vec<u8>, list: &[u16]) -> Result<(), AllocError>
    ensures { OnOk result (out.new.items ≡ out.old.items ++ numbers w16 list.now) }
{
    for number in list {
        out.put_u16(*number)?;
    }
    Ok(())
}

// An interval up to its pages, in one block.
#[tactic(auto, unfolding(crate::specs::Spelling::byte, crate::specs::Spelling::number))]
fn head_of(item: &Interval) -> Block
    ensures written { result.items ≡ byte item.now.node
        ++ (time item.now.stamp ++ number w16 (length item.now.pages)) }
    ensures fits { IsTime item.now.stamp }
{
    let mut block = Block::new();
    block.push(item.node);
    add_time(&mut block, &item.stamp);
    let count = item.pages.len() as u16;
    block.try_extend_from_slice(&count.to_be_bytes()).unwrap();
    block
}

#[tactic(auto, unfolding(crate::specs::Spelling::interval, crate::specs::Spelling::pages))]
fn put_interval(out: &mut Vec<u8>, item: &Interval) -> Result<(), AllocError>
    ensures written { OnOk result (out.new.items ≡ out.old.items ++ interval item.now) }
    ensures is_interval { OnOk result (IsInterval item.now) }
    ensures bits { OnOk result (All (HasBits 32) item.now.stamp) }
{
    let head = head_of(item);
    out.put_slice(head.as_slice())?;
    put_numbers_16(out, item.pages.as_slice())
}

fn put_each_interval(out: &mut Vec<u8>, list: &[Interval]) -> Result<(), AllocError>
    ensures written { OnOk result (out.new.items ≡ out.old.items ++ flat_map interval list.now) }
    ensures each { OnOk result (All IsInterval list.now) }
    ensures bits { OnOk result (All (λ i. All (HasBits 32) i.stamp) list.now) }
{
    for record in list {
        put_interval(out, record)?;
    }
    Ok(())
}

#[tactic(auto, unfolding(crate::specs::Spelling::intervals, crate::specs::Spelling::number))]
fn put_intervals(out: &mut Vec<u8>, list: &Intervals) -> Result<(), AllocError>
    requires { length list.now < 2 ^ 32 }
    ensures written { OnOk result (out.new.items ≡ out.old.items ++ intervals list.now) }
    ensures each { OnOk result (All IsInterval list.now) }
    ensures bits { OnOk result (All (λ i. All (HasBits 32) i.stamp) list.now) }
    ensures ascending { OnOk result (AllPairs (λ a b. IsTrue (by_node a b)) list.now) }
{
    out.put_u32(list.len() as u32)?;
    put_each_interval(out, list.as_slice())
}

/// Appends a time, and the intervals that go with it.
#[tactic(auto, unfolding(crate::specs::Spelling::news))]
pub(super) fn put_news(out: &mut Vec<u8>, told: &News) -> Result<(), AllocError>
    requires { length told.now.intervals < 2 ^ 32 }
    ensures written { OnOk result (out.new.items
        ≡ out.old.items ++ news told.now.time told.now.intervals) }
    ensures fits { OnOk result (FitNews Two told.now.time told.now.intervals) }
{
    put_time(out, &told.time)?;
    put_intervals(out, &told.intervals)
}
