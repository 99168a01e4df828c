//! Reading intervals.

ghost use Rattle.std.specs.Prelude.{◌≡◌, ◌≤◌, ◌<◌, IfOk, IfSome, Option, Some, None, []};
ghost use Rattle.lrc_page.specs.declared.TheConstants.{MOST_PAGES};
ghost use Rattle.lrc_envelope.specs.Records.{GoWith};
ghost use Rattle.lrc_wire.specs.Reading.{Gives, PutsInterval, elements_at, known_by, next_page_at, pages_at, next_interval_at, intervals_at, news_at};

use super::fields::read_page;
use super::numbers::{read_u8, read_u16, read_u32};
use super::room;
use super::times::{read_stamp, read_time};
use crate::fault::WireFault;
use crate::version::Version;
use lrc_envelope::{MOST_NODES, News};
use lrc_page::Pages;
use lrc_store::{Interval, Intervals};
use lrc_time::Time;
use std::alloc::Global;

// A page after another.
#[tactic(auto, unfolding(crate::specs::Reading::next_page_at, crate::specs::Reading::tested, crate::specs::Reading::is_after))]
fn read_next_page(
    version: Version,
    before: Option<u16>,
    bytes: &mut &[u8],
) -> Result<u16, WireFault>
    ensures exact { Gives (λ n. (n, bytes.new.now)) result
        (next_page_at version before bytes.old.now) }
    ensures in_range { IfOk result (λ n. n < MOST_PAGES) }
    ensures above { IfOk result (λ n. IfSome before (λ b. b < n)) }
{
    let page = read_page(version, bytes)?;
    if before.is_some_and(|before| page <= before) {
        return Err(WireFault::NotAscending);
    }
    Ok(page)
}

// So many pages, into a list of none.
fn read_pages_of(
    pages: &mut Pages,
    version: Version,
    count: u16,
    bytes: &mut &[u8],
) -> Result<(), WireFault>
    requires { pages.old ≡ [] }
    ensures { Gives (λ _. (pages.new, bytes.new.now)) result
        (elements_at (next_page_at version) (λ _ page. Some page) count None bytes.old.now) }
{
    let mut before = None;
    for _ in 0..count {
        let page = read_next_page(version, before, bytes)?;
        pages.push(page)?;
        before = Some(page);
    }
    Ok(())
}

// The pages of an interval, into a list of none.
#[tactic(auto, unfolding(crate::specs::Reading::pages_at))]
fn read_pages(pages: &mut Pages, version: Version, bytes: &mut &[u8]) -> Result<(), WireFault>
    requires { pages.old ≡ [] }
    ensures { Gives (λ _. (pages.new, bytes.new.now)) result (pages_at version bytes.old.now) }
{
    let count = read_u16(bytes)?;
    read_pages_of(pages, version, count, bytes)
}

// An interval after another, behind those that were read: what it is known by, which is its node and index.
#[tactic(auto, unfolding(crate::specs::Reading::next_interval_at, crate::specs::Reading::tested, crate::specs::Reading::is_after))]
fn read_next_interval(
    intervals: &mut Vec<Interval>,
    version: Version,
    nodes: u8,
    before: Option<(u8, u32)>,
    bytes: &mut &[u8],
) -> Result<(u8, u32), WireFault>
    requires some { 1 ≤ nodes }
    requires few { nodes ≤ MOST_NODES }
    ensures { PutsInterval result (next_interval_at version nodes before bytes.old.now)
        intervals.old.items intervals.new.items bytes.new.now }
{
    let node = read_u8(bytes)?;
    if node >= nodes {
        return Err(WireFault::BadNode);
    }
    let mut stamp = Time::new(nodes);
    read_stamp(&mut stamp, node, bytes)?;
    let key = (node, stamp.at(node));
    if before.is_some_and(|before| key <= before) {
        return Err(WireFault::NotAscending);
    }
    let mut pages = Pages::empty(*intervals.allocator());
    read_pages(&mut pages, version, bytes)?;
    intervals.push(Interval::new(node, stamp, pages))?;
    Ok(key)
}

fn read_intervals_of(
    alloc: Global,
    version: Version,
    nodes: u8,
    count: u32,
    bytes: &mut &[u8],
) -> Result<Vec<Interval>, WireFault>
    requires some { 1 ≤ nodes }
    requires few { nodes ≤ MOST_NODES }
    ensures { Gives (λ v. (v.items, bytes.new.now)) result
        (elements_at (next_interval_at version nodes)
        (λ _ interval. Some (known_by interval)) count None bytes.old.now) }
{
    let mut rest = *bytes;
    let mut intervals = Vec::with_capacity(alloc, room(count, rest, 8))?;
    let mut before = None;
    for _ in 0..count {
        let key = read_next_interval(&mut intervals, version, nodes, before, &mut rest)?;
        before = Some(key);
    }
    *bytes = rest;
    Ok(intervals)
}

// Intervals beside a time of so many nodes.
#[tactic(auto, unfolding(crate::specs::Reading::intervals_at))]
fn read_intervals(
    alloc: Global,
    version: Version,
    nodes: u8,
    bytes: &mut &[u8],
) -> Result<Intervals, WireFault>
    requires some { 1 ≤ nodes }
    requires few { nodes ≤ MOST_NODES }
    ensures exact { Gives (λ v. (v, bytes.new.now)) result
        (intervals_at version nodes bytes.old.now) }
    ensures together { IfOk result (λ v. GoWith nodes v) }
{
    let count = read_u32(bytes)?;
    let list = read_intervals_of(alloc, version, nodes, count, bytes)?;
    Ok(Intervals::from_ascending(list))
}

/// Reads a time, and the intervals that go with it.
#[tactic(auto, unfolding(crate::specs::Reading::news_at))]
pub(super) fn read_news(
    alloc: Global,
    version: Version,
    bytes: &mut &[u8],
) -> Result<News, WireFault>
    ensures { Gives (λ news. (news, bytes.new.now)) result (news_at version bytes.old.now) }
{
    let time = read_time(bytes)?;
    let intervals = read_intervals(alloc, version, time.nodes(), bytes)?;
    Ok(News { time, intervals })
}
