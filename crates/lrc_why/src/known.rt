// What an act knows of other nodes.

ghost use Rattle.std.specs.Prelude.{◌≡◌, ℕ, ◌<◌, ◌≤◌, ◌⊎◌, IfOk, MatchBool, MatchOption, length};
ghost use Rattle.lrc_trace.specs.Interval.{closes};
ghost use Rattle.lrc_judge.specs.Firsts.{AreIntervals};
ghost use Rattle.lrc_judge.specs.Order.{IsOrderOf};
ghost use Rattle.lrc_why_chains.specs.Known.{IsActOf};
ghost use Rattle.lrc_why_chains.specs.Writes.{AreExactly};
ghost use Rattle.lrc_why.specs.Known.{AreClosedWords, CountsClosed, IsActBefore, IsBrought, IsNewsIfKnown, IsUnknownNode};
ghost use Rattle.lrc_why.specs.Parting.{IsUnknown};
ghost use Rattle.lrc_why.specs.Spread.{OfEach};

use crate::positions::{Which, closes, is_act_of, positions, words_written};
use crate::reasons::{Brought, News};
use crate::since::since_of;
use lrc_judge::order::Order;
use lrc_trace::act::{Act, Deed};
use lrc_why_chains::known::last_known;
use std::alloc::{AllocError, Global};

// The last act of the node before the position.
fn act_before(acts: &[Act], node: u8, position: usize) -> Option<usize>
    requires { position ≤ length acts.now }
    ensures { MatchOption result ((k : ℕ) → k < position → ¬ IsActOf acts.now node k)
        (IsActBefore acts.now node position) }
{
    for k in (0..position).rev() {
        if is_act_of(acts, node, k) {
            return Some(k);
        }
    }
    None
}

// What is known of the node at the position, and was not known before to the node that acts there.
fn brought(
    alloc: Global,
    acts: &[Act],
    order: &Order,
    intervals: &[u64],
    node: u8,
    acting: u8,
    position: usize,
) -> Result<Brought, AllocError>
    requires order { IsOrderOf acts.now order.now }
    requires intervals { AreIntervals acts.now (length acts.now) intervals.now }
    requires within { position < length acts.now }
    requires acting { IsActOf acts.now acting position }
    ensures { IfOk result (IsBrought acts.now acting node position) }
{
    let before = act_before(acts, acting, position);
    let new = positions(
        alloc,
        acts,
        order,
        intervals,
        Which::NewOf(node, position, before),
    )?;
    let words = words_written(alloc, acts, &new)?;
    Ok(Brought { acts: new, words })
}

// What is known of the node at the position, where something is.
fn news(
    alloc: Global,
    acts: &[Act],
    order: &Order,
    intervals: &[u64],
    node: u8,
    acting: u8,
    position: usize,
) -> Result<Option<News>, AllocError>
    requires order { IsOrderOf acts.now order.now }
    requires intervals { AreIntervals acts.now (length acts.now) intervals.now }
    requires within { position < length acts.now }
    requires acting { IsActOf acts.now acting position }
    ensures { IfOk result (IsNewsIfKnown acts.now acting node position) }
{
    if acting == node {
        return Ok(None);
    }
    let Some(last) = last_known(acts, order, node, position) else {
        return Ok(None);
    };
    let Some(since) = since_of(alloc, acts, order, acting, last)? else {
        return Ok(None);
    };
    let brought = if since.first < position {
        None
    } else {
        Some(brought(alloc, acts, order, intervals, node, acting, position)?)
    };
    Ok(Some(News {
        last,
        since,
        brought,
    }))
}

/// Returns for each other node what is known of it at the position, or none if nothing is. It fails if memory runs out.
pub(crate) fn all_news(
    alloc: Global,
    acts: &[Act],
    order: &Order,
    intervals: &[u64],
    nodes: u8,
    acting: u8,
    position: usize,
) -> Result<Vec<Option<News>>, AllocError>
    requires order { IsOrderOf acts.now order.now }
    requires intervals { AreIntervals acts.now (length acts.now) intervals.now }
    requires within { position < length acts.now }
    requires acting { IsActOf acts.now acting position }
    ensures { IfOk result (λ all. OfEach nodes
        (λ other found. IsNewsIfKnown acts.now acting other position found) all.items) }
{
    let mut all = Vec::new(alloc);
    for node in 0..nodes {
        let found = news(alloc, acts, order, intervals, node, acting, position)?;
        all.push(found)?;
    }
    Ok(all)
}

// Whether the node is another one than that which acts at the position, and nothing of it is known there.
fn is_unknown(acts: &[Act], order: &Order, node: u8, position: usize) -> bool
    requires { IsOrderOf acts.now order.now }
    ensures { MatchBool result ((¬ IsActOf acts.now node position)
        × IsUnknown acts.now node position)
        (IsActOf acts.now node position ⊎ (¬ IsUnknown acts.now node position)) }
{
    !is_act_of(acts, node, position) && last_known(acts, order, node, position).is_none()
}

/// Returns the other nodes of which nothing is known at the position, ascending. It fails if memory runs out.
pub(crate) fn unknown_nodes(
    alloc: Global,
    acts: &[Act],
    order: &Order,
    nodes: u8,
    acting: u8,
    position: usize,
) -> Result<Vec<u8>, AllocError>
    requires order { IsOrderOf acts.now order.now }
    requires within { position < length acts.now }
    requires acting { IsActOf acts.now acting position }
    ensures { IfOk result (λ unknown. AreExactly
        (IsUnknownNode acts.now nodes acting position) unknown.items) }
{
    let mut unknown = Vec::new(alloc);
    for node in 0..nodes {
        if is_unknown(acts, order, node, position) {
            unknown.push(node)?;
        }
    }
    Ok(unknown)
}

// How many of the acts that close an interval of the node are known at the position, or stand there.
fn count_closed(
    alloc: Global,
    acts: &[Act],
    order: &Order,
    intervals: &[u64],
    node: u8,
    position: usize,
) -> Result<usize, AllocError>
    requires order { IsOrderOf acts.now order.now }
    requires intervals { AreIntervals acts.now (length acts.now) intervals.now }
    ensures { IfOk result (CountsClosed acts.now node position) }
{
    let closed = positions(
        alloc,
        acts,
        order,
        intervals,
        Which::ClosingOf(node, position),
    )?;
    Ok(closed.len())
}

/// Returns for each node how many of the acts that close its intervals are known at the position or are the act there.
/// It fails if memory runs out.
pub(crate) fn time_of(
    alloc: Global,
    acts: &[Act],
    order: &Order,
    intervals: &[u64],
    nodes: u8,
    position: usize,
) -> Result<Vec<usize>, AllocError>
    requires order { IsOrderOf acts.now order.now }
    requires intervals { AreIntervals acts.now (length acts.now) intervals.now }
    ensures { IfOk result (λ time. OfEach nodes
        (λ other count. CountsClosed acts.now other position count) time.items) }
{
    let mut time = Vec::new(alloc);
    for node in 0..nodes {
        let count = count_closed(alloc, acts, order, intervals, node, position)?;
        time.push(count)?;
    }
    Ok(time)
}

/// Returns the words written in the interval of the act at the position, ascending, if the act closes that interval,
/// and otherwise none. It fails if memory runs out.
pub(crate) fn words_closed(
    alloc: Global,
    acts: &[Act],
    order: &Order,
    intervals: &[u64],
    deed: Deed,
    position: usize,
) -> Result<Vec<u32>, AllocError>
    requires order { IsOrderOf acts.now order.now }
    requires intervals { AreIntervals acts.now (length acts.now) intervals.now }
    requires within { position < length acts.now }
    ensures { IfOk result (λ words. AreClosedWords (closes deed) acts.now position words.items) }
{
    if !closes(deed) {
        return Ok(Vec::new(alloc));
    }
    let beside = positions(alloc, acts, order, intervals, Which::BesideIn(position))?;
    let words = words_written(alloc, acts, &beside)?;
    Ok(words)
}
