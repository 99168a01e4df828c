// The pairs of accesses that race, of a part of a run.

ghost use Rattle.std.specs.Prelude.{◌<◌, ◌≤◌, ℕ, All, IfOk, MatchBool, MatchOption, OnOk, length};
ghost use Rattle.lrc_judge.specs.Adding.{Adds};
ghost use Rattle.lrc_judge.specs.Order.{IsOrderOf};
ghost use Rattle.lrc_why.specs.Lanes.{AreLanes};
ghost use Rattle.lrc_why.specs.Positions.{IsLeastRacing};
ghost use Rattle.lrc_step.specs.Shown.{AreShownPairs, IsShown, StandsForNode};

use crate::rivals::pair_of;
use lrc_judge::order::Order;
use lrc_judge::pairs::Pair;
use lrc_trace::act::Act;
use lrc_why::lanes::{Lanes, lanes_of};
use lrc_why::least::least_racing;
use std::alloc::{AllocError, Global};

/// The acts of a run that are shown: from one position up to, but not including, another.
#[derive(Clone, Copy)]
pub struct Part {
    pub from: usize,
    pub until: usize,
}

/// Returns whether the act at the position is shown.
pub fn is_shown(part: Part, position: usize) -> bool
    ensures { MatchBool result (IsShown part position) (¬ IsShown part position) }
{
    part.from <= position && position < part.until
}

// Adds the pair of the act at the position with the least act of the node that races with it, if that is shown.
fn add_pair_of_node(
    pairs: &mut Vec<Pair>,
    acts: &[Act],
    order: &Order,
    lanes: &Lanes,
    part: Part,
    node: u8,
    position: usize,
) -> Result<(), AllocError>
    requires order { IsOrderOf acts.now order.now }
    requires lanes { AreLanes acts.now lanes.now }
    requires within { position < length acts.now }
    ensures { OnOk result (Adds pairs.old.items pairs.new.items
        (StandsForNode acts.now part position node)) }
{
    let Some(least) = least_racing(acts, order, lanes, node, position) else {
        return Ok(());
    };
    if !is_shown(part, least) {
        return Ok(());
    }
    pairs.push(pair_of(position, least))?;
    Ok(())
}

// Adds the pairs of the act at the position.
fn add_pairs_of(
    pairs: &mut Vec<Pair>,
    acts: &[Act],
    order: &Order,
    lanes: &Lanes,
    nodes: u8,
    part: Part,
    position: usize,
) -> Result<(), AllocError>
    requires order { IsOrderOf acts.now order.now }
    requires lanes { AreLanes acts.now lanes.now }
    requires nodes { All (λ act. act.node < nodes) acts.now }
    requires within { position < length acts.now }
    ensures { OnOk result (Adds pairs.old.items pairs.new.items
        (λ pair. (node : ℕ) × StandsForNode acts.now part position node pair)) }
{
    for node in 0..nodes {
        add_pair_of_node(pairs, acts, order, lanes, part, node, position)?;
    }
    Ok(())
}

/// Returns the pairs of shown accesses that race.
///
/// For each shown access and each other node, a pair joins the access with that node's least access that races with it,
/// if this is shown too. The pairs are ordered by the later access, then by the earlier, without repeats.
pub fn shown_pairs(
    alloc: Global,
    acts: &[Act],
    order: &Order,
    nodes: u8,
    part: Part,
) -> Result<Vec<Pair>, AllocError>
    requires order { IsOrderOf acts.now order.now }
    requires nodes { All (λ act. act.node < nodes) acts.now }
    requires within { part.until ≤ length acts.now }
    ensures { IfOk result (λ pairs. AreShownPairs acts.now part pairs.items) }
{
    let lanes = lanes_of(alloc, acts)?;
    let mut pairs = Vec::new(alloc);
    for position in part.from..part.until {
        add_pairs_of(&mut pairs, acts, order, &lanes, nodes, part, position)?;
    }
    pairs.sort_unstable();
    pairs.dedup();
    Ok(pairs)
}
