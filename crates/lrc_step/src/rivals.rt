// The accesses that race with an act, by nodes.

ghost use Rattle.std.specs.Prelude.{◌≡◌, ◌<◌, ◌≤◌, ℕ, All, IfOk, List, Some, length, max, min, slice_get};
ghost use Rattle.lrc_judge.specs.Order.{IsOrderOf};
ghost use Rattle.lrc_explain.specs.Site.{site_of};
ghost use Rattle.lrc_why.specs.Lanes.{AreLanes};
ghost use Rattle.lrc_why.specs.Positions.{IsLeastRacing};
ghost use Rattle.lrc_why.specs.Spread.{OfEach};
ghost use Rattle.lrc_step.specs.Rivals.{AreRivals, IsRivalIfAny};

use lrc_explain::{Site, site_of};
use lrc_judge::order::Order;
use lrc_judge::pairs::Pair;
use lrc_trace::act::Act;
use lrc_why::lanes::{Lanes, lanes_of};
use lrc_why::least::least_racing;
use std::alloc::{AllocError, Global};

/// A node's least act that races with another act.
#[derive(Clone, Copy)]
pub struct Rival {
    /// Its position among the acts of the run.
    pub act: usize,
    /// The lines and kinds of the two accesses, the earlier first.
    pub site: Site,
}

/// Returns the pair of two acts.
pub(crate) fn pair_of(position: usize, other: usize) -> Pair
    ensures { result ≡ record { later = max position other; earlier = min position other } }
{
    Pair {
        later: position.max(other),
        earlier: position.min(other),
    }
}

// The node's rival of the act at the position, if it has one.
fn rival_of(
    acts: &[Act],
    lines: &[u32],
    order: &Order,
    lanes: &Lanes,
    node: u8,
    position: usize,
) -> Option<Rival>
    requires order { IsOrderOf acts.now order.now }
    requires lanes { AreLanes acts.now lanes.now }
    requires within { position < length acts.now }
    ensures { IsRivalIfAny acts.now lines.now position node result }
{
    let Some(act) = least_racing(acts, order, lanes, node, position) else {
        return None;
    };
    let site = site_of(acts, lines, pair_of(position, act));
    Some(Rival { act, site })
}

// The rivals of the act at the position, by nodes.
fn rivals(
    alloc: Global,
    acts: &[Act],
    lines: &[u32],
    order: &Order,
    lanes: &Lanes,
    nodes: u8,
    position: usize,
) -> Result<Vec<Option<Rival>>, AllocError>
    requires order { IsOrderOf acts.now order.now }
    requires lanes { AreLanes acts.now lanes.now }
    requires within { position < length acts.now }
    ensures { IfOk result (λ all. AreRivals acts.now lines.now nodes position all.items) }
{
    let mut all = Vec::new(alloc);
    for node in 0..nodes {
        all.push(rival_of(acts, lines, order, lanes, node, position))?;
    }
    Ok(all)
}

/// Returns the rivals of the act at each of these positions.
pub(crate) fn rivals_of_each(
    alloc: Global,
    acts: &[Act],
    lines: &[u32],
    order: &Order,
    nodes: u8,
    positions: &[usize],
) -> Result<Vec<Vec<Option<Rival>>>, AllocError>
    requires order { IsOrderOf acts.now order.now }
    requires within { All (λ position. position < length acts.now) positions.now }
    ensures { IfOk result (λ each. OfEach (length positions.now)
        (λ place all. (position : ℕ) → slice_get positions.now place ≡ Some position
        → AreRivals acts.now lines.now nodes position all.items) each.items) }
{
    let lanes = lanes_of(alloc, acts)?;
    let mut each = Vec::new(alloc);
    for position in positions {
        let all = rivals(alloc, acts, lines, order, &lanes, nodes, *position)?;
        each.push(all)?;
    }
    Ok(each)
}
