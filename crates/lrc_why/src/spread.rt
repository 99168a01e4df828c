// Who learns of an act.

ghost use Rattle.std.specs.Prelude.{◌≡◌, ℕ, ◌<◌, ◌≤◌, ◌⊎◌, IfOk, MatchBool, MatchOption, length};
ghost use Rattle.lrc_trace.specs.Run.{Does};
ghost use Rattle.lrc_judge.specs.Order.{IsOrderOf};
ghost use Rattle.lrc_why_chains.specs.Known.{IsActOf};
ghost use Rattle.lrc_why_chains.specs.Writes.{AreExactly};
ghost use Rattle.lrc_why.specs.Since.{IsNeverKnown};
ghost use Rattle.lrc_why.specs.Spread.{IsFirstTelling, IsForward, IsLearner, IsNeverKnowing, IsTelling, OfEach, is_told_of, tells};

use crate::positions::is_act_of;
use crate::reasons::{Forward, Since, Spread};
use crate::since::since_of;
use lrc_judge::order::Order;
use lrc_trace::act::{Act, Deed};
use lrc_why_chains::known::first_knowing;
use std::alloc::{AllocError, Global};

fn tells(deed: Deed) -> bool
    ensures { result ≡ tells deed }
{
    matches!(deed, Deed::Release(_) | Deed::Arrive)
}

// Whether it is said who learns of a deed.
fn is_told_of(deed: Deed) -> bool
    ensures { result ≡ is_told_of deed }
{
    matches!(deed, Deed::Write(_, _) | Deed::Release(_) | Deed::Arrive)
}

// Whether the act is a release or an arrive of the node.
fn is_telling(acts: &[Act], node: u8, position: usize, k: usize) -> bool
    requires from { position ≤ k }
    requires within { k < length acts.now }
    ensures { MatchBool result (IsTelling acts.now node position k)
        (¬ IsTelling acts.now node position k) }
{
    if acts[k].node != node {
        return false;
    }
    tells(acts[k].deed)
}

// The first release or arrive of the node from the position on.
fn first_telling(acts: &[Act], node: u8, position: usize) -> Option<usize>
    ensures { MatchOption result ((k : ℕ) → ¬ IsTelling acts.now node position k)
        (IsFirstTelling acts.now node position) }
{
    for k in position..acts.len() {
        if is_telling(acts, node, position, k) {
            return Some(k);
        }
    }
    None
}

fn learner(
    alloc: Global,
    acts: &[Act],
    order: &Order,
    node: u8,
    acting: u8,
    position: usize,
) -> Result<Option<Since>, AllocError>
    requires order { IsOrderOf acts.now order.now }
    requires within { position < length acts.now }
    requires acting { IsActOf acts.now acting position }
    ensures { IfOk result (IsLearner acts.now acting position node) }
{
    if acting == node {
        return Ok(None);
    }
    since_of(alloc, acts, order, node, position)
}

fn learners(
    alloc: Global,
    acts: &[Act],
    order: &Order,
    nodes: u8,
    acting: u8,
    position: usize,
) -> Result<Vec<Option<Since>>, AllocError>
    requires order { IsOrderOf acts.now order.now }
    requires within { position < length acts.now }
    requires acting { IsActOf acts.now acting position }
    ensures { IfOk result (λ all. OfEach nodes (IsLearner acts.now acting position) all.items) }
{
    let mut all = Vec::new(alloc);
    for node in 0..nodes {
        let found = learner(alloc, acts, order, node, acting, position)?;
        all.push(found)?;
    }
    Ok(all)
}

// Whether the node is another one than that which acts at the position, and never knows of it.
fn is_never_knowing(acts: &[Act], order: &Order, node: u8, position: usize) -> bool
    requires { IsOrderOf acts.now order.now }
    ensures { MatchBool result ((¬ IsActOf acts.now node position)
        × IsNeverKnown acts.now node position)
        (IsActOf acts.now node position ⊎ (¬ IsNeverKnown acts.now node position)) }
{
    !is_act_of(acts, node, position) && first_knowing(acts, order, node, position).is_none()
}

// The other nodes that never know of the position, ascending.
fn never_knowing(
    alloc: Global,
    acts: &[Act],
    order: &Order,
    nodes: u8,
    acting: u8,
    position: usize,
) -> Result<Vec<u8>, AllocError>
    requires order { IsOrderOf acts.now order.now }
    requires within { position < length acts.now }
    requires acting { IsActOf acts.now acting position }
    ensures { IfOk result (λ never. AreExactly
        (IsNeverKnowing acts.now nodes acting position) never.items) }
{
    let mut never = Vec::new(alloc);
    for node in 0..nodes {
        if is_never_knowing(acts, order, node, position) {
            never.push(node)?;
        }
    }
    Ok(never)
}

/// Returns who learns of the act at the position, which is this deed of this node, and from which act on. It fails if
/// memory runs out.
pub(crate) fn forward(
    alloc: Global,
    acts: &[Act],
    order: &Order,
    nodes: u8,
    acting: u8,
    deed: Deed,
    position: usize,
) -> Result<Forward, AllocError>
    requires order { IsOrderOf acts.now order.now }
    requires within { position < length acts.now }
    requires does { Does acts.now position acting deed }
    ensures { IfOk result (IsForward acts.now nodes acting position deed) }
{
    if nodes < 2 {
        return Ok(Forward::Unsaid);
    }
    if !is_told_of(deed) {
        return Ok(Forward::Unsaid);
    }
    let Some(from) = first_telling(acts, acting, position) else {
        return Ok(Forward::Nobody);
    };
    let never = never_knowing(alloc, acts, order, nodes, acting, position)?;
    let learners = learners(alloc, acts, order, nodes, acting, position)?;
    Ok(Forward::Others(Spread {
        from,
        learners,
        never,
    }))
}
