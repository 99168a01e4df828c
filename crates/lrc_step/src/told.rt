// Of which acts of a part of a run it is told why they are as they are.

ghost use Rattle.std.specs.Prelude.{◌<◌, All, IfOk, MatchBool, length};
ghost use Rattle.lrc_judge.specs.Order.{IsOrderOf};
ghost use Rattle.lrc_why.specs.Lanes.{AreLanes};
ghost use Rattle.lrc_why_chains.specs.Writes.{AreExactly};
ghost use Rattle.lrc_step.specs.Told.{IsRacer, IsReadAt, IsTold, IsWriteAt};

use crate::{Part, is_shown};
use lrc_judge::order::Order;
use lrc_trace::act::{Act, Deed};
use lrc_why::lanes::{Lanes, lanes_of};
use lrc_why::least::least_racing;
use std::alloc::{AllocError, Global};

fn is_read(acts: &[Act], position: usize) -> bool
    requires { position < length acts.now }
    ensures { MatchBool result (IsReadAt acts.now position) (¬ IsReadAt acts.now position) }
{
    matches!(acts[position].deed, Deed::Read(_, _))
}

fn is_write(acts: &[Act], position: usize) -> bool
    requires { position < length acts.now }
    ensures { MatchBool result (IsWriteAt acts.now position) (¬ IsWriteAt acts.now position) }
{
    matches!(acts[position].deed, Deed::Write(_, _))
}

// Whether the act at the position races with another.
fn is_racer(acts: &[Act], order: &Order, lanes: &Lanes, nodes: u8, position: usize) -> bool
    requires order { IsOrderOf acts.now order.now }
    requires lanes { AreLanes acts.now lanes.now }
    requires nodes { All (λ act. act.node < nodes) acts.now }
    requires within { position < length acts.now }
    ensures { MatchBool result (IsRacer acts.now position) (¬ IsRacer acts.now position) }
{
    for node in 0..nodes {
        if let Some(_) = least_racing(acts, order, lanes, node, position) {
            return true;
        }
    }
    false
}

// Whether it is told why the act at the position is as it is.
fn is_told(
    acts: &[Act],
    order: &Order,
    lanes: &Lanes,
    nodes: u8,
    part: Part,
    position: usize,
) -> bool
    requires order { IsOrderOf acts.now order.now }
    requires lanes { AreLanes acts.now lanes.now }
    requires nodes { All (λ act. act.node < nodes) acts.now }
    requires within { position < length acts.now }
    ensures { MatchBool result (IsTold acts.now part position) (¬ IsTold acts.now part position) }
{
    if !is_shown(part, position) {
        return false;
    }
    if is_read(acts, position) {
        return true;
    }
    is_write(acts, position) && is_racer(acts, order, lanes, nodes, position)
}

/// Returns the positions of the acts that get reasons, in ascending order: each shown read, and each shown write that
/// races.
pub(crate) fn positions_told(
    alloc: Global,
    acts: &[Act],
    order: &Order,
    nodes: u8,
    part: Part,
) -> Result<Vec<usize>, AllocError>
    requires order { IsOrderOf acts.now order.now }
    requires nodes { All (λ act. act.node < nodes) acts.now }
    ensures { IfOk result (λ found. AreExactly (IsTold acts.now part) found.items) }
{
    let lanes = lanes_of(alloc, acts)?;
    let mut found = Vec::new(alloc);
    for position in 0..acts.len() {
        if is_told(acts, order, &lanes, nodes, part, position) {
            found.push(position)?;
        }
    }
    Ok(found)
}
