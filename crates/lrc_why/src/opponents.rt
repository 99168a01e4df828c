// The acts that race with an act, by nodes.

ghost use Rattle.std.specs.Prelude.{◌≡◌, ◌<◌, IfOk, length, slice_get};
ghost use Rattle.lrc_judge.specs.Firsts.{AreIntervals};
ghost use Rattle.lrc_judge.specs.Order.{IsOrderOf};
ghost use Rattle.lrc_why.specs.Parting.{IsOpponentIfAny};
ghost use Rattle.lrc_why.specs.Spread.{OfEach};

use crate::parting::{parting, standing};
use crate::positions::{Which, positions};
use crate::reasons::Opponent;
use lrc_judge::order::Order;
use lrc_trace::act::Act;
use std::alloc::{AllocError, Global};

// The first of these positions.
fn first_of(positions: &[usize]) -> Option<usize>
    ensures { result ≡ slice_get positions.now 0 }
{
    positions.first().copied()
}

// The acts of the node that race with the act at the position, if there are some.
fn opponent(
    alloc: Global,
    acts: &[Act],
    order: &Order,
    intervals: &[u64],
    node: u8,
    position: usize,
) -> Result<Option<Opponent>, AllocError>
    requires order { IsOrderOf acts.now order.now }
    requires intervals { AreIntervals acts.now (length acts.now) intervals.now }
    requires within { position < length acts.now }
    ensures { IfOk result (IsOpponentIfAny acts.now node position) }
{
    let racing = positions(
        alloc,
        acts,
        order,
        intervals,
        Which::RacingOf(node, position),
    )?;
    let Some(least) = first_of(&racing) else {
        return Ok(None);
    };
    let earlier = position.min(least);
    let later = position.max(least);
    let parting = parting(acts, order, earlier, later);
    let first = standing(alloc, acts, earlier)?;
    let second = standing(alloc, acts, later)?;
    Ok(Some(Opponent {
        racing,
        parting,
        first,
        second,
    }))
}

/// Returns for each node its acts that race with the act at the position, or none if there are none. It fails if memory
/// runs out.
pub(crate) fn opponents(
    alloc: Global,
    acts: &[Act],
    order: &Order,
    intervals: &[u64],
    nodes: u8,
    position: usize,
) -> Result<Vec<Option<Opponent>>, AllocError>
    requires order { IsOrderOf acts.now order.now }
    requires intervals { AreIntervals acts.now (length acts.now) intervals.now }
    requires within { position < length acts.now }
    ensures { IfOk result (λ all. OfEach nodes
        (λ other found. IsOpponentIfAny acts.now other position found) all.items) }
{
    let mut all = Vec::new(alloc);
    for node in 0..nodes {
        let found = opponent(alloc, acts, order, intervals, node, position)?;
        all.push(found)?;
    }
    Ok(all)
}
