// Acts of a state that no order of the other nodes comes to dispute.

ghost use Rattle.std.specs.Prelude.{◌≡◌, ◌<◌, IfOk, length, true};
ghost use Rattle.lrc_exec.specs.Spots.{IsFlat};
ghost use Rattle.lrc_orders_away.specs.Undisputed.{IsUndisputedAt, KeepsAway, StaysAway};

use crate::conflict::may_conflict;
use lrc_exec::spot::{Flat, Spot};
use lrc_exec::state::State;
use lrc_orders_reach::ahead::Follower;
use lrc_orders_reach::follow::follow;
use lrc_trace::act::Deed;
use std::alloc::{AllocError, Global};

/// Returns whether it is known that a node's read, write or acquire is undisputed: the text of each other node, followed
/// up to its next barriers, comes to no act that conflicts. It fails if memory runs out.
pub fn is_undisputed(
    alloc: Global,
    flat: &Flat,
    state: &State,
    node: usize,
    deed: Deed,
) -> Result<bool, AllocError>
    requires flat { IsFlat flat.now }
    requires node { node < length state.now.spots.items }
    ensures { IfOk result (λ known. known ≡ true → IsUndisputedAt flat.now state.now node deed) }
{
    for other in 0..state.spots.len() {
        let away = stays_away(alloc, flat, state, node, other, deed)?;
        if !away {
            return Ok(false);
        }
    }
    Ok(true)
}

// Whether it is known that another node comes to no act that conflicts.
fn stays_away(
    alloc: Global,
    flat: &Flat,
    state: &State,
    node: usize,
    other: usize,
    deed: Deed,
) -> Result<bool, AllocError>
    requires flat { IsFlat flat.now }
    requires node { node < length state.now.spots.items }
    requires other { other < length state.now.spots.items }
    ensures { IfOk result (λ known. known ≡ true → StaysAway flat.now state.now node deed other) }
{
    if other == node {
        return Ok(true);
    }
    let held = state.spots[node].held;
    keeps_away(alloc, flat, &state.spots[other], &held, deed)
}

// Whether it is known that a node comes to no act that conflicts, before its next barriers.
fn keeps_away(
    alloc: Global,
    flat: &Flat,
    spot: &Spot,
    blocked: &[bool; 64],
    deed: Deed,
) -> Result<bool, AllocError>
    requires { IsFlat flat.now }
    ensures { IfOk result (λ known. known ≡ true → KeepsAway flat.now spot.now blocked.now deed) }
{
    let follower = Follower {
        flat: *flat,
        me: spot.me,
        blocked,
    };
    match follow(alloc, &follower, spot)? {
        Some(all) => Ok(!may_conflict(&follower, &all, deed)),
        None => Ok(false),
    }
}
