// Why two acts are not ordered.

ghost use Rattle.std.specs.Prelude.{◌≡◌, ◌<◌, ◌≤◌, IfOk, length};
ghost use Rattle.lrc_trace.specs.Synchronization.{Holds};
ghost use Rattle.lrc_judge.specs.Order.{IsOrderOf};
ghost use Rattle.lrc_why_chains.specs.Writes.{AreExactly};
ghost use Rattle.lrc_why.specs.Parting.{IsParting, IsStanding};

use crate::reasons::{Parting, Standing};
use lrc_judge::order::Order;
use lrc_trace::act::Act;
use lrc_why_chains::held::{departs_at, held_at};
use lrc_why_chains::known::last_known;
use std::alloc::{AllocError, Global};

// How many locks an act can name.
const LOCKS: usize = 256;

// The locks that the node holds at the position, ascending.
fn locks_at(alloc: Global, acts: &[Act], node: u8, position: usize) -> Result<Vec<u8>, AllocError>
    requires { position ≤ length acts.now }
    ensures { IfOk result (λ locks. AreExactly
        (λ l. (l < 256) × Holds acts.now position node l) locks.items) }
{
    let held = held_at(alloc, acts, node, position)?;
    let mut locks = Vec::new(alloc);
    for lock in 0..LOCKS {
        let is_held = held[lock];
        if is_held {
            locks.push(lock as u8)?;
        }
    }
    Ok(locks)
}

/// Returns which locks the node of the act at the position holds there, and how often it has departed. It fails if
/// memory runs out.
pub(crate) fn standing(alloc: Global, acts: &[Act], position: usize) -> Result<Standing, AllocError>
    requires { position < length acts.now }
    ensures { IfOk result (IsStanding acts.now position) }
{
    let node = acts[position].node;
    let locks = locks_at(alloc, acts, node, position)?;
    let departs = departs_at(acts, node, position);
    Ok(Standing { locks, departs })
}

/// Returns what the later act knows of the earlier one's node.
pub(crate) fn parting(acts: &[Act], order: &Order, earlier: usize, later: usize) -> Parting
    requires order { IsOrderOf acts.now order.now }
    requires within { earlier < length acts.now }
    ensures { IsParting acts.now earlier later result }
{
    let known = last_known(acts, order, acts[earlier].node, later);
    Parting {
        earlier,
        later,
        known,
    }
}
