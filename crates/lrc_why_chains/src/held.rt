// What a node holds at a position, and how often it has departed.
ghost use Rattle.std.specs.Prelude.{◌≡◌, ℕ, ◌≤◌, IfOk, length};
ghost use Rattle.lrc_trace.specs.Run.{arrives_before, departs_before};
ghost use Rattle.lrc_why_chains.specs.Held.{AreHeld};

use crate::NAMES;
use lrc_trace::act::{Act, Deed};
use std::alloc::{AllocError, Global};

/// Returns for each lock whether the node holds it at the position: whether it has acquired the lock before and not
/// released it since. It fails if memory runs out.
pub fn held_at(
    alloc: Global,
    acts: &[Act],
    node: u8,
    position: usize,
) -> Result<Vec<bool>, AllocError>
    requires { position ≤ length acts.now }
    ensures { IfOk result (λ held. AreHeld acts.now node position held.items) }
{
    let mut held = vec![in alloc; false; NAMES]?;
    for k in 0..position {
        if acts[k].node == node {
            match acts[k].deed {
                Deed::Acquire(lock) => held[usize::from(lock)] = true,
                Deed::Release(lock) => held[usize::from(lock)] = false,
                _ => {}
            }
        }
    }
    Ok(held)
}

/// Returns how often the node has departed from a barrier before the position.
pub fn departs_at(acts: &[Act], node: u8, position: usize) -> usize
    requires { position ≤ length acts.now }
    ensures { result ≡ departs_before acts.now node position }
{
    acts[..position]
        .iter()
        .filter(|act| act.node == node && act.deed == Deed::Depart)
        .count()
}

/// Returns how often the node has arrived at a barrier before the position.
pub fn arrives_at(acts: &[Act], node: u8, position: usize) -> usize
    requires { position ≤ length acts.now }
    ensures { result ≡ arrives_before acts.now node position }
{
    acts[..position]
        .iter()
        .filter(|act| act.node == node && act.deed == Deed::Arrive)
        .count()
}
