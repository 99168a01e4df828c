// Whose turn is next.

ghost use Rattle.std.specs.Prelude.{◌≡◌, IfOk, map, option_map, slice_get};
ghost use Rattle.lrc_weave.specs.Next.{IsFirst, earlier_of, stamp_of};

use lrc_log::Entry;
use std::alloc::{AllocError, Global};
use std::marker::Model;

/// The next turn of a node.
#[derive(Clone, Copy)]
pub(crate) struct Head {
    /// Its stamp.
    pub stamp: u64,
    /// The node.
    pub node: usize,
}

/// Returns the stamp of the first turn of each log, or none for a log without turns.
pub(crate) fn first_stamps(
    alloc: Global,
    logs: &[Vec<Entry>],
) -> Result<Vec<Option<u64>>, AllocError>
    ensures { IfOk result (λ stamps. stamps.items
        ≡ map (λ log. option_map (λ entry. entry.stamp) (slice_get log.items 0)) logs.now) }
{
    let mut stamps = Vec::new(alloc);
    for log in logs {
        stamps.push(stamp_at(log, 0))?;
    }
    Ok(stamps)
}

/// Returns the stamp of the turn at a place of a log, or none if there is no such turn.
pub(crate) fn stamp_at(log: &Vec<Entry>, place: usize) -> Option<u64>
    ensures { result ≡ option_map (λ entry. entry.stamp) (slice_get log.now.items place) }
{
    match log.get(place) {
        Some(entry) => Some(entry.stamp),
        None => None,
    }
}

/// Returns the node whose next turn comes before those of all other nodes, given the stamps of the next turns. It is
/// the node with the least stamp, and among equals the lowest. Returns none if no turn is left.
pub(crate) fn next_turn(stamps: &[Option<u64>]) -> Option<usize>
    ensures { IsFirst (stamp_of stamps.now) result }
{
    let mut best = None;
    for node in 0..stamps.len() {
        best = earlier(best, stamps[node], node);
    }
    match best {
        Some(head) => Some(head.node),
        None => None,
    }
}

// The better of the best next turn so far and that of a node with a higher number, if it has one.
fn earlier(best: Option<Head>, stamp: Option<u64>, node: usize) -> Option<Head>
    ensures { result ≡ earlier_of best stamp node }
{
    let Some(stamp) = stamp else { return best };
    match best {
        Some(head) if head.stamp <= stamp => best,
        _ => Some(Head { stamp, node }),
    }
}
