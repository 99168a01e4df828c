// Well-synchronized runs.
ghost use Rattle.std.specs.Prelude.{◌≡◌, ℕ, ◌+◌, ◌<◌, ◌≤◌, ◌↔◌, List, All, IsTrue, MatchBool, MatchOption, length};
ghost use Rattle.lrc_trace.specs.declared.act.Act.{Act};
ghost use Rattle.lrc_trace.specs.Synchronization.{IsWellSynchronized};
ghost use Rattle.lrc_judge.specs.declared.TheConstants.{NODES, LOCKS};
ghost use Rattle.lrc_judge.specs.Synchronization.{Breaks, IsFirstBreak};

use crate::{LOCKS, NODES};
use lrc_trace::act::{Act, Deed};

/// The state of the locks and barriers after the acts before a position, if they are well synchronized.
#[derive(Clone, Copy)]
struct Standing {
    /// For each lock, the node that holds it.
    holder: [Option<u8>; LOCKS],
    /// How often each node has arrived.
    arrives: [usize; NODES],
    /// How often each node has departed.
    departs: [usize; NODES],
    ghost all_locks: { length holder ≡ LOCKS },
    ghost all_arrives: { length arrives ≡ NODES },
    ghost all_departs: { length departs ≡ NODES },
}

impl Standing {
    ghost use Rattle.lrc_judge.specs.Standing.{IsStanding};

    // Before any act.
    fn new() -> Standing
        ensures { (run : List Act) → IsStanding run 0 result }
    {
        Standing {
            holder: [None; LOCKS],
            arrives: [0; NODES],
            departs: [0; NODES],
        }
    }

    // Whether a well-synchronized run of so many nodes may go on with the act at this position.
    fn allows(&self, acts: &[Act], position: usize, nodes: u8) -> bool
        requires standing { IsStanding acts.now position self.now }
        requires nodes { nodes ≤ NODES }
        requires acts { All (λ act. act.node < NODES) acts.now }
        requires within { position < length acts.now }
        ensures { MatchBool result (¬ Breaks nodes acts.now position)
            (Breaks nodes acts.now position) }
    {
        match acts[position].deed {
            Deed::Acquire(lock) => self.holder[usize::from(lock)].is_none(),
            Deed::Release(lock) => self.holder[usize::from(lock)] == Some(acts[position].node),
            Deed::Depart => {
                let departs = self.departs[usize::from(acts[position].node)];
                are_above(&self.arrives[..usize::from(nodes)], departs)
            }
            _ => true,
        }
    }

    // Takes the act at this position in.
    fn note(&mut self, acts: &[Act], position: usize, nodes: u8)
        requires standing { IsStanding acts.now position self.old }
        requires allowed { ¬ Breaks nodes acts.now position }
        requires acts { All (λ act. act.node < NODES) acts.now }
        requires within { position < length acts.now }
        ensures { IsStanding acts.now (position + 1) self.new }
    {
        let node = usize::from(acts[position].node);
        match acts[position].deed {
            Deed::Acquire(lock) => self.holder[usize::from(lock)] = Some(acts[position].node),
            Deed::Release(lock) => self.holder[usize::from(lock)] = None,
            Deed::Arrive => self.arrives[node] += 1,
            Deed::Depart => self.departs[node] += 1,
            _ => {}
        }
    }
}

// Whether each count is above the bound.
fn are_above(counts: &[usize], bound: usize) -> bool
    ensures { IsTrue result ↔ All (λ count. bound < count) counts.now }
{
    counts.iter().all(|count| bound < *count)
}

/// Returns the least position at which a run of `nodes` nodes is not well synchronized, or none if it is. The act there
/// is an acquire of a lock that a node holds, a release by a node that does not hold the lock, or a depart before every
/// node has arrived at that barrier.
pub fn first_fault_of_synchronization(acts: &[Act], nodes: u8) -> Option<usize>
    requires nodes { nodes ≤ NODES }
    requires acts { All (λ act. act.node < NODES) acts.now }
    ensures { MatchOption result (IsWellSynchronized nodes acts.now) (IsFirstBreak nodes acts.now) }
{
    let mut standing = Standing::new();
    for position in 0..acts.len() {
        if !standing.allows(acts, position, nodes) {
            return Some(position);
        }
        standing.note(acts, position, nodes);
    }
    None
}
