// Where chains to a position go on, from the acts before.
ghost use Rattle.std.specs.Prelude.{◌≡◌, vec_len};
ghost use Rattle.lrc_why_chains.specs.declared.TheConstants.{NAMES};

use crate::NAMES;
use crate::starts::{Start, better};
use lrc_trace::act::{Act, Deed};
use std::alloc::{AllocError, Global};

/// The best starts of chains, by what an earlier act needs to directly precede them.
#[derive(Drop)]
pub struct Onward {
    /// For each node, the best start at one of its acts.
    pub nodes: Vec<Option<Start>>,
    /// For each lock, the best start at one of its acquires.
    pub acquires: Vec<Option<Start>>,
    /// For each number, the best start at a depart whose node has departed that often before.
    pub departs: Vec<Option<Start>>,
    ghost all_nodes: { vec_len nodes ≡ NAMES },
    ghost all_acquires: { vec_len acquires ≡ NAMES },
}

impl Onward {
    ghost use Rattle.std.specs.Prelude.{◌≡◌, ℕ, ◌+◌, ◌<◌, List, IfOk, length, vec_len};
    ghost use Rattle.lrc_trace.specs.declared.act.Act.{Act};
    ghost use Rattle.lrc_trace.specs.Order.{Precedes};
    ghost use Rattle.lrc_why_chains.specs.Numbers.{AreNumbers};
    ghost use Rattle.lrc_why_chains.specs.Starts.{IsBest};
    ghost use Rattle.lrc_why_chains.specs.Onward.{IsOnward};

    /// Creates the table for the place behind the last position, with no starts; `most` is the number of acts. It fails
    /// if memory runs out.
    pub fn new(alloc: Global, most: usize) -> Result<Onward, AllocError>
        ensures { IfOk result (λ onward. (vec_len onward.departs ≡ most)
            × ((run : List Act) (to : ℕ) → IsOnward run to (to + 1) onward)) }
    {
        Ok(Onward {
            nodes: vec![in alloc; None; NAMES]?,
            acquires: vec![in alloc; None; NAMES]?,
            departs: vec![in alloc; None; most]?,
        })
    }

    /// Returns the best start among those that the act at this position directly precedes.
    pub fn best_from(
        &self,
        acts: &[Act],
        numbers: &[usize],
        position: usize,
        to: usize,
    ) -> Option<Start>
        requires numbers { AreNumbers acts.now numbers.now }
        requires onward { IsOnward acts.now to (position + 1) self.now }
        requires most { vec_len self.now.departs ≡ length acts.now }
        requires within { position < length acts.now }
        ensures { IsBest acts.now to (λ k. Precedes acts.now position k) result }
    {
        let own = self.nodes[usize::from(acts[position].node)];
        match acts[position].deed {
            Deed::Release(lock) => better(own, self.acquires[usize::from(lock)]),
            Deed::Arrive => better(own, self.departs[numbers[position]]),
            _ => own,
        }
    }

    /// Adds the start at this position to the table.
    pub fn note(
        &mut self,
        acts: &[Act],
        numbers: &[usize],
        position: usize,
        start: Option<Start>,
        to: usize,
    )
        requires numbers { AreNumbers acts.now numbers.now }
        requires onward { IsOnward acts.now to (position + 1) self.old }
        requires most { vec_len self.old.departs ≡ length acts.now }
        requires within { position < length acts.now }
        requires start { IsBest acts.now to (λ k. k ≡ position) start }
        ensures onward { IsOnward acts.now to position self.new }
        ensures most { vec_len self.new.departs ≡ length acts.now }
    {
        let node = usize::from(acts[position].node);
        self.nodes[node] = better(start, self.nodes[node]);
        match acts[position].deed {
            Deed::Acquire(lock) => {
                let lock = usize::from(lock);
                self.acquires[lock] = better(start, self.acquires[lock]);
            }
            Deed::Depart => {
                let number = numbers[position];
                self.departs[number] = better(start, self.departs[number]);
            }
            _ => {}
        }
    }
}
