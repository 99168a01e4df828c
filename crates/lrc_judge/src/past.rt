// What the acts before a position hand on to the act there.
ghost use Rattle.std.specs.Prelude.{◌≡◌, length, vec_len};
ghost use Rattle.lrc_judge.specs.declared.TheConstants.{NODES, LOCKS};

use crate::reach::Reach;
use crate::{LOCKS, NODES};
use lrc_trace::act::{Act, Deed};
use std::alloc::{AllocError, Global};

/// What the acts before a position pass on to the act there.
#[derive(Drop)]
pub struct Past {
    /// For each node, the reach of its acts.
    pub acted: [Reach; NODES],
    /// For each lock, the reach of its releases.
    pub released: Vec<Reach>,
    /// At index n, the reach of the arrives that follow n arrives of their own node.
    pub arrived: Vec<Reach>,
    /// How often each node has arrived.
    pub arrives: [usize; NODES],
    /// How often each node has departed.
    pub departs: [usize; NODES],
    ghost all_acted: { length acted ≡ NODES },
    ghost all_released: { vec_len released ≡ LOCKS },
    ghost all_arrives: { length arrives ≡ NODES },
    ghost all_departs: { length departs ≡ NODES },
}

impl Past {
    ghost use Rattle.std.specs.Prelude.{◌≡◌, ℕ, ◌+◌, ◌<◌, ◌≤◌, List, All, IfOk, OnOk, length};
    ghost use Rattle.lrc_trace.specs.declared.act.Act.{Act};
    ghost use Rattle.lrc_trace.specs.Order.{Precedes};
    ghost use Rattle.lrc_judge.specs.Past.{Gathers, IsPast};

    /// Returns the past of the first position, before any act. It fails only if memory runs out.
    pub fn new(alloc: Global) -> Result<Past, AllocError>
        ensures { IfOk result (λ past. (run : List Act) → IsPast run 0 past) }
    {
        let none = Reach::none();
        Ok(Past {
            acted: [none; NODES],
            released: vec![in alloc; none; LOCKS]?,
            arrived: Vec::new(alloc),
            arrives: [0; NODES],
            departs: [0; NODES],
        })
    }

    // What the acts that come right before this position are reached by.
    fn handed_to(&self, acts: &[Act], position: usize) -> Reach
        requires past { IsPast acts.now position self.now }
        requires nodes { All (λ act. act.node < NODES) acts.now }
        requires within { position < length acts.now }
        ensures { Gathers acts.now (λ k. Precedes acts.now k position) result }
    {
        let node = usize::from(acts[position].node);
        let own = self.acted[node];
        match acts[position].deed {
            Deed::Acquire(lock) => own.joined(self.released[usize::from(lock)]),
            Deed::Depart => match self.arrived.get(self.departs[node]) {
                Some(arrived) => own.joined(*arrived),
                None => own,
            },
            _ => own,
        }
    }

    /// Returns the reach of the act at this position.
    pub fn reach_of(&self, acts: &[Act], position: usize) -> Reach
        requires past { IsPast acts.now position self.now }
        requires nodes { All (λ act. act.node < NODES) acts.now }
        requires within { position < length acts.now }
        ensures { Gathers acts.now (λ k. k ≡ position) result }
    {
        let mut reach = self.handed_to(acts, position);
        reach.latest[usize::from(acts[position].node)] = position + 1;
        reach
    }

    /// Records the act at this position. It fails only if memory runs out.
    pub fn note(&mut self, acts: &[Act], position: usize, reach: Reach) -> Result<(), AllocError>
        requires past { IsPast acts.now position self.old }
        requires reach { Gathers acts.now (λ k. k ≡ position) reach }
        requires nodes { All (λ act. act.node < NODES) acts.now }
        requires within { position < length acts.now }
        ensures { OnOk result (IsPast acts.now (position + 1) self.new) }
    {
        let node = usize::from(acts[position].node);
        self.acted[node] = reach;
        match acts[position].deed {
            Deed::Release(lock) => {
                let lock = usize::from(lock);
                self.released[lock] = self.released[lock].joined(reach);
                Ok(())
            }
            Deed::Arrive => {
                let number = self.arrives[node];
                self.arrives[node] = number + 1;
                if number < self.arrived.len() {
                    self.arrived[number] = self.arrived[number].joined(reach);
                } else {
                    self.arrived.push(reach)?;
                }
                Ok(())
            }
            Deed::Depart => {
                self.departs[node] += 1;
                Ok(())
            }
            _ => Ok(()),
        }
    }
}
