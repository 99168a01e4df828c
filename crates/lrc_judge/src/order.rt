// Happens before, as a table.
ghost use Rattle.std.specs.Prelude.{◌≡◌, ◌<◌, All, IfOk};
ghost use Rattle.lrc_judge.specs.Order.{is_before, IsOrderOf};

use crate::NODES;
use crate::past::Past;
use crate::reach::Reached;
use lrc_trace::act::Act;
use std::alloc::{AllocError, Global};

/// The happens-before order of a run, as a table: the closure of program order, lock order and barrier order (vector
/// time, as in Fidge 1988 and Mattern 1989).
#[derive(Drop)]
pub struct Order {
    rows: Vec<Reached>,
}

impl Order {
    /// Returns whether the act at the first position happens before the one at the second. Beyond the end of the run
    /// nothing does.
    pub fn is_before(&self, earlier: usize, later: usize) -> bool
        ensures { result ≡ is_before self.now earlier later }
    {
        if earlier >= later || later >= self.rows.len() {
            return false;
        }
        let node = usize::from(self.rows[earlier].node);
        earlier < self.rows[later].reach.latest[node]
    }
}

/// Computes the happens-before order of a run. It fails only if memory runs out.
pub fn happens_before(alloc: Global, acts: &[Act]) -> Result<Order, AllocError>
    requires { All (λ act. act.node < NODES) acts.now }
    ensures { IfOk result (IsOrderOf acts.now) }
{
    let mut past = Past::new(alloc)?;
    let mut rows = Vec::new(alloc);
    for (position, act) in acts.iter().enumerate() {
        let reach = past.reach_of(acts, position);
        past.note(acts, position, reach)?;
        rows.push(Reached {
            node: act.node,
            reach,
        })?;
    }
    Ok(Order { rows })
}
