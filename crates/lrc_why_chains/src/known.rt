// What is known of a node, and where a node first knows.
ghost use Rattle.std.specs.Prelude.{◌≡◌, ℕ, ◌<◌, ◌↔◌, IsTrue, MatchOption, length};
ghost use Rattle.lrc_trace.specs.Order.{HappensBefore};
ghost use Rattle.lrc_judge.specs.Order.{IsOrderOf};
ghost use Rattle.lrc_why_chains.specs.Known.{IsActOf, IsLastKnown, IsFirstKnowing};

use lrc_judge::order::Order;
use lrc_trace::act::Act;

/// Returns the node's last act that is known at the position, which means that it happens before it. Returns none if no
/// act of the node is known there.
pub fn last_known(acts: &[Act], order: &Order, node: u8, position: usize) -> Option<usize>
    requires { IsOrderOf acts.now order.now }
    ensures { MatchOption result ((k : ℕ) → IsActOf acts.now node k
        → ¬ HappensBefore acts.now k position)
        (IsLastKnown acts.now node position) }
{
    for k in (0..acts.len()).rev() {
        if acts[k].node == node && order.is_before(k, position) {
            return Some(k);
        }
    }
    None
}

/// Returns the node's first act at which the position is known, or none if the node never knows of it.
pub fn first_knowing(acts: &[Act], order: &Order, node: u8, position: usize) -> Option<usize>
    requires { IsOrderOf acts.now order.now }
    ensures { MatchOption result ((k : ℕ) → IsActOf acts.now node k
        → ¬ HappensBefore acts.now position k)
        (IsFirstKnowing acts.now node position) }
{
    for k in 0..acts.len() {
        if acts[k].node == node && order.is_before(position, k) {
            return Some(k);
        }
    }
    None
}
