// The least act of a node that races with an act.

ghost use Rattle.std.specs.Prelude.{◌<◌, ℕ, MatchOption, length};
ghost use Rattle.lrc_judge.specs.Order.{IsOrderOf};
ghost use Rattle.lrc_why.specs.Lanes.{AreLanes};
ghost use Rattle.lrc_why.specs.Positions.{IsLeastRacing, IsRacing};

use crate::lanes::{Lanes, lane_of};
use crate::positions::is_racing;
use lrc_judge::order::Order;
use lrc_trace::act::Act;

/// Returns the node's first act that races with the act at the position, or none. It looks only at the node's accesses
/// of the same word.
pub fn least_racing(
    acts: &[Act],
    order: &Order,
    lanes: &Lanes,
    node: u8,
    position: usize,
) -> Option<usize>
    requires order { IsOrderOf acts.now order.now }
    requires lanes { AreLanes acts.now lanes.now }
    requires within { position < length acts.now }
    ensures { MatchOption result ((k : ℕ) → ¬ IsRacing acts.now node position k)
        (IsLeastRacing acts.now node position) }
{
    let Some(lane) = lane_of(node, acts[position].deed) else {
        return None;
    };
    let mut k = lanes.first(lane, acts.len());
    while k < acts.len() {
        if is_racing(acts, order, node, position, k) {
            return Some(k);
        }
        k = lanes.next(k);
    }
    None
}
