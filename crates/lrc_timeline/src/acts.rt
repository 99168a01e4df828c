// The timeline of a run's acts.

ghost use Rattle.std.specs.Prelude.{◌≡◌, ◌<◌, ◌≤◌, [], All, IfOk};
ghost use Rattle.lrc_clock.specs.Keeping.{KeepsTime};
ghost use Rattle.lrc_timeline.specs.Timeline.{brought_behind, timed, times_in};

use crate::timeline::Timeline;
use lrc_clock::times::times_of_acts;
use lrc_trace::act::Act;
use std::alloc::{AllocError, Global};

/// Returns the times of the acts of 1 to 16 nodes: for each position, the time of the acting node just after the act.
/// Each act is of one of the nodes. It costs little more than the acts. It fails if memory runs out; there is no memory
/// for 2^32 acts or more.
pub fn timeline_of(alloc: Global, acts: &[Act], nodes: u8) -> Result<Timeline, AllocError>
    requires some { 1 ≤ nodes }
    requires few { nodes ≤ 16 }
    requires in_range { All (λ act. act.node < nodes) acts.now }
    ensures times { IfOk result (λ line. KeepsTime nodes acts.now (times_in line)) }
    ensures kept { IfOk result
        (λ line. line.kept.items ≡ brought_behind [] (timed acts.now (times_in line))) }
{
    let times = times_of_acts(alloc, acts, nodes)?;
    let mut line = Timeline::none(alloc);
    for (position, act) in acts.iter().enumerate() {
        line.push(act.node, &times[position])?;
    }
    Ok(line)
}
