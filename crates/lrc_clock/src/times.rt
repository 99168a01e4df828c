// The times of a run's acts.

ghost use Rattle.std.specs.Prelude.{◌<◌, ◌≤◌, All, IfOk};
ghost use Rattle.lrc_clock.specs.Keeping.{KeepsTime};

use crate::past::Past;
use lrc_time::Time;
use lrc_trace::act::Act;
use std::alloc::{AllocError, Global};

/// Returns the times of the acts of 1 to 16 nodes: for each position, the time of the acting node just after the act.
/// Each act is of one of the nodes. It costs little more than the acts. It fails if memory runs out; there is no memory
/// for 2^32 acts or more, whose times would take 256 GiB.
pub fn times_of_acts(alloc: Global, acts: &[Act], nodes: u8) -> Result<Vec<Time>, AllocError>
    requires some { 1 ≤ nodes }
    requires few { nodes ≤ 16 }
    requires in_range { All (λ act. act.node < nodes) acts.now }
    ensures { IfOk result (λ times. KeepsTime nodes acts.now times.items) }
{
    if acts.len() > u32::MAX as usize {
        return Err(AllocError);
    }
    let mut past = Past::new(alloc);
    let mut times = Vec::new(alloc);
    for position in 0..acts.len() {
        let before = &acts[..position];
        let time = past.time_after(before, times.as_slice(), acts[position], nodes);
        past.note(before, times.as_slice(), acts[position], &time, nodes)?;
        times.push(time)?;
    }
    Ok(times)
}
