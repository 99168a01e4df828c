// What comes with an arrival.

ghost use Rattle.std.specs.Prelude.{◌≡◌, IfOk};

use lrc_store::Intervals;
use lrc_time::Time;
use std::alloc::AllocError;

/// A node's arrival at an episode of the barrier: whether the node asks for a collection, its time, and its own
/// intervals since it last departed. Episodes are counted from 1.
#[derive(Drop)]
pub struct Arrival {
    pub episode: u32,
    pub ask: bool,
    pub time: Time,
    pub intervals: Intervals,
}

impl Arrival {
    /// Returns a copy of the arrival. It fails if memory runs out.
    pub(crate) fn duplicate(&self) -> Result<Self, AllocError>
        ensures { IfOk result (λ arrival. arrival ≡ self.now) }
    {
        Ok(Arrival {
            episode: self.episode,
            ask: self.ask,
            time: self.time.copy(),
            intervals: self.intervals.duplicate()?,
        })
    }
}
