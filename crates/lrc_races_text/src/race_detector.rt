// The detector of the races that are asked for.
ghost use Rattle.std.specs.Prelude.{◌≡◌, ℕ, ◌+◌, ◌^◌, ◌<◌, List, OnOk};
ghost use Rattle.lrc_races_trace.specs.declared.event.Event.{Event};
ghost use Rattle.lrc_races_trace.specs.Trace.{At};
ghost use Rattle.lrc_races_text.specs.declared.asked.Sought.{Sought as AnySought};
ghost use Rattle.lrc_races_text.specs.Sought.{AreSoughtAt};
ghost use Rattle.lrc_races_text.specs.Detecting.{HasTaken, position_of};

use crate::asked::Sought;
use lrc_races_detector::detector::Detector;
use lrc_races_sure_pass::detector::SureDetector;
use lrc_races_trace::event::{Event, Pair};
use std::alloc::{AllocError, Global};

/// The detector of the races that are asked for: what it stores of the events so far.
#[derive(Drop)]
pub enum RaceDetector {
    /// The detector of all races.
    All(Detector),
    /// The detector of sure races.
    Sure(SureDetector),
}

impl RaceDetector {
    /// Returns a detector of these races before any event. It allocates nothing.
    pub fn new(alloc: Global, sought: Sought) -> RaceDetector
        ensures { (events : List Event) → HasTaken sought events 0 result }
    {
        match sought {
            Sought::AllRaces => RaceDetector::All(Detector::new(alloc)),
            Sought::SureRaces => RaceDetector::Sure(SureDetector::new(alloc)),
        }
    }

    /// Returns the number of events so far.
    pub fn position(&self) -> u64
        ensures { result ≡ position_of self.now }
    {
        match self {
            RaceDetector::All(detector) => detector.position,
            RaceDetector::Sure(detector) => detector.position,
        }
    }

    /// Takes the next event of a trace, and sets `told` to exactly the pairs that are reported of it, in order. A
    /// detector takes fewer than 2^64 events. It fails if memory runs out, and then the detector and `told` are of no
    /// use.
    pub fn take(&mut self, event: Event, told: &mut Vec<Pair>) -> Result<(), AllocError>
        requires { position_of self.old + 1 < 2 ^ 64 }
        ensures { OnOk result ((sought : AnySought) (events : List Event) (n : ℕ) → At events n event
            → HasTaken sought events n self.old
            → HasTaken sought events (n + 1) self.new
            × AreSoughtAt sought events n told.new.items) }
    {
        match self {
            RaceDetector::All(detector) => detector.take(event, told),
            RaceDetector::Sure(detector) => detector.take(event, told),
        }
    }
}
