// The pairs of locations of a trace that race, as its events come.
ghost use Rattle.std.specs.Prelude.{◌≡◌, ℕ, ◌+◌, ◌^◌, ◌<◌, List, IfOk, OnOk, length};
ghost use Rattle.lrc_races_trace.specs.declared.event.Event.{Event as AnyEvent};
ghost use Rattle.lrc_races_trace.specs.Trace.{Accesses, At};
ghost use Rattle.lrc_races_detector.specs.Vectors.{entries};
ghost use Rattle.lrc_races_text.specs.declared.asked.Sought.{Sought as AnySought};
ghost use Rattle.lrc_races_text.specs.Detecting.{HasTaken, position_of};
ghost use Rattle.lrc_races_locations.specs.Rivals.{IsBehind};
ghost use Rattle.lrc_races_locations.specs.Located.{AreShown};
ghost use Rattle.lrc_races_locations.specs.Taking.{HasLocated};

use crate::locator::Locator;
use lrc_races_detector::vectors::Known;
use lrc_races_text::asked::Sought;
use lrc_races_text::race_detector::RaceDetector;
use lrc_races_trace::event::{Event, Pair, Placed};
use std::alloc::{AllocError, Global};

/// The detector of the pairs of locations that race. Its memory grows with the threads, the locks, and for each variable
/// the threads, locations and kinds that access it.
#[derive(Drop)]
pub struct LocationDetector {
    /// What is known of the order of the events.
    pub detector: RaceDetector,
    /// The pairs of the last event.
    told: Vec<Pair>,
    /// The pairs of locations.
    pub locator: Locator,
}

// What comes before the next event, if it is an access of this thread.
fn known_of(detector: &RaceDetector, thread: u32) -> Known<'_>
    ensures { (sought : AnySought) (events : List AnyEvent) (n variable : ℕ) (event : AnyEvent)
        → HasTaken sought events n detector.now → At events n event → event.thread ≡ thread
        → Accesses event variable → IsBehind sought events n (entries result) }
{
    match detector {
        RaceDetector::All(detector) => detector.threads.row(thread as usize),
        RaceDetector::Sure(detector) => detector.threads.row(thread as usize),
    }
}

impl LocationDetector {
    /// Returns a detector of these races before any event. It allocates nothing.
    pub fn new(alloc: Global, sought: Sought) -> LocationDetector
        ensures { (events : List AnyEvent) → HasLocated sought events 0 result }
    {
        LocationDetector {
            detector: RaceDetector::new(alloc, sought),
            told: Vec::new(alloc),
            locator: Locator::new(alloc),
        }
    }

    /// Takes the next event of a trace. A detector takes fewer than 2^64 events. It fails if memory runs out, and then
    /// the detector is of no use.
    pub fn take(&mut self, event: Event) -> Result<(), AllocError>
        requires { position_of self.old.detector + 1 < 2 ^ 64 }
        ensures { OnOk result ((sought : AnySought) (events : List AnyEvent) (n : ℕ)
            → At events n event → HasLocated sought events n self.old
            → HasLocated sought events (n + 1) self.new) }
    {
        let placed = Placed {
            position: self.detector.position(),
            event,
        };
        self.locator
            .take(known_of(&self.detector, event.thread), placed)?;
        self.detector.take(event, &mut self.told)?;
        Ok(())
    }
}

/// Returns the pairs of locations of a trace that race, each by the pair of accesses that shows it, in order. It fails if
/// memory runs out.
pub fn locations_of(
    alloc: Global,
    sought: Sought,
    events: &[Event],
) -> Result<Vec<Pair>, AllocError>
    ensures { IfOk result (λ pairs. AreShown sought events.now pairs.items) }
{
    let mut detector = LocationDetector::new(alloc, sought);
    for event in events {
        detector.take(*event)?;
    }
    let pairs = Vec::from_slice(alloc, detector.locator.pairs())?;
    Ok(pairs)
}
