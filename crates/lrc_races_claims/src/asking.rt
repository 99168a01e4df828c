// Asking of two accesses what separates them.
ghost use Rattle.std.specs.Prelude.{◌≡◌, ℕ, ◌<◌, ◌≤◌, ◌↔◌, List, IfOk, IsTrue, OnOk, length, slice_index};
ghost use Rattle.lrc_races_trace.specs.declared.event.Event.{Event as AnyEvent};
ghost use Rattle.lrc_races_trace.specs.Trace.{Accesses, At};
ghost use Rattle.lrc_races_detector.specs.Vectors.{entries};
ghost use Rattle.lrc_races_text.specs.declared.asked.Sought.{Sought as AnySought};
ghost use Rattle.lrc_races_text.specs.Detecting.{HasTaken};
ghost use Rattle.lrc_races_locations.specs.Rivals.{IsBehind, Separates};
ghost use Rattle.lrc_races_claims.specs.Asking.{HasAsked, IsAsking, IsAskingUpTo};

use lrc_races_detector::vectors::Known;
use lrc_races_text::asked::Sought;
use lrc_races_text::race_detector::RaceDetector;
use lrc_races_trace::event::{Event, Pair};
use lrc_races_witness::relation::Access;
use std::alloc::{AllocError, Global};

/// A detector that goes through a trace as far as it is asked. Questions in the order of their later accesses are
/// answered in one pass over the trace.
#[derive(Drop)]
pub struct Asker {
    alloc: Global,
    sought: Sought,
    detector: RaceDetector,
    told: Vec<Pair>,
}

// What separates earlier accesses from the next event, if it is an access of this thread.
fn known_of(detector: &RaceDetector, thread: u32) -> Known<'_>
    ensures { (sought : AnySought) (events : List AnyEvent) (n variable : ℕ) (event : AnyEvent)
        → HasTaken sought events n detector.now → At events n event → event.thread ≡ thread
        → Accesses event variable → IsBehind sought events n (entries result) }
{
    match detector {
        RaceDetector::All(detector) => detector.threads.row(thread as usize),
        RaceDetector::Sure(detector) => detector.threads.row(thread as usize),
    }
}

// Whether the access is below what is known of its thread.
fn is_below(known: Known<'_>, access: Access) -> bool
    ensures { IsTrue result
        ↔ (access.position < slice_index (entries known.entry) access.thread) }
{
    (access.position as u64) < known.of(access.thread)
}

impl Asker {
    /// Returns the asker of these races before any question. It allocates nothing.
    pub fn new(alloc: Global, sought: Sought) -> Asker
        ensures asked { (events : List AnyEvent) → HasAsked events 0 result }
        ensures sought { result.sought ≡ sought }
    {
        Asker {
            alloc,
            sought,
            detector: RaceDetector::new(alloc, sought),
            told: Vec::new(alloc),
        }
    }

    // Goes back to the beginning.
    fn restart(&mut self)
        ensures asked { (events : List AnyEvent) → HasAsked events 0 self.new }
        ensures sought { self.new.sought ≡ self.old.sought }
    {
        self.detector = RaceDetector::new(self.alloc, self.sought);
    }

    // Goes on to a position.
    fn go_on(&mut self, events: &[Event], position: usize) -> Result<(), AllocError>
        requires within { position ≤ length events.now }
        requires asking { IsAskingUpTo events.now position self.old }
        ensures reached { OnOk result (HasAsked events.now position self.new) }
        ensures sought { self.new.sought ≡ self.old.sought }
    {
        for at in self.detector.position() as usize..position {
            self.detector.take(events[at], &mut self.told)?;
        }
        Ok(())
    }

    // Goes to a position, from the beginning if it lies behind.
    fn reach(&mut self, events: &[Event], position: usize) -> Result<(), AllocError>
        requires within { position ≤ length events.now }
        requires asking { IsAsking events.now self.old }
        ensures reached { OnOk result (HasAsked events.now position self.new) }
        ensures sought { self.new.sought ≡ self.old.sought }
    {
        if self.detector.position() as usize <= position {
            return self.go_on(events, position);
        }
        self.restart();
        self.go_on(events, position)
    }

    /// Returns whether the earlier of two accesses of a trace is separated from the later one: whether it happens before
    /// it, or (of sure races) the later one was reached by way of it. It fails if memory runs out, and then the asker is
    /// of no use.
    pub fn separates(
        &mut self,
        events: &[Event],
        earlier: Access,
        later: Access,
    ) -> Result<bool, AllocError>
        requires order { earlier.position < later.position }
        requires within { later.position < length events.now }
        requires asking { IsAsking events.now self.old }
        ensures separates { IfOk result (λ separates. (a b : AnyEvent)
            → At events.now earlier.position a → At events.now later.position b
            → a.thread ≡ earlier.thread → b.thread ≡ later.thread → Accesses b later.variable
            → IsTrue separates
            ↔ Separates self.old.sought events.now earlier.position later.position) }
        ensures asking { OnOk result (IsAsking events.now self.new) }
        ensures sought { self.new.sought ≡ self.old.sought }
    {
        self.reach(events, later.position)?;
        let known = known_of(&self.detector, later.thread);
        Ok(is_below(known, earlier))
    }
}
