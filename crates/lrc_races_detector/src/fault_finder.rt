// The first event that no program would give.
ghost use Rattle.std.specs.Prelude.{◌+◌, ◌^◌, ◌<◌, ℕ, List, MatchOption, OnOk};
ghost use Rattle.lrc_races_trace.specs.declared.event.Event.{Event};
ghost use Rattle.lrc_races_trace.specs.Trace.{At};
ghost use Rattle.lrc_races_trace.specs.Formed.{IsFirstFault};
ghost use Rattle.lrc_races_detector.specs.Finding.{HasLooked, IsKept, HasNoFault, IsFirstReason};

use crate::held::Holders;
use crate::threads::Threads;
use crate::waits::Waits;
use lrc_races_trace::event::Event;
use lrc_races_trace::fault::{Fault, Reason};
use std::alloc::{AllocError, Global};

/// What is stored of events that have no fault.
#[derive(Drop)]
pub struct Kept {
    /// Which threads were joined, and which are known.
    pub threads: Threads,
    /// Which threads wait at a barrier.
    pub waits: Waits,
    /// The holder of each lock.
    pub holders: Holders,
}

impl Kept {
    // What is wrong with the next event, the first that holds.
    fn reason(&self, event: Event) -> Option<Reason>
        ensures { (events : List Event) (n : ℕ) → IsKept events n self.now
            → MatchOption result (HasNoFault events n event) (IsFirstReason events n event) }
    {
        if let Some(reason) = self.threads.joined_fault(event) {
            return Some(reason);
        }
        if let Some(reason) = self.waits.fault(event) {
            return Some(reason);
        }
        if let Some(reason) = self.holders.fault(event) {
            return Some(reason);
        }
        self.threads.known_fault(event)
    }

    // Takes the next event, with which nothing is wrong.
    fn take(&mut self, event: Event) -> Result<(), AllocError>
        ensures { OnOk result ((events : List Event) (n : ℕ) → n + 1 < 2 ^ 64 → At events n event
            → HasNoFault events n event
            → IsKept events n self.old → IsKept events (n + 1) self.new) }
    {
        self.threads.take(event)?;
        self.waits.take(event)?;
        self.holders.take(event)?;
        Ok(())
    }
}

/// A finder of the first event of a trace that no program would give.
#[derive(Drop)]
pub struct FaultFinder {
    found: Option<Fault>,
    kept: Kept,
}

impl FaultFinder {
    /// Returns a finder before any event.
    pub fn new(alloc: Global) -> FaultFinder
        ensures { (events : List Event) → HasLooked events 0 result }
    {
        FaultFinder {
            found: None,
            kept: Kept {
                threads: Threads::new(alloc),
                waits: Waits::new(alloc),
                holders: Holders::new(alloc),
            },
        }
    }

    /// Returns the first event so far that no program would give, and why.
    pub fn fault(&self) -> Option<Fault>
        ensures { (events : List Event) (n : ℕ) → HasLooked events n self.now
            → IsFirstFault events n result }
    {
        self.found
    }

    /// Takes the next event of a trace. It fails if memory runs out, and then the finder is of no use.
    pub fn take(&mut self, event: Event) -> Result<(), AllocError>
        ensures { OnOk result ((events : List Event) (n : ℕ) → n + 1 < 2 ^ 64 → At events n event
            → HasLooked events n self.old
            → HasLooked events (n + 1) self.new) }
    {
        if self.found.is_some() {
            return Ok(());
        }
        if let Some(reason) = self.kept.reason(event) {
            self.found = Some(Fault { event, reason });
            return Ok(());
        }
        self.kept.take(event)?;
        Ok(())
    }
}
