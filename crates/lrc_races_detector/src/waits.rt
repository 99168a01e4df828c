// Who waits at a barrier.
ghost use Rattle.std.specs.Prelude.{◌≡◌, ◌+◌, ◌↔◌, ℕ, List, [], IsTrue, MatchOption, OnOk};
ghost use Rattle.lrc_races_trace.specs.declared.event.Event.{Event};
ghost use Rattle.lrc_races_trace.specs.Trace.{At};
ghost use Rattle.lrc_races_detector.specs.Waits.{waiting_of, IsWaitSet, AreWaits, HasNoBarrierFault, IsBarrierFault};

use lrc_races_trace::event::{Event, Operation};
use lrc_races_trace::fault::Reason;
use std::alloc::{AllocError, Global};

/// The barrier at which a thread waits, and the line of its arrive.
#[derive(Clone, Copy)]
pub struct Waiting {
    pub barrier: u32,
    pub line: u64,
}

/// The threads that wait at a barrier.
#[derive(Drop)]
pub struct Waits {
    threads: Vec<Option<Waiting>>,
}

fn is_depart(operation: Operation, barrier: u32) -> bool
    ensures { IsTrue result ↔ (operation ≡ Operation.Depart barrier) }
{
    match operation {
        Operation::Depart(other) => other == barrier,
        _ => false,
    }
}

impl Waits {
    /// Returns the waits before any event.
    pub fn new(alloc: Global) -> Waits
        ensures { (events : List Event) → AreWaits events 0 result }
    {
        Waits {
            threads: Vec::new(alloc),
        }
    }

    fn waiting(&self, thread: usize) -> Option<Waiting>
        ensures { result ≡ waiting_of self.now thread }
    {
        match self.threads.get(thread) {
            Some(waiting) => *waiting,
            None => None,
        }
    }

    fn set(&mut self, thread: usize, waiting: Option<Waiting>) -> Result<(), AllocError>
        ensures { OnOk result (IsWaitSet self.old self.new thread waiting) }
    {
        while self.threads.len() <= thread {
            self.threads.push(None)?;
        }
        self.threads[thread] = waiting;
        Ok(())
    }

    /// Returns what barriers say is wrong with the next event: its thread waits at one, or has not arrived at the one
    /// from which it departs. Returns none if nothing is wrong.
    pub fn fault(&self, event: Event) -> Option<Reason>
        ensures { (events : List Event) (n : ℕ) → AreWaits events n self.now
            → MatchOption result (HasNoBarrierFault events n event)
            (λ reason. IsBarrierFault events n event reason) }
    {
        if let Some(waiting) = self.waiting(event.thread as usize) {
            if is_depart(event.operation, waiting.barrier) {
                return None;
            }
            return Some(Reason::Waits {
                barrier: waiting.barrier,
                line: waiting.line,
            });
        }
        match event.operation {
            Operation::Depart(barrier) => Some(Reason::NotArrived { barrier }),
            _ => None,
        }
    }

    /// Takes the next event of a trace, with which barriers find nothing wrong. It fails if memory runs out, and then
    /// the waits are of no use.
    pub fn take(&mut self, event: Event) -> Result<(), AllocError>
        ensures { OnOk result ((events : List Event) (n : ℕ) → At events n event
            → HasNoBarrierFault events n event
            → AreWaits events n self.old → AreWaits events (n + 1) self.new) }
    {
        match event.operation {
            Operation::Arrive(barrier) => {
                let waiting = Waiting {
                    barrier,
                    line: event.line,
                };
                self.set(event.thread as usize, Some(waiting))?;
                Ok(())
            }
            Operation::Depart(_barrier) => {
                self.set(event.thread as usize, None)?;
                Ok(())
            }
            _ => Ok(()),
        }
    }
}
