// Where chains to a position go on, from the events before.
ghost use Rattle.std.specs.Prelude.{◌≡◌, ℕ, ◌+◌, ◌≤◌, List, OnOk, Some, None};
ghost use Rattle.lrc_races_trace.specs.declared.event.Event.{Event as AnyEvent};
ghost use Rattle.lrc_races_trace.specs.Trace.{At};
ghost use Rattle.lrc_races_trace.specs.Order.{Precedes};
ghost use Rattle.lrc_chains.specs.Starts.{IsBest};
ghost use Rattle.lrc_chains.specs.Table.{start_in, IsGainedIn};
ghost use Rattle.lrc_races_why.specs.Cycles.{cycle_in};
ghost use Rattle.lrc_races_why.specs.Onward.{OfThread, Gated, AreThreadStarts, AreLockStarts, AreJoinStarts, AreDepartStarts, IsOnward};

use lrc_chains::starts::{Start, better};
use lrc_chains::table::{gain, gain_in, start_at, start_in};
use lrc_races_trace::event::{Event, Operation};
use std::alloc::{AllocError, Global};

/// The best starts of chains, by what an earlier event needs to come directly before them.
#[derive(Drop)]
pub struct Onward {
    /// For each thread, the best start at one of its events.
    pub threads: Vec<Option<Start>>,
    /// For each lock, the best start at an event that acquires it or waits for it.
    pub locks: Vec<Option<Start>>,
    /// For each thread, the best start at an event that joins it.
    pub joins: Vec<Option<Start>>,
    /// For each barrier, and each of its cycles, the best start at a depart of that cycle.
    pub departs: Vec<Vec<Option<Start>>>,
}

// Notes the start at an event by its thread.
fn note_thread(
    threads: &mut Vec<Option<Start>>,
    event: Event,
    start: Option<Start>,
) -> Result<(), AllocError>
    ensures { OnOk result ((events : List AnyEvent) (to n : ℕ) → At events n event
        → IsBest (Precedes events) to (λ k. k ≡ n) start
        → AreThreadStarts events to (n + 1) threads.old.items
        → AreThreadStarts events to n threads.new.items) }
{
    gain(threads, event.thread as usize, start)?;
    Ok(())
}

// Notes it by the lock that the event gets.
fn note_lock(
    locks: &mut Vec<Option<Start>>,
    event: Event,
    start: Option<Start>,
) -> Result<(), AllocError>
    ensures { OnOk result ((events : List AnyEvent) (to n : ℕ) → At events n event
        → IsBest (Precedes events) to (λ k. k ≡ n) start
        → AreLockStarts events to (n + 1) locks.old.items
        → AreLockStarts events to n locks.new.items) }
{
    match event.operation {
        Operation::Acquire(lock) | Operation::Wait(lock) => {
            gain(locks, lock as usize, start)?;
            Ok(())
        }
        _ => Ok(()),
    }
}

// Notes it by the thread that the event joins.
fn note_join(
    joins: &mut Vec<Option<Start>>,
    event: Event,
    start: Option<Start>,
) -> Result<(), AllocError>
    ensures { OnOk result ((events : List AnyEvent) (to n : ℕ) → At events n event
        → IsBest (Precedes events) to (λ k. k ≡ n) start
        → AreJoinStarts events to (n + 1) joins.old.items
        → AreJoinStarts events to n joins.new.items) }
{
    match event.operation {
        Operation::Join(thread) => {
            gain(joins, thread as usize, start)?;
            Ok(())
        }
        _ => Ok(()),
    }
}

// Notes it by the cycle of the barrier, if there is one.
fn note_cycle(
    departs: &mut Vec<Vec<Option<Start>>>,
    barrier: u32,
    number: Option<usize>,
    start: Option<Start>,
) -> Result<(), AllocError>
    ensures some { OnOk result ((cycle : ℕ) → number ≡ Some cycle
        → IsGainedIn departs.old.items departs.new.items barrier cycle start) }
    ensures none { OnOk result (number ≡ None → departs.new.items ≡ departs.old.items) }
{
    match number {
        Some(cycle) => {
            gain_in(departs, barrier as usize, cycle, start)?;
            Ok(())
        }
        None => Ok(()),
    }
}

// Notes it by the cycle from which the event departs.
fn note_depart(
    departs: &mut Vec<Vec<Option<Start>>>,
    event: Event,
    number: Option<usize>,
    start: Option<Start>,
) -> Result<(), AllocError>
    ensures { OnOk result ((events : List AnyEvent) (to n : ℕ) → At events n event
        → number ≡ cycle_in events n event.thread event.operation
        → IsBest (Precedes events) to (λ k. k ≡ n) start
        → AreDepartStarts events to (n + 1) departs.old.items
        → AreDepartStarts events to n departs.new.items) }
{
    match event.operation {
        Operation::Depart(barrier) => {
            note_cycle(departs, barrier, number, start)?;
            Ok(())
        }
        _ => Ok(()),
    }
}

impl Onward {
    /// Returns the table for the place behind the last position. It has no starts.
    pub fn new(alloc: Global) -> Onward
        ensures { (events : List AnyEvent) (to : ℕ) → IsOnward events to (to + 1) result }
    {
        Onward {
            threads: Vec::new(alloc),
            locks: Vec::new(alloc),
            joins: Vec::new(alloc),
            departs: Vec::new(alloc),
        }
    }

    // The best start of a thread's events, and of those that join it.
    fn of_thread(&self, thread: u32) -> Option<Start>
        ensures { (events : List AnyEvent) (to n : ℕ) → IsOnward events to n self.now
            → IsBest (Precedes events) to (λ k. (n ≤ k) × OfThread events thread k) result }
    {
        better(
            start_at(self.threads.as_slice(), thread as usize),
            start_at(self.joins.as_slice(), thread as usize),
        )
    }

    // The best start of the departs of a cycle of the barrier.
    fn of_cycle(&self, barrier: u32, number: Option<usize>) -> Option<Start>
        ensures { (cycle : ℕ) → number ≡ Some cycle
            → result ≡ start_in self.now.departs.items barrier cycle }
    {
        match number {
            Some(cycle) => start_in(self.departs.as_slice(), barrier as usize, cycle),
            None => None,
        }
    }

    // The best start of the events of other threads that an event comes directly before by what it does.
    fn gated(&self, event: Event, number: Option<usize>) -> Option<Start>
        ensures { (events : List AnyEvent) (to n : ℕ)
            → number ≡ cycle_in events n event.thread event.operation
            → IsOnward events to (n + 1) self.now
            → IsBest (Precedes events) to
            (λ k. (n + 1 ≤ k) × Gated events n event.operation k) result }
    {
        match event.operation {
            Operation::Release(lock) | Operation::Post(lock) => {
                start_at(self.locks.as_slice(), lock as usize)
            }
            Operation::Fork(thread) => self.of_thread(thread),
            Operation::Arrive(barrier) => self.of_cycle(barrier, number),
            _ => None,
        }
    }

    /// Returns the best start among those that an event, of the cycle with this number, comes directly before.
    pub fn best_from(&self, event: Event, number: Option<usize>) -> Option<Start>
        ensures { (events : List AnyEvent) (to n : ℕ) → At events n event
            → number ≡ cycle_in events n event.thread event.operation
            → IsOnward events to (n + 1) self.now
            → IsBest (Precedes events) to (λ k. Precedes events n k) result }
    {
        better(self.of_thread(event.thread), self.gated(event, number))
    }

    /// Adds the start at an event, of the cycle with this number. It fails if memory runs out, and then the table is of
    /// no use.
    pub fn note(
        &mut self,
        event: Event,
        number: Option<usize>,
        start: Option<Start>,
    ) -> Result<(), AllocError>
        ensures { OnOk result ((events : List AnyEvent) (to n : ℕ) → At events n event
            → number ≡ cycle_in events n event.thread event.operation
            → IsBest (Precedes events) to (λ k. k ≡ n) start
            → IsOnward events to (n + 1) self.old → IsOnward events to n self.new) }
    {
        note_thread(&mut self.threads, event, start)?;
        note_lock(&mut self.locks, event, start)?;
        note_join(&mut self.joins, event, start)?;
        note_depart(&mut self.departs, event, number, start)?;
        Ok(())
    }
}
