// The cycles of barriers to which events belong.
ghost use Rattle.std.specs.Prelude.{◌≡◌, ◌≢◌, ℕ, ◌+◌, ◌<◌, ◌^◌, List, [], IfOk, OnOk, length, slice_get};
ghost use Rattle.lrc_races_trace.specs.declared.event.Event.{Event as AnyEvent};
ghost use Rattle.lrc_races_trace.specs.Trace.{At};
ghost use Rattle.lrc_races_detector.specs.Barriers.{SameBarrier, IsArrived, IsDeparted, current_of, cycle_of};
ghost use Rattle.lrc_races_why.specs.Cycles.{cycle_in, AreNumbers, AreCycles};

use lrc_races_detector::barriers::Barrier;
use lrc_races_detector::vectors::Known;
use lrc_races_trace::event::{Event, Operation};
use std::alloc::{AllocError, Global};

// The open cycle of a barrier.
fn current(barriers: &[Barrier], barrier: usize) -> usize
    ensures { result ≡ current_of (slice_get barriers.now barrier) }
{
    match barriers.get(barrier) {
        Some(barrier) => barrier.current,
        None => 0,
    }
}

// The cycle of a thread at a barrier.
fn cycle(barriers: &[Barrier], barrier: usize, thread: usize) -> Option<usize>
    ensures { result ≡ cycle_of (slice_get barriers.now barrier) thread }
{
    match barriers.get(barrier)?.of.get(thread) {
        Some(cycle) => *cycle,
        None => None,
    }
}

// The cycle of the next event.
fn number_of(barriers: &[Barrier], event: Event) -> Option<usize>
    ensures { (events : List AnyEvent) (n : ℕ) → AreCycles events n barriers.now
        → result ≡ cycle_in events n event.thread event.operation }
{
    match event.operation {
        Operation::Arrive(barrier) => Some(current(barriers, barrier as usize)),
        Operation::Depart(barrier) => cycle(barriers, barrier as usize, event.thread as usize),
        _ => None,
    }
}

// Makes the barrier, where it is not yet kept.
fn reach(alloc: Global, barriers: &mut Vec<Barrier>, barrier: usize) -> Result<(), AllocError>
    ensures { OnOk result ((barrier < length barriers.new.items)
        × ((other : ℕ) → SameBarrier (slice_get barriers.new.items other)
        (slice_get barriers.old.items other))) }
{
    while barriers.len() <= barrier {
        barriers.push(Barrier::new(alloc))?;
    }
    Ok(())
}

// The thread arrives at the barrier.
fn arrive(barriers: &mut Vec<Barrier>, barrier: usize, thread: usize) -> Result<(), AllocError>
    ensures here { OnOk result (IsArrived (slice_get barriers.old.items barrier)
        (slice_get barriers.new.items barrier) thread []) }
    ensures others { OnOk result ((other : ℕ) → other ≢ barrier
        → SameBarrier (slice_get barriers.new.items other)
        (slice_get barriers.old.items other)) }
{
    let alloc = *barriers.allocator();
    reach(alloc, barriers, barrier)?;
    barriers[barrier].arrive(thread, Known::nothing())?;
    Ok(())
}

// The thread departs from the barrier.
fn depart(barriers: &mut Vec<Barrier>, barrier: usize, thread: usize) -> Result<(), AllocError>
    ensures here { OnOk result (current_of (slice_get barriers.old.items barrier) + 1 < 2 ^ 64
        → IsDeparted (slice_get barriers.old.items barrier)
        (slice_get barriers.new.items barrier) thread) }
    ensures others { OnOk result ((other : ℕ) → other ≢ barrier
        → slice_get barriers.new.items other ≡ slice_get barriers.old.items other) }
{
    if barrier < barriers.len() {
        barriers[barrier].depart(thread)?;
    }
    Ok(())
}

// Takes the next event.
fn take(barriers: &mut Vec<Barrier>, event: Event) -> Result<(), AllocError>
    ensures { OnOk result ((events : List AnyEvent) (n : ℕ) → n + 1 < 2 ^ 64 → At events n event
        → AreCycles events n barriers.old.items → AreCycles events (n + 1) barriers.new.items) }
{
    let thread = event.thread as usize;
    match event.operation {
        Operation::Arrive(barrier) => {
            arrive(barriers, barrier as usize, thread)?;
            Ok(())
        }
        Operation::Depart(barrier) => {
            depart(barriers, barrier as usize, thread)?;
            Ok(())
        }
        _ => Ok(()),
    }
}

/// Returns for each event the number of the cycle of its barrier to which it belongs: of an arrive the open one, of a
/// depart that of its thread's last arrive there, and for all others none. It fails if memory runs out.
pub fn cycles_of(alloc: Global, events: &[Event]) -> Result<Vec<Option<usize>>, AllocError>
    ensures { IfOk result (λ numbers. AreNumbers events.now numbers.items) }
{
    let mut barriers = Vec::new(alloc);
    let mut numbers = Vec::new(alloc);
    for event in events {
        numbers.push(number_of(barriers.as_slice(), *event))?;
        take(&mut barriers, *event)?;
    }
    Ok(numbers)
}
