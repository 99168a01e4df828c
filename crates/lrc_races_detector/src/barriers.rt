// The cycles of barriers, and what the arrives of the open ones know, and of those that threads still depart from.
ghost use Rattle.std.specs.Prelude.{◌≡◌, ◌≢◌, ℕ, ◌+◌, ◌^◌, ◌<◌, ◌↔◌, [], IsTrue, OnOk, Option, length, slice_get, vec_len};
ghost use Rattle.lrc_races_detector.specs.Barriers.{SameBarrier, IsArrived, IsClosed, IsDeparted, IsSet, IsShared, IsKeptBelow, current_of, cycle_of, known_of, cycle_at, shared_at};
ghost use Rattle.lrc_races_detector.specs.Vectors.{entries, held};

use crate::vectors::{Known, Vector};
use std::alloc::{AllocError, Global};
use std::mem::replace;
use std::rc::Rc;

/// One barrier. Its memory grows with its threads, and not with its cycles.
#[derive(Drop)]
pub struct Barrier {
    /// The number of the open cycle.
    pub current: usize,
    /// What the arrives of the open cycle know.
    pub arrived: Vector,
    /// For each thread, the cycle of its last arrive.
    pub of: Vec<Option<usize>>,
    /// For each thread, what the arrives of that cycle know, if the cycle is closed. The threads of a cycle share it.
    pub closed: Vec<Option<Rc<Vector>>>,
}

// Sets the cycle of a thread.
fn set_cycle(of: &mut Vec<Option<usize>>, thread: usize, cycle: usize) -> Result<(), AllocError>
    ensures { OnOk result (IsSet of.old.items of.new.items thread cycle) }
{
    while of.len() <= thread {
        of.push(None)?;
    }
    of[thread] = Some(cycle);
    Ok(())
}

fn is_of(cycle: Option<usize>, current: usize) -> bool
    ensures { IsTrue result ↔ (cycle ≡ Option.Some current) }
{
    match cycle {
        Some(number) => number == current,
        None => false,
    }
}

// Shares with a thread what is known of its cycle.
fn share(
    closed: &mut Vec<Option<Rc<Vector>>>,
    thread: usize,
    known: &Rc<Vector>,
) -> Result<(), AllocError>
    ensures { OnOk result (IsShared closed.old.items closed.new.items thread (held known.now.value)) }
{
    while closed.len() <= thread {
        closed.push(None)?;
    }
    closed[thread] = Some(known.clone()?);
    Ok(())
}

// Shares with each thread of the open cycle what the arrives of that cycle know.
fn keep(
    closed: &mut Vec<Option<Rc<Vector>>>,
    of: &[Option<usize>],
    current: usize,
    known: &Rc<Vector>,
) -> Result<(), AllocError>
    ensures { OnOk result (IsKeptBelow
        (length of.now) closed.old.items closed.new.items of.now current (held known.now.value)) }
{
    for (thread, cycle) in of.iter().enumerate() {
        if is_of(*cycle, current) {
            share(closed, thread, known)?;
        }
    }
    Ok(())
}

// What a thread shares.
fn shared(closed: &[Option<Rc<Vector>>], thread: usize) -> Known<'_>
    ensures { entries result ≡ shared_at (slice_get closed.now thread) }
{
    match closed.get(thread) {
        Some(Some(known)) => known.as_ref().known(),
        _ => Known::nothing(),
    }
}

impl Barrier {
    /// Returns a barrier before any event.
    pub fn new(alloc: Global) -> Barrier
        ensures { SameBarrier (Option.Some result) Option.None }
    {
        Barrier {
            current: 0,
            arrived: Vector::new(alloc),
            of: Vec::new(alloc),
            closed: Vec::new(alloc),
        }
    }

    /// Returns what a depart of the thread learns.
    pub fn known(&self, thread: usize) -> Known<'_>
        ensures { entries result ≡ known_of (Option.Some self.now) thread }
    {
        match self.of.get(thread) {
            Some(Some(cycle)) => {
                if *cycle == self.current {
                    self.arrived.known()
                } else {
                    shared(&self.closed, thread)
                }
            }
            _ => Known::nothing(),
        }
    }

    /// Records that a thread with this knowledge arrives. It fails if memory runs out.
    pub fn arrive(&mut self, thread: usize, known: Known<'_>) -> Result<(), AllocError>
        ensures { OnOk result (IsArrived (Option.Some self.old)
            (Option.Some self.new) thread (entries known.entry)) }
    {
        self.arrived.join(known)?;
        set_cycle(&mut self.of, thread, self.current)?;
        Ok(())
    }

    // Closes the open cycle, and opens the next.
    fn close(&mut self) -> Result<(), AllocError>
        ensures { OnOk result (self.old.current + 1 < 2 ^ 64
            → IsClosed (Option.Some self.old) (Option.Some self.new)) }
    {
        let alloc = *self.of.allocator();
        let arrived = replace(&mut self.arrived, Vector::new(alloc));
        let known = Rc::new(alloc, arrived)?;
        keep(&mut self.closed, self.of.as_slice(), self.current, &known)?;
        self.current = self.current.saturating_add(1);
        Ok(())
    }

    /// Records that a thread departs. If its cycle is the open one, this closes the cycle and opens the next. It fails
    /// if memory runs out.
    pub fn depart(&mut self, thread: usize) -> Result<(), AllocError>
        ensures { OnOk result (self.old.current + 1 < 2 ^ 64
            → IsDeparted (Option.Some self.old) (Option.Some self.new) thread) }
    {
        let cycle = match self.of.get(thread) {
            Some(cycle) => *cycle,
            None => None,
        };
        if is_of(cycle, self.current) {
            self.close()?;
        }
        Ok(())
    }
}

/// All barriers.
#[derive(Drop)]
pub struct Barriers {
    barriers: Vec<Barrier>,
}

impl Barriers {
    /// Returns the barriers before any event.
    pub fn new(alloc: Global) -> Barriers
        ensures { result.barriers.items ≡ [] }
    {
        Barriers {
            barriers: Vec::new(alloc),
        }
    }

    /// Returns what a depart of the thread at the barrier learns.
    pub fn known(&self, barrier: usize, thread: usize) -> Known<'_>
        ensures { entries result ≡ known_of (slice_get self.now.barriers.items barrier) thread }
    {
        match self.barriers.get(barrier) {
            Some(barrier) => barrier.known(thread),
            None => Known::nothing(),
        }
    }

    // Makes the barrier, where it is not yet kept.
    fn reach(&mut self, barrier: usize) -> Result<(), AllocError>
        ensures { OnOk result ((barrier < vec_len self.new.barriers)
            × ((other : ℕ) → SameBarrier (slice_get self.new.barriers.items other)
            (slice_get self.old.barriers.items other))) }
    {
        let alloc = *self.barriers.allocator();
        while self.barriers.len() <= barrier {
            self.barriers.push(Barrier::new(alloc))?;
        }
        Ok(())
    }

    /// Records that a thread with this knowledge arrives at the barrier. It fails if memory runs out.
    pub fn arrive(
        &mut self,
        barrier: usize,
        thread: usize,
        known: Known<'_>,
    ) -> Result<(), AllocError>
        ensures here { OnOk result (IsArrived (slice_get self.old.barriers.items barrier)
            (slice_get self.new.barriers.items barrier) thread (entries known.entry)) }
        ensures others { OnOk result ((other : ℕ) → other ≢ barrier
            → SameBarrier (slice_get self.new.barriers.items other)
            (slice_get self.old.barriers.items other)) }
    {
        self.reach(barrier)?;
        self.barriers[barrier].arrive(thread, known)?;
        Ok(())
    }

    /// Records that a thread departs from the barrier. It fails if memory runs out.
    pub fn depart(&mut self, barrier: usize, thread: usize) -> Result<(), AllocError>
        ensures here { OnOk result (current_of (slice_get self.old.barriers.items barrier) + 1
            < 2 ^ 64
            → IsDeparted (slice_get self.old.barriers.items barrier)
            (slice_get self.new.barriers.items barrier) thread) }
        ensures others { OnOk result ((other : ℕ) → other ≢ barrier
            → slice_get self.new.barriers.items other ≡ slice_get self.old.barriers.items other) }
    {
        if barrier < self.barriers.len() {
            self.barriers[barrier].depart(thread)?;
        }
        Ok(())
    }
}
