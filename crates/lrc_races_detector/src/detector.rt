// The detector: what it keeps, and what one event makes of it.
ghost use Rattle.std.specs.Prelude.{◌≡◌, ◌≢◌, ℕ, ◌+◌, ◌^◌, ◌<◌, [], ◌++◌, List, IfOk, IfSome, IsTrue, OnOk, length, true, false};
ghost use Rattle.lrc_races_trace.specs.declared.event.Event.{Event};
ghost use Rattle.lrc_races_trace.specs.Trace.{At};
ghost use Rattle.lrc_races_trace.specs.Races.{AreTold, AreToldAt};
ghost use Rattle.lrc_races_detector.specs.Clocks.{row, IsGained, IsLevelled};
ghost use Rattle.lrc_races_detector.specs.Covers.{operation_of, AreCovers};
ghost use Rattle.lrc_races_detector.specs.Variables.{lasts_of, told_below, IsNoted};
ghost use Rattle.lrc_races_detector.specs.Knowing.{Gathers, AreThreads, AreLocks, AreBarriers, AreVariables, IsReached, handed};
ghost use Rattle.lrc_races_detector.specs.Detecting.{HasTaken};
ghost use Rattle.lrc_races_detector.specs.Vectors.{entries};

use crate::barriers::Barriers;
use crate::clocks::Clocks;
use crate::covers::{Cover, Covers};
use crate::joins::Joins;
use crate::variables::Variables;
use crate::vectors::Known;
use lrc_races_trace::event::{Event, Operation, Pair, Placed};
use std::alloc::{AllocError, Global};

/// The race detector: what it stores of the events so far.
#[derive(Drop)]
pub struct Detector {
    /// The number of events so far.
    pub position: u64,
    /// What each thread knows.
    pub threads: Clocks,
    /// For each lock, what the threads knew that released or posted it.
    pub locks: Clocks,
    /// What the threads knew that arrived at each barrier.
    pub barriers: Barriers,
    /// The last accesses of each variable.
    pub variables: Variables,
    /// The last access of each variable, where all others happen before it.
    pub covers: Covers,
    /// How many threads were joined, so that what is known of all of them can be told in one.
    pub joins: Joins,
}

/// Adds to what the thread of an event knows what the event learns from a lock, a barrier or a thread that it joins. It
/// fails if memory runs out.
pub fn receive(
    threads: &mut Clocks,
    locks: &Clocks,
    barriers: &Barriers,
    event: Event,
) -> Result<(), AllocError>
    ensures { OnOk result (IsGained threads.old threads.new event.thread
        (handed threads.old locks.now barriers.now event.thread event.operation)) }
{
    let thread = event.thread as usize;
    match event.operation {
        Operation::Acquire(lock) | Operation::Wait(lock) => {
            threads.gain(thread, locks.row(lock as usize))?;
            Ok(())
        }
        Operation::Join(other) => {
            threads.hand(other as usize, thread)?;
            Ok(())
        }
        Operation::Depart(barrier) => {
            threads.gain(thread, barriers.known(barrier as usize, thread))?;
            Ok(())
        }
        _ => Ok(()),
    }
}

/// Where an event joins a thread, and all is known there of the threads of a chunk, their entries may become the number
/// of events so far: no event of theirs is below that but known ones. It fails if memory runs out.
pub fn level(
    threads: &mut Clocks,
    joins: &mut Joins,
    event: Event,
    position: u64,
) -> Result<(), AllocError>
    ensures { OnOk result ((chunk : ℕ)
        × IsLevelled threads.old threads.new event.thread chunk position) }
{
    match event.operation {
        Operation::Join(other) => {
            if joins.note(other)? {
                return threads.level(event.thread as usize, other, position);
            }
            Ok(())
        }
        _ => Ok(()),
    }
}

// A thread that is forked comes to know what the thread knows that forks it.
fn give_thread(threads: &mut Clocks, event: Event) -> Result<(), AllocError>
    ensures { OnOk result ((events : List Event) (n : ℕ) → At events n event
        → IsReached events n event.thread threads.old
        → AreThreads events (n + 1) threads.new) }
{
    match event.operation {
        Operation::Fork(other) => {
            threads.hand(event.thread as usize, other as usize)?;
            Ok(())
        }
        _ => Ok(()),
    }
}

// A lock that is released or posted keeps what the thread knows.
fn give_lock(locks: &mut Clocks, known: Known<'_>, event: Event) -> Result<(), AllocError>
    ensures { OnOk result ((events : List Event) (n : ℕ) → At events n event
        → Gathers events (λ k. k ≡ n) (entries known.entry)
        → AreLocks events n locks.old → AreLocks events (n + 1) locks.new) }
{
    match event.operation {
        Operation::Release(lock) | Operation::Post(lock) => {
            locks.gain(lock as usize, known)?;
            Ok(())
        }
        _ => Ok(()),
    }
}

// A barrier at which the thread arrives keeps what it knows; where it departs, a cycle may be closed.
fn give_barrier(barriers: &mut Barriers, known: Known<'_>, event: Event) -> Result<(), AllocError>
    ensures { OnOk result ((events : List Event) (n : ℕ) → n + 1 < 2 ^ 64 → At events n event
        → Gathers events (λ k. k ≡ n) (entries known.entry)
        → AreBarriers events n barriers.old → AreBarriers events (n + 1) barriers.new) }
{
    let thread = event.thread as usize;
    match event.operation {
        Operation::Arrive(barrier) => {
            barriers.arrive(barrier as usize, thread, known)?;
            Ok(())
        }
        Operation::Depart(barrier) => {
            barriers.depart(barrier as usize, thread)?;
            Ok(())
        }
        _ => Ok(()),
    }
}

/// Adds to `told` the pairs of an access, if `known` is what its thread knows, and records the access. It fails if
/// memory runs out.
pub fn access(
    variables: &mut Variables,
    variable: usize,
    known: Known<'_>,
    placed: Placed,
    is_write: bool,
    told: &mut Vec<Pair>,
) -> Result<(), AllocError>
    ensures told { OnOk result (told.new.items ≡ told.old.items
        ++ told_below (lasts_of variables.old variable) (entries known.entry) placed is_write
        (length (lasts_of variables.old variable))) }
    ensures noted { OnOk result (IsNoted variables.old variables.new variable placed is_write) }
{
    variables.tell(variable, known, placed, is_write, told)?;
    variables.note(variable, placed, is_write)?;
    Ok(())
}

/// The access, as one of which is known who did it, and where.
pub fn cover_of(placed: Placed) -> Cover
    ensures position { result.position ≡ placed.position }
    ensures thread { result.thread ≡ placed.event.thread }
{
    Cover {
        thread: placed.event.thread,
        position: placed.position,
    }
}

/// A write of which nothing is told comes behind all accesses of its variable.
pub fn cover_behind(placed: Placed, is_write: bool, told: &[Pair]) -> Option<Cover>
    ensures { IfSome result (λ cover. (cover.position ≡ placed.position)
        × (cover.thread ≡ placed.event.thread) × IsTrue is_write × (length told.now ≡ 0)) }
{
    if is_write && told.is_empty() {
        return Some(cover_of(placed));
    }
    None
}

// Tells the pairs of an access, and notes it.
fn judge_access(
    variables: &mut Variables,
    covers: &mut Covers,
    variable: u32,
    known: Known<'_>,
    placed: Placed,
    is_write: bool,
    told: &mut Vec<Pair>,
) -> Result<(), AllocError>
    ensures { OnOk result ((events : List Event) → At events placed.position placed.event
        → placed.event.operation ≡ operation_of is_write variable
        → Gathers events (λ k. k ≡ placed.position) (entries known.entry)
        → AreVariables events placed.position variables.old
        → AreCovers events placed.position covers.old
        → told.old.items ≡ []
        → AreVariables events (placed.position + 1) variables.new
        × AreCovers events (placed.position + 1) covers.new
        × AreToldAt events placed.position told.new.items) }
{
    let index = variable as usize;
    if covers.is_known(index, known) {
        variables.note(index, placed, is_write)?;
        covers.set(index, Some(cover_of(placed)))?;
        return Ok(());
    }
    access(variables, index, known, placed, is_write, told)?;
    covers.set(index, cover_behind(placed, is_write, told.as_slice()))?;
    Ok(())
}

// Tells the pairs of an event, and notes it.
fn judge(
    variables: &mut Variables,
    covers: &mut Covers,
    known: Known<'_>,
    placed: Placed,
    told: &mut Vec<Pair>,
) -> Result<(), AllocError>
    ensures { OnOk result ((events : List Event) → At events placed.position placed.event
        → Gathers events (λ k. k ≡ placed.position) (entries known.entry)
        → AreVariables events placed.position variables.old
        → AreCovers events placed.position covers.old
        → told.old.items ≡ []
        → AreVariables events (placed.position + 1) variables.new
        × AreCovers events (placed.position + 1) covers.new
        × AreToldAt events placed.position told.new.items) }
{
    match placed.event.operation {
        Operation::Read(variable) => {
            judge_access(variables, covers, variable, known, placed, false, told)?;
            Ok(())
        }
        Operation::Write(variable) => {
            judge_access(variables, covers, variable, known, placed, true, told)?;
            Ok(())
        }
        _ => Ok(()),
    }
}

impl Detector {
    /// Returns a detector before any event.
    pub fn new(alloc: Global) -> Detector
        ensures { (events : List Event) → HasTaken events 0 result }
    {
        Detector {
            position: 0,
            threads: Clocks::new(alloc),
            locks: Clocks::new(alloc),
            barriers: Barriers::new(alloc),
            variables: Variables::new(alloc),
            covers: Covers::new(alloc),
            joins: Joins::new(alloc),
        }
    }

    // The thread of the event comes to know of it.
    fn reach(&mut self, event: Event) -> Result<(), AllocError>
        requires { self.old.position + 1 < 2 ^ 64 }
        ensures reached { OnOk result ((events : List Event) (n : ℕ) → At events n event
            → HasTaken events n self.old
            → IsReached events n event.thread self.new.threads) }
        ensures position { self.new.position ≡ self.old.position }
        ensures locks { self.new.locks ≡ self.old.locks }
        ensures barriers { self.new.barriers ≡ self.old.barriers }
        ensures variables { self.new.variables ≡ self.old.variables }
        ensures covers { self.new.covers ≡ self.old.covers }
    {
        receive(&mut self.threads, &self.locks, &self.barriers, event)?;
        level(&mut self.threads, &mut self.joins, event, self.position)?;
        self.threads.mark(event.thread, self.position + 1)?;
        Ok(())
    }

    /// Takes the next event of a trace, and sets `told` to exactly the pairs that are reported of it, in order. A
    /// detector takes fewer than 2^64 events. It fails if memory runs out, and then the detector and `told` are of no
    /// use.
    pub fn take(&mut self, event: Event, told: &mut Vec<Pair>) -> Result<(), AllocError>
        requires { self.old.position + 1 < 2 ^ 64 }
        ensures { OnOk result ((events : List Event) (n : ℕ) → At events n event
            → HasTaken events n self.old
            → HasTaken events (n + 1) self.new × AreToldAt events n told.new.items) }
    {
        told.clear();
        self.reach(event)?;
        let placed = Placed {
            position: self.position,
            event,
        };
        let known = self.threads.row(event.thread as usize);
        judge(&mut self.variables, &mut self.covers, known, placed, told)?;
        give_lock(&mut self.locks, known, event)?;
        give_barrier(&mut self.barriers, known, event)?;
        give_thread(&mut self.threads, event)?;
        self.position += 1;
        Ok(())
    }
}
