// The detector of sure races: what it keeps, and what one event makes of it.
ghost use Rattle.std.specs.Prelude.{◌≡◌, ◌≢◌, ℕ, ◌+◌, ◌^◌, ◌<◌, [], List, OnOk};
ghost use Rattle.lrc_races_trace.specs.declared.event.Event.{Event};
ghost use Rattle.lrc_races_trace.specs.Trace.{At};
ghost use Rattle.lrc_races_trace.specs.Order.{Precedes};
ghost use Rattle.lrc_races_sure.specs.Sure.{AreSureToldAt};
ghost use Rattle.lrc_races_detector.specs.Clocks.{row, IsGained};
ghost use Rattle.lrc_races_detector.specs.Covers.{operation_of};
ghost use Rattle.lrc_races_detector.specs.Knowing.{AreVariables};
ghost use Rattle.lrc_races_detector.specs.Vectors.{entries};
ghost use Rattle.lrc_races_sure_pass.specs.Covers.{AreCovers};
ghost use Rattle.lrc_races_sure_pass.specs.Knowing.{Gathers, AreThreads, AreLocks, AreBarriers, AreWrites, IsAsked, IsReached, written};
ghost use Rattle.lrc_races_sure_pass.specs.Detecting.{HasTaken};

use lrc_races_detector::barriers::Barriers;
use lrc_races_detector::clocks::Clocks;
use lrc_races_detector::covers::Covers;
use lrc_races_detector::detector::{access, cover_behind, cover_of, level, receive};
use lrc_races_detector::joins::Joins;
use lrc_races_detector::variables::Variables;
use lrc_races_detector::vectors::Known;
use lrc_races_trace::event::{Event, Operation, Pair, Placed};
use std::alloc::{AllocError, Global};

/// The detector of sure races: what it stores of the events so far.
#[derive(Drop)]
pub struct SureDetector {
    /// The number of events so far.
    pub position: u64,
    /// By way of which events each thread was reached.
    pub threads: Clocks,
    /// For each lock, what the threads knew that released or posted it.
    pub locks: Clocks,
    /// What the threads knew that arrived at each barrier.
    pub barriers: Barriers,
    /// The last accesses of each variable.
    pub variables: Variables,
    /// For each variable, what was known at its last write.
    pub writes: Clocks,
    /// The last access of each variable, where all others lead to it.
    pub covers: Covers,
    /// How many threads were joined, so that what is known of all of them can be told in one.
    pub joins: Joins,
}

// Tells the sure pairs of an access, and notes it.
fn judge_access(
    variables: &mut Variables,
    covers: &mut Covers,
    variable: u32,
    known: Known<'_>,
    placed: Placed,
    is_write: bool,
    told: &mut Vec<Pair>,
) -> Result<(), AllocError>
    ensures { OnOk result ((events : List Event) → At events placed.position placed.event
        → placed.event.operation ≡ operation_of is_write variable
        → Gathers events (λ k. Precedes events k placed.position) (entries known.entry)
        → AreVariables events placed.position variables.old
        → AreCovers events placed.position covers.old
        → told.old.items ≡ []
        → AreVariables events (placed.position + 1) variables.new
        × AreCovers events (placed.position + 1) covers.new
        × AreSureToldAt events placed.position told.new.items) }
{
    let index = variable as usize;
    if covers.is_known(index, known) {
        variables.note(index, placed, is_write)?;
        covers.set(index, Some(cover_of(placed)))?;
        return Ok(());
    }
    access(variables, index, known, placed, is_write, told)?;
    covers.set(index, cover_behind(placed, is_write, told.as_slice()))?;
    Ok(())
}

// Tells the sure pairs of an event, and notes it.
fn judge(
    variables: &mut Variables,
    covers: &mut Covers,
    known: Known<'_>,
    placed: Placed,
    told: &mut Vec<Pair>,
) -> Result<(), AllocError>
    ensures { OnOk result ((events : List Event) → At events placed.position placed.event
        → Gathers events (λ k. Precedes events k placed.position) (entries known.entry)
        → AreVariables events placed.position variables.old
        → AreCovers events placed.position covers.old
        → told.old.items ≡ []
        → AreVariables events (placed.position + 1) variables.new
        × AreCovers events (placed.position + 1) covers.new
        × AreSureToldAt events placed.position told.new.items) }
{
    match placed.event.operation {
        Operation::Read(variable) => {
            judge_access(variables, covers, variable, known, placed, false, told)?;
            Ok(())
        }
        Operation::Write(variable) => {
            judge_access(variables, covers, variable, known, placed, true, told)?;
            Ok(())
        }
        _ => Ok(()),
    }
}

// The thread of a read comes to know what was known at the last write.
fn learn(threads: &mut Clocks, writes: &Clocks, event: Event) -> Result<(), AllocError>
    ensures { OnOk result (IsGained threads.old threads.new event.thread
        (written writes.now event.operation)) }
{
    match event.operation {
        Operation::Read(variable) => {
            threads.gain(event.thread as usize, writes.row(variable as usize))?;
            Ok(())
        }
        _ => Ok(()),
    }
}

// A variable that is written keeps what the thread knows.
fn give_write(writes: &mut Clocks, known: Known<'_>, event: Event) -> Result<(), AllocError>
    ensures { OnOk result ((events : List Event) (n : ℕ) → At events n event
        → Gathers events (λ k. k ≡ n) (entries known.entry)
        → AreWrites events n writes.old → AreWrites events (n + 1) writes.new) }
{
    match event.operation {
        Operation::Write(variable) => {
            writes.set(variable as usize, known)?;
            Ok(())
        }
        _ => Ok(()),
    }
}

// A thread that is forked comes to know what the thread knows that forks it.
fn give_thread(threads: &mut Clocks, event: Event) -> Result<(), AllocError>
    ensures { OnOk result ((events : List Event) (n : ℕ) → At events n event
        → IsReached events n event.thread threads.old
        → AreThreads events (n + 1) threads.new) }
{
    match event.operation {
        Operation::Fork(other) => {
            threads.hand(event.thread as usize, other as usize)?;
            Ok(())
        }
        _ => Ok(()),
    }
}

// A lock that is released or posted keeps what the thread knows.
fn give_lock(locks: &mut Clocks, known: Known<'_>, event: Event) -> Result<(), AllocError>
    ensures { OnOk result ((events : List Event) (n : ℕ) → At events n event
        → Gathers events (λ k. k ≡ n) (entries known.entry)
        → AreLocks events n locks.old → AreLocks events (n + 1) locks.new) }
{
    match event.operation {
        Operation::Release(lock) | Operation::Post(lock) => {
            locks.gain(lock as usize, known)?;
            Ok(())
        }
        _ => Ok(()),
    }
}

// A barrier at which the thread arrives keeps what it knows; where it departs, a cycle may be closed.
fn give_barrier(barriers: &mut Barriers, known: Known<'_>, event: Event) -> Result<(), AllocError>
    ensures { OnOk result ((events : List Event) (n : ℕ) → n + 1 < 2 ^ 64 → At events n event
        → Gathers events (λ k. k ≡ n) (entries known.entry)
        → AreBarriers events n barriers.old → AreBarriers events (n + 1) barriers.new) }
{
    let thread = event.thread as usize;
    match event.operation {
        Operation::Arrive(barrier) => {
            barriers.arrive(barrier as usize, thread, known)?;
            Ok(())
        }
        Operation::Depart(barrier) => {
            barriers.depart(barrier as usize, thread)?;
            Ok(())
        }
        _ => Ok(()),
    }
}

impl SureDetector {
    /// Returns a detector before any event.
    pub fn new(alloc: Global) -> SureDetector
        ensures { (events : List Event) → HasTaken events 0 result }
    {
        SureDetector {
            position: 0,
            threads: Clocks::new(alloc),
            locks: Clocks::new(alloc),
            barriers: Barriers::new(alloc),
            variables: Variables::new(alloc),
            writes: Clocks::new(alloc),
            covers: Covers::new(alloc),
            joins: Joins::new(alloc),
        }
    }

    // The thread of the event comes to know by way of what it is reached.
    fn ask(&mut self, event: Event) -> Result<(), AllocError>
        ensures asked { OnOk result ((events : List Event) (n : ℕ) → At events n event
            → HasTaken events n self.old
            → IsAsked events n event.thread self.new.threads) }
        ensures position { self.new.position ≡ self.old.position }
        ensures locks { self.new.locks ≡ self.old.locks }
        ensures barriers { self.new.barriers ≡ self.old.barriers }
        ensures variables { self.new.variables ≡ self.old.variables }
        ensures writes { self.new.writes ≡ self.old.writes }
        ensures covers { self.new.covers ≡ self.old.covers }
    {
        receive(&mut self.threads, &self.locks, &self.barriers, event)?;
        level(&mut self.threads, &mut self.joins, event, self.position)?;
        Ok(())
    }

    // The thread of the event comes to know of what it reads, and of the event.
    fn reach(&mut self, event: Event) -> Result<(), AllocError>
        requires { self.old.position + 1 < 2 ^ 64 }
        ensures reached { OnOk result ((events : List Event) (n : ℕ) → At events n event
            → self.old.position ≡ n
            → AreWrites events n self.old.writes
            → IsAsked events n event.thread self.old.threads
            → IsReached events n event.thread self.new.threads) }
        ensures position { self.new.position ≡ self.old.position }
        ensures locks { self.new.locks ≡ self.old.locks }
        ensures barriers { self.new.barriers ≡ self.old.barriers }
        ensures variables { self.new.variables ≡ self.old.variables }
        ensures writes { self.new.writes ≡ self.old.writes }
        ensures covers { self.new.covers ≡ self.old.covers }
    {
        learn(&mut self.threads, &self.writes, event)?;
        self.threads.mark(event.thread, self.position + 1)?;
        Ok(())
    }

    /// Takes the next event of a trace, and sets `told` to exactly the pairs that are reported of it as sure, in order. A
    /// detector takes fewer than 2^64 events. It fails if memory runs out, and then the detector and `told` are of no
    /// use.
    pub fn take(&mut self, event: Event, told: &mut Vec<Pair>) -> Result<(), AllocError>
        requires { self.old.position + 1 < 2 ^ 64 }
        ensures { OnOk result ((events : List Event) (n : ℕ) → At events n event
            → HasTaken events n self.old
            → HasTaken events (n + 1) self.new × AreSureToldAt events n told.new.items) }
    {
        told.clear();
        self.ask(event)?;
        let placed = Placed {
            position: self.position,
            event,
        };
        let asked = self.threads.row(event.thread as usize);
        judge(&mut self.variables, &mut self.covers, asked, placed, told)?;
        self.reach(event)?;
        let known = self.threads.row(event.thread as usize);
        give_write(&mut self.writes, known, event)?;
        give_lock(&mut self.locks, known, event)?;
        give_barrier(&mut self.barriers, known, event)?;
        give_thread(&mut self.threads, event)?;
        self.position += 1;
        Ok(())
    }
}
