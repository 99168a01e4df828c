// Vectors of threads, or of locks.
ghost use Rattle.std.specs.Prelude.{◌≡◌, ℕ, ◌<◌, ◌≤◌, ◌+◌, ◌^◌, ◌/◌, [], IfSome, OnOk, Option, length, slice_get, slice_index, true};
ghost use Rattle.std.specs.Bool.{OnTrue};
ghost use Rattle.lrc_races_detector.specs.Within.{row_in, within_at, AreWithin, IsWithin, IsWithinSet};

use crate::vectors::{Entry, Known, Vector};
use std::alloc::{AllocError, Global};

/// How many threads a chunk has.
const SIZE: u32 = 128;

/// A vector for each index: for each thread, the last of its positions that is known there plus one, or 0 if none is.
#[derive(Drop)]
pub struct Clocks {
    rows: Vec<Vector>,
    // For each index, another at which all is known that is known here, but for its own entry: a thread that is forked knows
    // what the other knew, and a join by that has to raise one entry alone.
    within: Vec<Option<usize>>,
    // Whether that is so.
    holds: bool,
    ghost inside: { AreWithin rows.items within.items holds },
}

// Makes a row for this index, where there is none.
fn reach(rows: &mut Vec<Vector>, index: usize) -> Result<(), AllocError>
    ensures { OnOk result ((index < length rows.new.items)
        × ((other : ℕ) → row_in rows.new.items other ≡ row_in rows.old.items other)) }
{
    let alloc = *rows.allocator();
    while rows.len() <= index {
        rows.push(Vector::new(alloc))?;
    }
    Ok(())
}

// From then on another is kept of the one.
fn keep(within: &mut Vec<Option<usize>>, one: usize, other: usize) -> Result<(), AllocError>
    ensures { OnOk result (IsWithinSet within.old.items within.new.items one (Option.Some other)) }
{
    while within.len() <= one {
        within.push(None)?;
    }
    within[one] = Some(other);
    Ok(())
}

// From then on none is.
fn leave(within: &mut Vec<Option<usize>>, one: usize)
    ensures { IsWithinSet within.old.items within.new.items one Option.None }
{
    if one < within.len() {
        within[one] = None;
    }
}

// The other that is kept of one.
fn other_of(within: &[Option<usize>], one: usize) -> Option<usize>
    ensures { result ≡ within_at (slice_get within.now one) }
{
    match within.get(one) {
        Some(other) => *other,
        None => None,
    }
}

// The thread that has this index.
fn thread_of(index: usize) -> Option<u32>
    ensures { IfSome result (λ thread. thread ≡ index) }
{
    match u32::try_from(index) {
        Ok(thread) => Some(thread),
        Err(_) => None,
    }
}

// Whether it holds still, where an entry becomes another.
fn is_still(holds: bool, before: u64, after: u64) -> bool
    ensures { OnTrue result ((holds ≡ true) × (before ≤ after)) }
{
    holds && before <= after
}

impl Clocks {
    ghost use Rattle.lrc_races_detector.specs.Clocks.{row, IsGained, IsLevelled, IsReplaced, IsRowLevelled, IsRowRaised, IsMarked};
    ghost use Rattle.lrc_races_detector.specs.Vectors.{entries};

    /// Returns the clocks that know nothing.
    pub fn new(alloc: Global) -> Clocks
        ensures { result.rows.items ≡ [] }
    {
        Clocks {
            rows: Vec::new(alloc),
            within: Vec::new(alloc),
            holds: true,
        }
    }

    /// Returns what is known at this index.
    pub fn row(&self, index: usize) -> Known<'_>
        ensures { entries result ≡ row self.now index }
    {
        match self.rows.get(index) {
            Some(row) => row.known(),
            None => Known::nothing(),
        }
    }

    /// Adds to what is known at this index: each entry becomes the greater of the two. It fails if memory runs out.
    pub fn gain(&mut self, index: usize, known: Known<'_>) -> Result<(), AllocError>
        ensures { OnOk result (IsGained self.old self.new index (entries known.entry)) }
    {
        let holds = self.holds;
        self.holds = false;
        reach(&mut self.rows, index)?;
        self.rows[index].join(known)?;
        leave(&mut self.within, index);
        self.holds = holds;
        Ok(())
    }

    /// Sets what is known at this index. It fails if memory runs out.
    pub fn set(&mut self, index: usize, known: Known<'_>) -> Result<(), AllocError>
        ensures { OnOk result (IsReplaced self.old self.new index (entries known.entry)) }
    {
        self.holds = false;
        reach(&mut self.rows, index)?;
        self.rows[index].copy(known)?;
        Ok(())
    }

    // Whether all that is known at one index is known at the other, but for its own entry. It may say no where it is.
    fn is_within(&self, one: usize, other: usize) -> bool
        ensures { OnTrue result (IsWithin self.now.rows.items one other) }
    {
        if self.holds
            && let Some(kept) = other_of(self.within.as_slice(), one)
        {
            return kept == other;
        }
        false
    }

    // Raises one entry of what is known at this index.
    fn raise(&mut self, index: usize, entry: Entry) -> Result<(), AllocError>
        ensures { OnOk result (IsRowRaised self.old self.new index entry.thread entry.value) }
    {
        let holds = self.holds;
        self.holds = false;
        reach(&mut self.rows, index)?;
        self.rows[index].raise(entry)?;
        leave(&mut self.within, index);
        self.holds = holds;
        Ok(())
    }

    // Whether nothing is known at this index. It may say no where it is.
    fn is_nothing(&self, index: usize) -> bool
        ensures { OnTrue result (row self.now index ≡ []) }
    {
        match self.rows.get(index) {
            Some(row) => row.is_nothing(),
            None => true,
        }
    }

    // At one index it becomes known what is known at the other, where nothing was.
    fn begin(&mut self, from: usize, to: usize) -> Result<(), AllocError>
        requires { row self.old to ≡ [] }
        ensures { OnOk result (IsReplaced self.old self.new to (row self.old from)) }
    {
        let holds = self.holds;
        self.holds = false;
        let mut known = Vector::new(*self.rows.allocator());
        known.copy(self.row(from))?;
        reach(&mut self.rows, to)?;
        self.rows[to] = known;
        keep(&mut self.within, to, from)?;
        self.holds = holds;
        Ok(())
    }

    // Adds what is known at one index to what is known at the other.
    fn add(&mut self, from: usize, to: usize) -> Result<(), AllocError>
        ensures { OnOk result (IsGained self.old self.new to (row self.old from)) }
    {
        let mut known = Vector::new(*self.rows.allocator());
        known.copy(self.row(from))?;
        self.gain(to, known.known())?;
        Ok(())
    }

    /// Adds what is known at one index to what is known at another. It fails if memory runs out.
    pub fn hand(&mut self, from: usize, to: usize) -> Result<(), AllocError>
        ensures { OnOk result (IsGained self.old self.new to (row self.old from)) }
    {
        if self.is_nothing(to) {
            return self.begin(from, to);
        }
        if let Some(thread) = thread_of(from) {
            if self.is_within(from, to) {
                let value = self.row(from).of(thread);
                return self.raise(to, Entry { thread, value });
            }
        }
        self.add(from, to)
    }

    /// Sets what a thread knows of itself. It fails if memory runs out.
    pub fn mark(&mut self, thread: u32, value: u64) -> Result<(), AllocError>
        ensures { OnOk result (IsMarked self.old self.new thread value) }
    {
        let index = thread as usize;
        let known = self.row(index).of(thread);
        let holds = is_still(self.holds, known, value);
        self.holds = false;
        reach(&mut self.rows, index)?;
        self.rows[index].put(thread, value)?;
        self.holds = holds;
        Ok(())
    }

    // Whether at this index no less is known of each thread of a chunk than that knows of itself.
    fn knows_all(&self, index: usize, first: u32) -> bool
        requires { (first + 128) ≤ 2 ^ 32 }
        ensures { OnTrue result ((thread : ℕ) → first ≤ thread → thread < first + 128
            → slice_index (row self.now thread) thread ≤ slice_index (row self.now index) thread) }
    {
        for place in 0..SIZE {
            let thread = first + place;
            if self.row(index).of(thread) < self.row(thread as usize).of(thread) {
                return false;
            }
        }
        true
    }

    // Raises the entries of all threads of a chunk in what is known at this index.
    fn level_row(&mut self, index: usize, chunk: usize, value: u64) -> Result<(), AllocError>
        ensures { OnOk result (IsRowLevelled self.old self.new index chunk value) }
    {
        let holds = self.holds;
        self.holds = false;
        reach(&mut self.rows, index)?;
        self.rows[index].level(chunk, value)?;
        leave(&mut self.within, index);
        self.holds = holds;
        Ok(())
    }

    /// Where at an index no less is known of each thread of a thread's chunk than that knows of itself, all these entries
    /// become no less than the value. It fails if memory runs out.
    pub fn level(&mut self, index: usize, thread: u32, value: u64) -> Result<(), AllocError>
        ensures { OnOk result (IsLevelled self.old self.new index (thread / 128) value) }
    {
        let chunk = thread / SIZE;
        if self.knows_all(index, chunk * SIZE) {
            return self.level_row(index, chunk as usize, value);
        }
        Ok(())
    }
}
