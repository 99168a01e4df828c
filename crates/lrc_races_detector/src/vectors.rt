// Vectors: for each thread, one more than the last of its positions that is known, or 0 where none is. Vectors share what
// they know alike.
ghost use Rattle.std.specs.Prelude.{◌≡◌, ◌≢◌, ℕ, [], IfOk, OnOk, length, max, slice_index};
ghost use Rattle.std.specs.Bool.{OnTrue};
ghost use Rattle.lrc_races_detector.specs.Chunks.{IsChunkRaised, IsLowered, chunks_of, values};
ghost use Rattle.lrc_races_detector.specs.Vectors.{IsPut, IsRaised, apart_at, entries, greatest, held, rest};

use crate::chunks::{Chunk, join_all, level, list, lower, raise, share_all, value_of};
use std::alloc::{AllocError, Global};
use std::rc::Rc;

/// How many entries are recent, at most, where one more is raised.
const FEW: usize = 16;

/// How many are, at most, where the entry that stands apart is put among them: a copy has room for it.
const MANY: usize = 32;

/// The entry of one thread.
#[derive(Clone, Copy)]
pub struct Entry {
    pub thread: u32,
    pub value: u64,
}

/// What a vector knows.
#[derive(Clone, Copy)]
pub struct Known<'a> {
    /// None knows nothing.
    vector: Option<&'a Vector>,
}

/// A vector. What it knows of a thread is the greatest of what its parts say.
///
/// One entry stands apart from the others, which reach up to the last thread of which something is known. So a thread that
/// knows only itself has no entry for each thread before it. A base is never written to, and copies of the vector share it.
/// What was raised since stands among a few recent entries, until they are put into a new base. So what a thread has that was
/// forked, and what one of them has that was joined by the one that forked it, is little, however many threads there are.
/// Once a chunk of threads is level, one step tells what is known of all of them.
#[derive(Drop)]
pub struct Vector {
    apart: Option<Entry>,
    recent: Vec<Entry>,
    others: Vec<Chunk>,
    base: Option<Rc<Vec<Chunk>>>,
}

// What the entry that stands apart says of a thread.
fn apart_at(apart: Option<Entry>, thread: u32) -> u64
    ensures { result ≡ apart_at apart thread }
{
    match apart {
        Some(entry) => {
            if entry.thread == thread {
                return entry.value;
            }
            0
        }
        None => 0,
    }
}

// What the recent entries say of a thread.
fn greatest(recent: &[Entry], thread: u32) -> u64
    ensures { result ≡ greatest recent.now thread (length recent.now) }
{
    let mut most = 0;
    for entry in recent {
        most = apart_at(Some(*entry), thread).max(most);
    }
    most
}

// Raises entries, those that are less. It fails if memory runs out.
fn raise_all(chunks: &mut Vec<Chunk>, recent: &[Entry]) -> Result<(), AllocError>
    ensures { OnOk result ((thread : ℕ) → slice_index (values chunks.new.items) thread
        ≡ max (slice_index (values chunks.old.items) thread)
        (greatest recent.now thread (length recent.now))) }
{
    for entry in recent {
        raise(chunks, *entry)?;
    }
    Ok(())
}

// The chunks of a base.
fn chunks_of(base: &Option<Rc<Vec<Chunk>>>) -> &[Chunk]
    ensures { result.now ≡ chunks_of base.now }
{
    match base {
        Some(chunks) => chunks.as_ref().as_slice(),
        None => &[],
    }
}

// Shares a base.
fn shared(base: &Option<Rc<Vec<Chunk>>>) -> Result<Option<Rc<Vec<Chunk>>>, AllocError>
    ensures { IfOk result (λ copy. chunks_of copy ≡ chunks_of base.now) }
{
    match base {
        Some(chunks) => Ok(Some(chunks.clone()?)),
        None => Ok(None),
    }
}

impl<'a> Known<'a> {
    /// Returns what a vector knows that knows nothing.
    pub fn nothing() -> Known<'a>
        ensures { entries result ≡ [] }
    {
        Known { vector: None }
    }

    /// Returns what is known of a thread.
    pub fn of(self, thread: u32) -> u64
        ensures { result ≡ slice_index (entries self.entry) thread }
    {
        match self.vector {
            Some(vector) => vector.of(thread),
            None => 0,
        }
    }

    /// Returns what is known of each thread, in a list. It fails if memory runs out.
    pub fn list(self, alloc: Global) -> Result<Vec<u64>, AllocError>
        ensures { IfOk result (λ list. (thread : ℕ)
            → slice_index list.items thread ≡ slice_index (entries self.entry) thread) }
    {
        match self.vector {
            Some(vector) => vector.list(alloc),
            None => Ok(Vec::new(alloc)),
        }
    }
}

impl Vector {
    /// Creates a vector that knows nothing.
    pub fn new(alloc: Global) -> Vector
        ensures { held result ≡ [] }
    {
        Vector {
            apart: None,
            recent: Vec::new(alloc),
            others: Vec::new(alloc),
            base: None,
        }
    }

    /// Whether it knows nothing. It may say no where it does.
    pub(crate) fn is_nothing(&self) -> bool
        ensures { OnTrue result (held self.now ≡ []) }
    {
        self.apart.is_none()
            && self.recent.is_empty()
            && self.others.is_empty()
            && self.base.is_none()
    }

    /// Returns what it knows.
    pub fn known(&self) -> Known<'_>
        ensures { entries result ≡ held self.now }
    {
        Known { vector: Some(self) }
    }

    // What it knows of a thread, but for the entry that stands apart.
    fn rest(&self, thread: u32) -> u64
        ensures { result ≡ slice_index (rest self.now) thread }
    {
        let own = value_of(self.others.as_slice(), thread as usize);
        let shared = value_of(chunks_of(&self.base), thread as usize);
        let recent = greatest(self.recent.as_slice(), thread);
        own.max(shared).max(recent)
    }

    // What it knows of a thread.
    fn of(&self, thread: u32) -> u64
        ensures { result ≡ slice_index (held self.now) thread }
    {
        self.rest(thread).max(apart_at(self.apart, thread))
    }

    // What it knows, but for the entry that stands apart, in chunks.
    fn chunks(&self) -> Result<Vec<Chunk>, AllocError>
        ensures { IfOk result (λ chunks. (thread : ℕ)
            → slice_index (values chunks.items) thread ≡ slice_index (rest self.now) thread) }
    {
        let mut all = Vec::new(*self.others.allocator());
        share_all(&mut all, chunks_of(&self.base))?;
        join_all(&mut all, self.others.as_slice())?;
        raise_all(&mut all, self.recent.as_slice())?;
        Ok(all)
    }

    // What it knows of each thread, in a list.
    fn list(&self, alloc: Global) -> Result<Vec<u64>, AllocError>
        ensures { IfOk result (λ list. (thread : ℕ)
            → slice_index list.items thread ≡ slice_index (held self.now) thread) }
    {
        let mut all = self.chunks()?;
        match self.apart {
            Some(entry) => {
                raise(&mut all, entry)?;
                list(alloc, all.as_slice())
            }
            None => list(alloc, all.as_slice()),
        }
    }

    // Puts all but the entry that stands apart into a new base.
    fn fold(&mut self) -> Result<(), AllocError>
        ensures rest { OnOk result ((thread : ℕ)
            → slice_index (rest self.new) thread ≡ slice_index (rest self.old) thread) }
        ensures apart { self.new.apart ≡ self.old.apart }
    {
        let alloc = *self.others.allocator();
        let chunks = self.chunks()?;
        self.base = Some(Rc::new(alloc, chunks)?);
        self.others.clear();
        self.recent.clear();
        Ok(())
    }

    // Raises all entries of a chunk that are less than this, and puts all but the one that stands apart into a new
    // base.
    fn level_rest(&mut self, chunk: usize, value: u64) -> Result<(), AllocError>
        ensures rest { OnOk result (IsChunkRaised (rest self.old) (rest self.new) chunk value) }
        ensures apart { self.new.apart ≡ self.old.apart }
    {
        let alloc = *self.others.allocator();
        let mut all = self.chunks()?;
        level(&mut all, chunk, value)?;
        self.base = Some(Rc::new(alloc, all)?);
        self.others.clear();
        self.recent.clear();
        Ok(())
    }

    /// Raises the entries of all threads of a chunk that are less than this. It fails if memory runs out.
    pub(crate) fn level(&mut self, chunk: usize, value: u64) -> Result<(), AllocError>
        ensures { OnOk result (IsChunkRaised (held self.old) (held self.new) chunk value) }
    {
        self.level_rest(chunk, value)
    }

    // Leaves fewer recent entries than this.
    fn trim(&mut self, most: usize) -> Result<(), AllocError>
        ensures rest { OnOk result ((thread : ℕ)
            → slice_index (rest self.new) thread ≡ slice_index (rest self.old) thread) }
        ensures apart { self.new.apart ≡ self.old.apart }
    {
        if self.recent.len() < most {
            return Ok(());
        }
        self.fold()
    }

    // Raises an entry among the recent ones, of which there are so many at most.
    fn note(&mut self, entry: Entry, most: usize) -> Result<(), AllocError>
        ensures rest { OnOk result (IsRaised (rest self.old) (rest self.new) entry.thread entry.value) }
        ensures apart { self.new.apart ≡ self.old.apart }
    {
        self.trim(most)?;
        self.recent.push(entry)?;
        Ok(())
    }

    /// Raises an entry, if it is less. It fails if memory runs out.
    pub(crate) fn raise(&mut self, entry: Entry) -> Result<(), AllocError>
        ensures { OnOk result (IsRaised (held self.old) (held self.new) entry.thread entry.value) }
    {
        self.note(entry, FEW)
    }

    // Raises an entry, if it is less. It stands apart, if no other does.
    fn add(&mut self, entry: Entry) -> Result<(), AllocError>
        ensures { OnOk result (IsRaised (held self.old) (held self.new) entry.thread entry.value) }
    {
        match self.apart {
            Some(apart) => {
                if apart.thread == entry.thread {
                    self.apart = Some(Entry {
                        thread: apart.thread,
                        value: apart.value.max(entry.value),
                    });
                    return Ok(());
                }
                raise(&mut self.others, entry)
            }
            None => {
                self.apart = Some(entry);
                Ok(())
            }
        }
    }

    // Adds what the other knows, but for the entry that stands apart.
    fn join_rest(&mut self, more: &Vector) -> Result<(), AllocError>
        ensures rest { OnOk result ((thread : ℕ) → slice_index (rest self.new) thread
            ≡ max (slice_index (rest self.old) thread) (slice_index (rest more.now) thread)) }
        ensures apart { self.new.apart ≡ self.old.apart }
    {
        join_all(&mut self.others, chunks_of(&more.base))?;
        join_all(&mut self.others, more.others.as_slice())?;
        raise_all(&mut self.others, more.recent.as_slice())
    }

    /// Adds what another vector knows: each entry becomes the greater of the two. It fails if memory runs out.
    pub fn join(&mut self, more: Known<'_>) -> Result<(), AllocError>
        ensures { OnOk result ((thread : ℕ)
            → slice_index (held self.new) thread
            ≡ max (slice_index (held self.old) thread) (slice_index (entries more.entry) thread)) }
    {
        let Some(other) = more.vector else {
            return Ok(());
        };
        self.join_rest(other)?;
        match other.apart {
            Some(entry) => self.add(entry),
            None => Ok(()),
        }
    }

    /// Comes to know exactly this. It fails if memory runs out.
    pub fn copy(&mut self, known: Known<'_>) -> Result<(), AllocError>
        ensures { OnOk result (held self.new ≡ entries known.entry) }
    {
        self.recent.clear();
        let Some(other) = known.vector else {
            self.apart = None;
            self.others.clear();
            self.base = None;
            return Ok(());
        };
        self.apart = other.apart;
        if !other.recent.is_empty() {
            self.recent
                .reserve_exact(other.recent.len().saturating_add(1))?;
        }
        self.recent.extend_from_slice(other.recent.as_slice())?;
        self.base = shared(&other.base)?;
        share_all(&mut self.others, other.others.as_slice())
    }

    // Puts the entry that stands apart among the others, unless it is of this thread.
    fn settle(&mut self, thread: u32) -> Result<(), AllocError>
        ensures { OnOk result ((other : ℕ) → other ≢ thread
            → slice_index (rest self.new) other ≡ slice_index (held self.old) other) }
    {
        match self.apart {
            Some(entry) => {
                if entry.thread == thread {
                    return Ok(());
                }
                self.note(entry, MANY)
            }
            None => Ok(()),
        }
    }

    // Sets an entry to 0, if it is greater than this. It is not the one that stands apart.
    fn lower(&mut self, entry: Entry) -> Result<(), AllocError>
        ensures { OnOk result (IsLowered (rest self.old) (rest self.new) entry.thread entry.value) }
    {
        if entry.value < self.rest(entry.thread) {
            let mut all = self.chunks()?;
            lower(&mut all, entry)?;
            self.others = all;
            self.base = None;
            self.recent.clear();
        }
        Ok(())
    }

    /// Sets the entry of a thread, which stands apart from then on. It fails if memory runs out.
    pub fn put(&mut self, thread: u32, value: u64) -> Result<(), AllocError>
        ensures { OnOk result (IsPut (held self.old) (held self.new) thread value) }
    {
        self.settle(thread)?;
        self.lower(Entry { thread, value })?;
        self.apart = Some(Entry { thread, value });
        Ok(())
    }
}
