// Entries in chunks of 128. The values of a chunk are not written to, so vectors share them: a copy of one has a pointer
// for each chunk, and a change makes anew the chunk of the entry.
ghost use Rattle.std.specs.Prelude.{◌≡◌, ◌≢◌, ℕ, ◌<◌, ◌≤◌, ◌/◌, IfOk, OnOk, max, length, slice_get, slice_index};
ghost use Rattle.std.specs.Bool.{OnTrue};
ghost use Rattle.lrc_races_detector.specs.Chunks.{listed, entry_at, entry_in, value_of, values, IsAppended, IsChunkJoined, IsChunkPut, IsChunkRaised, IsLowered, IsSpelled};
ghost use Rattle.lrc_races_detector.specs.Vectors.{IsPut, IsRaised};

use crate::vectors::Entry;
use std::alloc::{AllocError, Global};
use std::rc::Rc;

/// How many entries a chunk has, at most.
const SIZE: usize = 128;

/// The entries of threads that stand together.
///
/// An entry is the greater of the floor and its value. Once a vector knows all of these threads, its chunk is level: it
/// has a floor and no values. What is done to a level chunk takes one step, and not one for each entry.
#[derive(Drop)]
pub struct Chunk {
    floor: u64,
    values: Option<Rc<Vec<u64>>>,
}

// Adds to entries what others say: each becomes the greater of the two. It fails if memory runs out.
fn join(known: &mut Vec<u64>, more: &[u64]) -> Result<(), AllocError>
    ensures { OnOk result ((thread : ℕ)
        → slice_index known.new.items thread
        ≡ max (slice_index known.old.items thread) (slice_index more.now thread)) }
{
    for (thread, value) in more.iter().enumerate() {
        if thread < known.len() {
            if known[thread] < *value {
                known[thread] = *value;
            }
        } else {
            known.push(*value)?;
        }
    }
    Ok(())
}

// Sets an entry of a chunk. It fails if memory runs out.
fn put_entry(entries: &mut Vec<u64>, place: usize, value: u64) -> Result<(), AllocError>
    requires { place < 128 }
    ensures { OnOk result (IsPut entries.old.items entries.new.items place value) }
{
    if entries.len() <= place {
        entries.resize(place + 1, 0)?;
    }
    entries[place] = value;
    Ok(())
}

// Whether no entry is less than the other's.
fn has_more(known: &[u64], more: &[u64]) -> bool
    ensures { OnTrue result ((place : ℕ) → slice_index more.now place ≤ slice_index known.now place) }
{
    if known.len() < more.len() {
        return false;
    }
    for (place, value) in more.iter().enumerate() {
        if known[place] < *value {
            return false;
        }
    }
    true
}

// Whether no entry is greater than this.
fn is_most(most: u64, entries: &[u64]) -> bool
    ensures { OnTrue result ((place : ℕ) → slice_index entries.now place ≤ most) }
{
    for value in entries {
        if most < *value {
            return false;
        }
    }
    true
}

// Whether the entries are those of the other, as it is where both are one chunk. It goes through all, which takes less time than
// to stop at one.
fn is_same(known: &[u64], more: &[u64]) -> bool
    ensures { OnTrue result ((place : ℕ) → slice_index more.now place ≡ slice_index known.now place) }
{
    if known.len() != more.len() {
        return false;
    }
    let mut differs = false;
    for (place, value) in more.iter().enumerate() {
        if known[place] != *value {
            differs = true;
        }
    }
    !differs
}

// The values of a chunk.
fn listed(values: &Option<Rc<Vec<u64>>>) -> &[u64]
    ensures { result.now ≡ listed values.now }
{
    match values {
        Some(list) => list.as_ref().as_slice(),
        None => &[],
    }
}

// Shares the values of a chunk.
fn shared(values: &Option<Rc<Vec<u64>>>) -> Result<Option<Rc<Vec<u64>>>, AllocError>
    ensures { IfOk result (λ copy. listed copy ≡ listed values.now) }
{
    match values {
        Some(list) => Ok(Some(list.clone()?)),
        None => Ok(None),
    }
}

// Whether one has at least the values of the other.
fn has_values(known: &Rc<Vec<u64>>, more: &Rc<Vec<u64>>) -> bool
    ensures { OnTrue result ((place : ℕ)
        → slice_index more.now.value.items place ≤ slice_index known.now.value.items place) }
{
    let own = known.as_ref().as_slice();
    let others = more.as_ref().as_slice();
    if Rc::ptr_eq(known, more) && is_same(own, others) {
        return true;
    }
    has_more(own, others)
}

impl Chunk {
    // The chunk in which all entries are the same.
    fn even(floor: u64) -> Chunk
        ensures { (place : ℕ) → entry_at result place ≡ floor }
    {
        Chunk {
            floor,
            values: None,
        }
    }

    // An entry.
    fn entry(&self, place: usize) -> u64
        ensures { result ≡ entry_at self.now place }
    {
        match listed(&self.values).get(place) {
            Some(value) => self.floor.max(*value),
            None => self.floor,
        }
    }

    // Shares it. It fails if it is shared too often.
    fn share(&self) -> Result<Chunk, AllocError>
        ensures { IfOk result (λ copy. (place : ℕ) → entry_at copy place ≡ entry_at self.now place) }
    {
        Ok(Chunk {
            floor: self.floor,
            values: shared(&self.values)?,
        })
    }

    // Whether no entry is less than the other's. It may say no where none is.
    fn covers(&self, more: &Chunk) -> bool
        ensures { OnTrue result ((place : ℕ) → entry_at more.now place ≤ entry_at self.now place) }
    {
        if self.floor < more.floor {
            return false;
        }
        match &self.values {
            Some(own) => match &more.values {
                Some(others) => has_values(own, others),
                None => true,
            },
            None => is_most(self.floor, listed(&more.values)),
        }
    }

    // Returns it joined with another, or shares that, if that says it all.
    fn joined(&self, alloc: Global, more: &Chunk) -> Result<Chunk, AllocError>
        ensures { IfOk result (λ both. (place : ℕ) → entry_at both place
            ≡ max (entry_at self.now place) (entry_at more.now place)) }
    {
        if more.covers(self) {
            return more.share();
        }
        let mut both = Vec::from_slice(alloc, listed(&self.values))?;
        join(&mut both, listed(&more.values))?;
        Ok(Chunk {
            floor: self.floor.max(more.floor),
            values: Some(Rc::new(alloc, both)?),
        })
    }

    // Returns it with no entry less than this. Where none is greater, it is level.
    fn raised(&self, value: u64) -> Result<Chunk, AllocError>
        ensures { IfOk result (λ chunk. (place : ℕ)
            → entry_at chunk place ≡ max (entry_at self.now place) value) }
    {
        let floor = self.floor.max(value);
        if is_most(floor, listed(&self.values)) {
            return Ok(Chunk::even(floor));
        }
        Ok(Chunk {
            floor,
            values: shared(&self.values)?,
        })
    }

    // Spells its entries out, with room for so many. It fails if memory runs out.
    fn spelled(&self, alloc: Global, room: usize) -> Result<Vec<u64>, AllocError>
        ensures { IfOk result (λ entries. (place : ℕ) → place < 128
            → slice_index entries.items place ≡ entry_at self.now place) }
    {
        let own = listed(&self.values);
        if self.floor == 0 {
            let mut entries = Vec::with_capacity(alloc, own.len().max(room))?;
            entries.extend_from_slice(own)?;
            return Ok(entries);
        }
        let mut entries = Vec::with_capacity(alloc, SIZE)?;
        append(&mut entries, self)?;
        Ok(entries)
    }

    // Returns its entries, of which one is another. It fails if memory runs out.
    fn with_entry(&self, alloc: Global, place: usize, value: u64) -> Result<Vec<u64>, AllocError>
        requires { place < 128 }
        ensures { IfOk result (λ entries. IsSpelled self.now entries.items place value) }
    {
        let mut entries = self.spelled(alloc, place + 1)?;
        put_entry(&mut entries, place, value)?;
        Ok(entries)
    }
}

/// Returns what the chunks say of a thread.
pub(crate) fn value_of(chunks: &[Chunk], thread: usize) -> u64
    ensures { result ≡ value_of chunks.now thread }
{
    match chunks.get(thread / SIZE) {
        Some(chunk) => chunk.entry(thread % SIZE),
        None => 0,
    }
}

// Makes room for a chunk.
fn reach(chunks: &mut Vec<Chunk>, index: usize) -> Result<(), AllocError>
    ensures { OnOk result ((index < length chunks.new.items)
        × ((other place : ℕ) → entry_in chunks.new.items other place
        ≡ entry_in chunks.old.items other place)) }
{
    while chunks.len() <= index {
        chunks.push(Chunk::even(0))?;
    }
    Ok(())
}

// Sets a chunk that there is.
fn set_chunk(chunks: &mut Vec<Chunk>, index: usize, chunk: Chunk)
    requires { index < length chunks.old.items }
    ensures long { length chunks.new.items ≡ length chunks.old.items }
    ensures put { IsChunkPut chunks.old.items chunks.new.items index chunk }
{
    chunks[index] = chunk;
}

// Sets an entry. It fails if memory runs out.
fn put(chunks: &mut Vec<Chunk>, thread: usize, value: u64) -> Result<(), AllocError>
    ensures { OnOk result (IsPut (values chunks.old.items) (values chunks.new.items) thread value) }
{
    let alloc = *chunks.allocator();
    let index = thread / SIZE;
    reach(chunks, index)?;
    let entries = chunks[index].with_entry(alloc, thread % SIZE, value)?;
    let chunk = Chunk {
        floor: 0,
        values: Some(Rc::new(alloc, entries)?),
    };
    set_chunk(chunks, index, chunk);
    Ok(())
}

/// Raises all entries of a chunk that are less than this. It fails if memory runs out.
pub(crate) fn level(chunks: &mut Vec<Chunk>, index: usize, value: u64) -> Result<(), AllocError>
    ensures { OnOk result (IsChunkRaised (values chunks.old.items) (values chunks.new.items)
        index value) }
{
    reach(chunks, index)?;
    let chunk = chunks[index].raised(value)?;
    set_chunk(chunks, index, chunk);
    Ok(())
}

/// Raises an entry, if it is less. It fails if memory runs out.
pub(crate) fn raise(chunks: &mut Vec<Chunk>, entry: Entry) -> Result<(), AllocError>
    ensures { OnOk result (IsRaised (values chunks.old.items) (values chunks.new.items)
        entry.thread entry.value) }
{
    let thread = entry.thread as usize;
    if value_of(chunks.as_slice(), thread) < entry.value {
        return put(chunks, thread, entry.value);
    }
    Ok(())
}

/// Sets an entry to 0, if it is greater than this. It fails if memory runs out.
pub(crate) fn lower(chunks: &mut Vec<Chunk>, entry: Entry) -> Result<(), AllocError>
    ensures { OnOk result (IsLowered (values chunks.old.items) (values chunks.new.items)
        entry.thread entry.value) }
{
    let thread = entry.thread as usize;
    if entry.value < value_of(chunks.as_slice(), thread) {
        return put(chunks, thread, 0);
    }
    Ok(())
}

// Adds to a chunk, or behind all chunks, what another says. Where the chunk says it all, it stays. It fails if memory
// runs out.
fn join_chunk(
    alloc: Global,
    chunks: &mut Vec<Chunk>,
    index: usize,
    more: &Chunk,
) -> Result<(), AllocError>
    requires { index ≤ length chunks.old.items }
    ensures { OnOk result (IsChunkJoined chunks.old.items chunks.new.items index more.now) }
{
    if chunks.len() <= index {
        chunks.push(more.share()?)?;
        return Ok(());
    }
    if chunks[index].covers(more) {
        return Ok(());
    }
    let both = chunks[index].joined(alloc, more)?;
    set_chunk(chunks, index, both);
    Ok(())
}

/// Adds to chunks what others say: each entry becomes the greater of the two. It fails if memory runs out.
pub(crate) fn join_all(chunks: &mut Vec<Chunk>, more: &[Chunk]) -> Result<(), AllocError>
    ensures { OnOk result ((index place : ℕ) → entry_in chunks.new.items index place
        ≡ max (entry_in chunks.old.items index place) (entry_in more.now index place)) }
{
    let alloc = *chunks.allocator();
    chunks.reserve_exact(more.len().saturating_sub(chunks.len()))?;
    for (index, chunk) in more.iter().enumerate() {
        join_chunk(alloc, chunks, index, chunk)?;
    }
    Ok(())
}

/// Shares all chunks of another. It fails if memory runs out.
pub(crate) fn share_all(chunks: &mut Vec<Chunk>, more: &[Chunk]) -> Result<(), AllocError>
    ensures { OnOk result (values chunks.new.items ≡ values more.now) }
{
    chunks.clear();
    chunks.reserve_exact(more.len())?;
    for chunk in more {
        chunks.push(chunk.share()?)?;
    }
    Ok(())
}

// Adds all entries of a chunk to a list.
fn append(list: &mut Vec<u64>, chunk: &Chunk) -> Result<(), AllocError>
    ensures { OnOk result (IsAppended 128 list.old.items chunk.now list.new.items) }
{
    for place in 0..SIZE {
        list.push(chunk.entry(place))?;
    }
    Ok(())
}

/// Returns the entries, in a list. It fails if memory runs out.
pub(crate) fn list(alloc: Global, chunks: &[Chunk]) -> Result<Vec<u64>, AllocError>
    ensures { IfOk result (λ list. (thread : ℕ)
        → slice_index list.items thread ≡ slice_index (values chunks.now) thread) }
{
    let mut list = Vec::new(alloc);
    for chunk in chunks {
        append(&mut list, chunk)?;
    }
    Ok(list)
}
