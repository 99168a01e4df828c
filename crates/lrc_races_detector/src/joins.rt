// How many threads of each chunk were joined, so that no chunk is tried of which one surely runs still.
ghost use Rattle.std.specs.Prelude.{◌≡◌, ◌<◌, ◌+◌, ◌-◌, ◌^◌, ◌/◌, [], OnOk, min, slice_index};
ghost use Rattle.lrc_races_detector.specs.Vectors.{IsPut};

use std::alloc::{AllocError, Global};

/// How many threads a chunk has.
const SIZE: u32 = 128;

/// After how many more a chunk is tried again.
const MORE: u32 = 32;

/// For each chunk of threads how often one of them was joined.
#[derive(Drop)]
pub struct Joins {
    counts: Vec<u32>,
}

// The count of a chunk.
fn count_of(counts: &[u32], chunk: usize) -> u32
    ensures { result ≡ slice_index counts.now chunk }
{
    match counts.get(chunk) {
        Some(count) => *count,
        None => 0,
    }
}

// Sets the count of a chunk.
fn set_count(counts: &mut Vec<u32>, chunk: usize, count: u32) -> Result<(), AllocError>
    requires { chunk < 2 ^ 32 }
    ensures { OnOk result (IsPut counts.old.items counts.new.items chunk count) }
{
    if counts.len() <= chunk {
        counts.resize(chunk + 1, 0)?;
    }
    counts[chunk] = count;
    Ok(())
}

impl Joins {
    /// Returns the counts before any event.
    pub fn new(alloc: Global) -> Joins
        ensures { result.counts.items ≡ [] }
    {
        Joins {
            counts: Vec::new(alloc),
        }
    }

    /// Counts that a thread is joined. Returns whether it is worth while to look whether all threads of its chunk were:
    /// as many were joined as there are, and so at times later on, as some may have been joined twice. It fails if
    /// memory runs out.
    pub(crate) fn note(&mut self, thread: u32) -> Result<bool, AllocError>
        ensures { OnOk result (IsPut self.old.counts.items self.new.counts.items (thread / 128)
            (min (slice_index self.old.counts.items (thread / 128) + 1) (2 ^ 32 - 1))) }
    {
        let chunk = (thread / SIZE) as usize;
        let count = count_of(self.counts.as_slice(), chunk).saturating_add(1);
        set_count(&mut self.counts, chunk, count)?;
        Ok(SIZE <= count && count % MORE == 0)
    }
}
