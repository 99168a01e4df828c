// Reading in order.
ghost use Rattle.std.specs.Prelude.{◌≡◌, ℕ, IfOk, MatchOption};
ghost use Rattle.std.specs.Ordering.{nat_cmp};
ghost use Rattle.std.specs.BTreeMap.{get};
ghost use Rattle.std.specs.Option.{option_map_or};
ghost use Rattle.lrc_judge.specs.InOrder.{ReadsLastWritten, IsFirstOutOfOrder};

use lrc_trace::act::{Act, Deed};
use std::alloc::{AllocError, Global};
use std::collections::BTreeMap;

/// A read that does not give the value of the last write before it.
#[derive(Clone, Copy, PartialEq, Eq)]
pub struct OutOfOrder {
    /// The position of the read.
    pub position: usize,
    /// The value of the last write to the word before the read, or 0 if there is none.
    pub last_written: u64,
}

// What was last written to the word.
fn last_written(memory: &BTreeMap<u32, u64>, word: u32) -> u64
    ensures { result ≡ option_map_or (λ value. value) (get nat_cmp memory.now word) 0 }
{
    match memory.get(&word) {
        Some(value) => *value,
        None => 0,
    }
}

/// Returns the first read of a run that does not give the value of the last write before it, or none if every read
/// does. It takes one pass over the acts. It fails only if memory runs out.
pub fn first_out_of_order(alloc: Global, acts: &[Act]) -> Result<Option<OutOfOrder>, AllocError>
    ensures { IfOk result (λ first. MatchOption first (ReadsLastWritten acts.now)
        (IsFirstOutOfOrder acts.now)) }
{
    let mut memory = BTreeMap::new(alloc);
    for position in 0..acts.len() {
        match acts[position].deed {
            Deed::Read(word, value) => {
                let last_written = last_written(&memory, word);
                if value != last_written {
                    return Ok(Some(OutOfOrder {
                        position,
                        last_written,
                    }));
                }
            }
            Deed::Write(word, value) => {
                memory.insert(word, value)?;
            }
            _ => {}
        }
    }
    Ok(None)
}
