// What an open interval changed.

ghost use Rattle.std.specs.Prelude.{◌≡◌, ℕ, IfOk, if◌then◌else◌, Some, None};
ghost use Rattle.lrc_exact.specs.Rule.{change_of};
ghost use Rattle.lrc_exact_copies.specs.Copies.{before_of, word_in};
ghost use Rattle.lrc_exact_copies.specs.Made.{change_in, has};

use crate::copy::{Word, word_at};
use crate::made::Change;
use std::alloc::{AllocError, Global};
use std::collections::BTreeMap;

/// Of these words those that the interval changed, with their values now.
pub fn changes_of(
    alloc: Global,
    words: &BTreeMap<u64, Word>,
    words_written: &[u32],
    index: u32,
) -> Result<Vec<Change>, AllocError>
    ensures { IfOk result (λ changes. (w : ℕ) → change_in changes.items w
        ≡ (if has words_written.now w then change_of (before_of index (word_in words.now w))
        (word_in words.now w).value else None)) }
{
    let mut changes = Vec::new(alloc);
    for word in words_written {
        let held = word_at(words, u64::from(*word));
        if held.written == index && held.before != held.value {
            changes.push(Change {
                word: *word,
                value: held.value,
            })?;
        }
    }
    Ok(changes)
}
