// What stands before the acts of a run: the interval of each, and what the acts before it leave in its word.

ghost use Rattle.std.specs.Prelude.{◌≡◌, ◌<◌, All, IfOk, length, unwrap_or};
ghost use Rattle.std.specs.BTreeMap.{get};
ghost use Rattle.std.specs.Ordering.{nat_cmp};
ghost use Rattle.lrc_judge.specs.declared.TheConstants.{NODES};
ghost use Rattle.lrc_explain.specs.Before.{AreLefts, IsBeforeActs};

use lrc_judge::intervals_of;
use lrc_judge::races::word_of;
use lrc_trace::act::{Act, Deed};
use std::alloc::{AllocError, Global};
use std::collections::BTreeMap;

/// For each act, its interval, and the value that the acts before it leave in its word.
#[derive(Drop)]
pub(crate) struct Before {
    pub(crate) intervals: Vec<u64>,
    pub(crate) lefts: Vec<u64>,
}

// What a word has.
fn value_in(memory: &BTreeMap<u32, u64>, word: u32) -> u64
    ensures { result ≡ unwrap_or (get nat_cmp memory.now word) 0 }
{
    match memory.get(&word) {
        Some(value) => *value,
        None => 0,
    }
}

// What the acts before each one leave in its word.
fn lefts_of(alloc: Global, acts: &[Act]) -> Result<Vec<u64>, AllocError>
    ensures { IfOk result (λ lefts. AreLefts acts.now (length acts.now) lefts.items) }
{
    let mut memory = BTreeMap::new(alloc);
    let mut lefts = Vec::new(alloc);
    for position in 0..acts.len() {
        let word = word_of(acts[position].deed);
        let left = value_in(&memory, word);
        lefts.push(left)?;
        match acts[position].deed {
            Deed::Write(word, value) => {
                memory.insert(word, value)?;
            }
            _ => {}
        }
    }
    Ok(lefts)
}

impl Before {
    /// Computes this for a list of acts.
    pub(crate) fn of(alloc: Global, acts: &[Act]) -> Result<Before, AllocError>
        requires { All (λ act. act.node < NODES) acts.now }
        ensures { IfOk result (IsBeforeActs acts.now) }
    {
        let intervals = intervals_of(alloc, acts)?;
        let lefts = lefts_of(alloc, acts)?;
        Ok(Before { intervals, lefts })
    }
}
