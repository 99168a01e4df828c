// Lazy reading.
ghost use Rattle.std.specs.Prelude.{◌≡◌, ℕ, ◌<◌, ◌≤◌, ◌↔◌, ◌&&◌, All, Bool, IsTrue, IfOk, OnOk, MatchBool, MatchOption, Some, true, length};
ghost use Rattle.std.specs.Option.{option_map_or};
ghost use Rattle.lrc_trace.specs.declared.act.Deed.TheVariants.{Read, Write};
ghost use Rattle.lrc_trace.specs.Run.{IsDone};
ghost use Rattle.lrc_trace.specs.Reading.{AreOrdered, IsSomeWrite, MayRead, ReadsLazily};
ghost use Rattle.lrc_judge.specs.Adding.{Adds};
ghost use Rattle.lrc_judge.specs.Allowed.{AreAllowed};
ghost use Rattle.lrc_judge.specs.Order.{is_before, IsOrderOf};
ghost use Rattle.lrc_judge.specs.Tally.{IsTally};
ghost use Rattle.lrc_judge.specs.Reading.{AreRead, Misreads, IsFirstMisread};
ghost use Rattle.lrc_judge.specs.Written.{AreFlags, IsWrittenOf};
ghost use Rattle.lrc_judge.specs.declared.TheConstants.{NODES};

use crate::NODES;
use crate::guesses::Guesses;
use crate::order::Order;
use crate::written::Written;
use lrc_trace::act::{Act, Deed};
use std::alloc::{AllocError, Global};
use std::collections::BTreeSet;

/// A write: its position, and its value.
#[derive(Clone, Copy)]
struct StoredValue {
    position: usize,
    value: u64,
}

// The write to the word at this position, if there is one.
fn stored_at(acts: &[Act], position: usize, word: u32) -> Option<StoredValue>
    requires { position < length acts.now }
    ensures { MatchOption result ((value : ℕ) → ¬ IsDone acts.now position (Write word value))
        (λ w. (w.position ≡ position) × IsDone acts.now position (Write word w.value)) }
{
    match acts[position].deed {
        Deed::Write(to, value) if to == word => Some(StoredValue { position, value }),
        _ => None,
    }
}

/// What the writes to a word so far that happen before a position determine about a read there.
#[derive(Clone, Copy)]
struct Tally {
    /// Whether any two of them are ordered.
    are_ordered: bool,
    /// The last of them.
    last: Option<StoredValue>,
}

impl Tally {
    // One write more.
    fn with(self, order: &Order, write: StoredValue) -> Tally
        ensures ordered { result.are_ordered ≡ (self.are_ordered
            && option_map_or (λ w. is_before order.now w.position write.position) self.last true) }
        ensures last { result.last ≡ Some write }
    {
        let follows = match self.last {
            Some(last) => order.is_before(last.position, write.position),
            None => true,
        };
        Tally {
            are_ordered: self.are_ordered && follows,
            last: Some(write),
        }
    }

    // What the last of them writes, or 0.
    fn latest(self) -> u64
        ensures { result ≡ option_map_or (λ w. w.value) self.last 0 }
    {
        match self.last {
            Some(last) => last.value,
            None => 0,
        }
    }
}

// What the writes to the word that happen before this position say of a read there.
fn tally_of(order: &Order, acts: &[Act], position: usize, word: u32) -> Tally
    requires order { IsOrderOf acts.now order.now }
    requires within { position < length acts.now }
    ensures { (w : Bool) × IsTally acts.now position word 0 position w result.are_ordered
        result.last }
{
    let mut tally = Tally {
        are_ordered: true,
        last: None,
    };
    for earlier in 0..position {
        let Some(write) = stored_at(acts, earlier, word) else {
            continue;
        };
        if order.is_before(earlier, position) {
            tally = tally.with(order, write);
        }
    }
    tally
}

// Adds 0 and what the writes to the word that happen before this position wrote.
fn add_written(
    values: &mut Vec<u64>,
    order: &Order,
    acts: &[Act],
    position: usize,
    word: u32,
) -> Result<(), AllocError>
    requires order { IsOrderOf acts.now order.now }
    requires within { position < length acts.now }
    ensures { OnOk result (Adds values.old.items values.new.items
        (IsSomeWrite acts.now position word)) }
{
    values.push(0)?;
    for earlier in 0..position {
        let Some(write) = stored_at(acts, earlier, word) else {
            continue;
        };
        if order.is_before(earlier, position) {
            values.push(write.value)?;
        }
    }
    Ok(())
}

/// Returns the values that a read of the word at this position may give, ascending, each once, given the run's
/// happens-before order. If the writes that
/// happen before it are ordered, this is the last one's value, or 0 if there are none. Otherwise these are 0 and all
/// values that they wrote. It fails only if memory runs out.
pub fn values_allowed(
    alloc: Global,
    order: &Order,
    acts: &[Act],
    position: usize,
    word: u32,
) -> Result<Vec<u64>, AllocError>
    requires order { IsOrderOf acts.now order.now }
    requires within { position < length acts.now }
    ensures { IfOk result (λ values. AreAllowed acts.now position word values.items) }
{
    let tally = tally_of(order, acts, position, word);
    let mut values = Vec::new(alloc);
    if tally.are_ordered {
        values.push(tally.latest())?;
    } else {
        add_written(&mut values, order, acts, position, word)?;
    }
    values.sort_unstable();
    values.dedup();
    Ok(values)
}

// The words that are read.
fn words_read(alloc: Global, acts: &[Act]) -> Result<BTreeSet<u32>, AllocError>
    ensures { IfOk result (AreRead acts.now (length acts.now)) }
{
    let mut words = BTreeSet::new(alloc);
    for position in 0..acts.len() {
        if let Deed::Read(word, _) = acts[position].deed {
            words.insert(word)?;
        }
    }
    Ok(words)
}

// Whether any two of the writes that happen before the write at this position are ordered, if its word is read. Of
// another act nothing is asked.
fn flag_at(
    written: &Written,
    guesses: &mut Guesses,
    words: &BTreeSet<u32>,
    ordered: &[bool],
    acts: &[Act],
    position: usize,
) -> bool
    requires written { IsWrittenOf acts.now written.now }
    requires words { AreRead acts.now (length acts.now) words.now }
    requires nodes { All (λ act. act.node < NODES) acts.now }
    requires flags { AreFlags acts.now position ordered.now }
    requires long { position ≤ length ordered.now }
    requires within { position < length acts.now }
    ensures { (j word read value : ℕ) → IsDone acts.now j (Read word read)
        → IsDone acts.now position (Write word value) → IsTrue result
        ↔ AreOrdered acts.now position word }
{
    match acts[position].deed {
        Deed::Write(word, _) => {
            !words.contains(&word) || written.are_ordered(guesses, ordered, word, position)
        }
        _ => true,
    }
}

// Whether the act at this position, if it is a read, gives a value that it may give.
fn is_allowed(
    written: &Written,
    guesses: &mut Guesses,
    ordered: &[bool],
    acts: &[Act],
    position: usize,
) -> bool
    requires written { IsWrittenOf acts.now written.now }
    requires nodes { All (λ act. act.node < NODES) acts.now }
    requires flags { AreFlags acts.now position ordered.now }
    requires long { position ≤ length ordered.now }
    requires within { position < length acts.now }
    ensures { MatchBool result ((word value : ℕ) → IsDone acts.now position (Read word value)
        → MayRead acts.now position word value)
        (Misreads acts.now position) }
{
    match acts[position].deed {
        Deed::Read(word, value) => {
            let is_ordered = written.are_ordered(guesses, ordered, word, position);
            written.allows(guesses, acts, position, word, value, is_ordered)
        }
        _ => true,
    }
}

/// Returns the least position of a read that breaks lazy reading, or none if the run reads lazily. Such a read gives a
/// value other than 0 that no write that happens before it wrote; or the writes that happen before it are ordered, and
/// it does not give the last one's value, or 0 if there are none. The cost is nearly linear in the acts times the
/// nodes. It fails only if memory runs out.
pub fn first_fault_of_reading(alloc: Global, acts: &[Act]) -> Result<Option<usize>, AllocError>
    requires { All (λ act. act.node < NODES) acts.now }
    ensures { IfOk result (λ fault. MatchOption fault (ReadsLazily acts.now)
        (IsFirstMisread acts.now)) }
{
    let written = Written::of(alloc, acts)?;
    let words = words_read(alloc, acts)?;
    let mut guesses = Guesses::none();
    let mut ordered = Vec::new(alloc);
    for position in 0..acts.len() {
        if !is_allowed(&written, &mut guesses, ordered.as_slice(), acts, position) {
            return Ok(Some(position));
        }
        let flag = flag_at(
            &written,
            &mut guesses,
            &words,
            ordered.as_slice(),
            acts,
            position,
        );
        ordered.push(flag)?;
    }
    Ok(None)
}
