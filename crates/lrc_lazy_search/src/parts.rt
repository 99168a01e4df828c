// The parts of states, each once, by numbers in the order in which they first came.

ghost use Rattle.std.specs.Prelude.{◌≡◌, ℕ, IfOk, OnOk, Some, length, slice_get};
ghost use Rattle.lrc_orders.specs.Kept.{AreSpotsDistinct, Grows};
ghost use Rattle.lrc_lazy_known.specs.Effect.{word_of};
ghost use Rattle.lrc_lazy_known.specs.Tidy.{IsTidy};
ghost use Rattle.lrc_lazy_known.specs.Word.{IsSame};
ghost use Rattle.lrc_lazy_search.specs.CommonHash.{mark, mix, mixed, mixed_known, mixed_values, mixed_word};
ghost use Rattle.lrc_lazy_search.specs.Parts.{AreCommonsDistinct, AreNotesAt, AreNotesDistinct, AreThreadsAt, IsAlikeAt};

use crate::state::LazyState;
use indexmap::IndexSet;
use lrc_exec::spot::Spot;
use lrc_lazy_known::known::{Knowledge, Known, KnownWord, Last};
use lrc_lazy_known::word::Effect;
use lrc_trace::act::Act;
use std::alloc::{AllocError, Global};
use std::hash::{Hash, Hasher};

/// What the nodes of a state share: who holds each lock, how often each node has arrived, and what is known.
#[derive(PartialEq, Eq, Drop)]
pub(crate) struct Common {
    holders: Vec<Option<usize>>,
    arrivals: Vec<u64>,
    knowledge: Knowledge,
}

// It is hashed as one number.
impl Hash for Common {
    ghost use Rattle.std.specs.Hash.{u64};
    ghost use Rattle.lrc_lazy_search.specs.CommonHash.{mixed, respects};

    ghost hash_input = { λ common. u64 (mixed common) };

    ghost respects_eq = { respects };

    fn hash<H: Hasher>(&self, state: &mut H) {
        state.write_u64(mixed(self));
    }
}

// What the nodes share, mixed to one number of 64 bits.
#[tactic(auto, using(std::proofs::lemmas::List::Sums::fold_more))]
fn mixed(common: &Common) -> u64
    ensures { result ≡ mixed common.now }
{
    let mut all = 0;
    for count in &common.arrivals {
        all = mix(all, *count);
    }
    for word in &common.knowledge.words {
        all = mixed_word(all, word);
    }
    all
}

// A number with what is known of a word mixed in.
#[tactic(auto, using(std::proofs::lemmas::List::Sums::fold_more))]
fn mixed_word(all: u64, word: &KnownWord) -> u64
    ensures { result ≡ mixed_word all word.now }
{
    let mut mixed = all;
    for known in &word.knowers {
        mixed = mixed_known(mixed, known);
    }
    mixed
}

// A number with what one knows mixed in: the values, and the last write.
fn mixed_known(all: u64, known: &Known) -> u64
    ensures { result ≡ mixed_known all known.now }
{
    let values = mixed_values(all, known.values.as_ref().as_slice());
    mix(values, mark(known.last))
}

// A number with values mixed in.
#[tactic(auto, using(std::proofs::lemmas::List::Sums::fold_more))]
fn mixed_values(all: u64, values: &[u64]) -> u64
    ensures { result ≡ mixed_values all values.now }
{
    let mut mixed = all;
    for value in values {
        mixed = mix(mixed, *value);
    }
    mixed
}

// A number for the last of the known writes.
fn mark(last: Last) -> u64
    ensures { result ≡ mark last }
{
    match last {
        Last::Nothing => 0,
        Last::Value(value) => value,
        Last::Unordered => 1,
    }
}

// A number with another mixed in.
fn mix(all: u64, number: u64) -> u64
    ensures { result ≡ mix all number }
{
    (all ^ number).wrapping_mul(0x9e37_79b9_7f4a_7c15)
}

/// What was noted on the way to a state.
#[derive(PartialEq, Eq, Hash, Drop)]
pub(crate) struct Notes {
    pub(crate) acts: Vec<Act>,
}

/// Returns what the nodes of a state share. It fails if memory runs out.
pub(crate) fn common_of(alloc: Global, state: &LazyState) -> Result<Common, AllocError>
    ensures holders { IfOk result (λ common.
        common.holders.items ≡ state.now.state.holders.items) }
    ensures arrivals { IfOk result (λ common.
        common.arrivals.items ≡ state.now.state.arrivals.items) }
    ensures known { IfOk result (λ common. (word : ℕ)
        → IsSame (word_of state.now.knowledge word) (word_of common.knowledge word)) }
    ensures tidy { IfOk result (λ common. IsTidy state.now.knowledge → IsTidy common.knowledge) }
{
    Ok(Common {
        holders: Vec::from_slice(alloc, &state.state.holders)?,
        arrivals: Vec::from_slice(alloc, &state.state.arrivals)?,
        knowledge: state.knowledge.after(alloc, Effect::Passes)?,
    })
}

/// Returns the number of what is shared: its own, where it came before, and else the next. It fails if memory runs out.
pub(crate) fn common_number(all: &mut IndexSet<Common>, common: Common) -> Result<u32, AllocError>
    ensures grows { OnOk result (Grows all.old.keys all.new.keys) }
    ensures distinct { OnOk result (AreCommonsDistinct all.new.keys) }
    ensures there { IfOk result (λ number. IsAlikeAt all.new.keys number common) }
{
    let (place, _new) = all.insert_full(common)?;
    let number = short(place)?;
    Ok(number)
}

/// Returns the number of notes: their own, where they came before, and else the next. It fails if memory runs out.
pub(crate) fn notes_number(all: &mut IndexSet<Notes>, notes: Notes) -> Result<u32, AllocError>
    ensures grows { OnOk result (Grows all.old.keys all.new.keys) }
    ensures distinct { OnOk result (AreNotesDistinct all.new.keys) }
    ensures there { IfOk result (λ number. AreNotesAt all.new.keys number notes.acts.items) }
{
    let (place, _new) = all.insert_full(notes)?;
    let number = short(place)?;
    Ok(number)
}

// The number of a thread: its own, where it came before, and else the next.
fn thread_number(threads: &mut IndexSet<Spot>, thread: Spot) -> Result<u32, AllocError>
    ensures grows { OnOk result (Grows threads.old.keys threads.new.keys) }
    ensures distinct { OnOk result (AreSpotsDistinct threads.new.keys) }
    ensures there { IfOk result (λ number. slice_get threads.new.keys number ≡ Some thread) }
{
    let (place, _new) = threads.insert_full(thread)?;
    let number = short(place)?;
    Ok(number)
}

/// Returns the numbers of the threads of nodes, and 0 past them. For the threads of more than 16 nodes there is no
/// memory. It fails if memory runs out.
pub(crate) fn threads_of(
    threads: &mut IndexSet<Spot>,
    spots: &[Spot],
) -> Result<[u32; 16], AllocError>
    requires { AreSpotsDistinct threads.old.keys }
    ensures grows { OnOk result (Grows threads.old.keys threads.new.keys) }
    ensures distinct { OnOk result (AreSpotsDistinct threads.new.keys) }
    ensures there { IfOk result (λ numbers. AreThreadsAt threads.new.keys
        (length spots.now) numbers spots.now) }
{
    if spots.len() > 16 {
        return Err(AllocError);
    }
    let mut numbers = [0; 16];
    for node in 0..spots.len() {
        let number = thread_number(threads, spots[node])?;
        numbers[node] = number;
    }
    Ok(numbers)
}

// A place as a number of 32 bits. For a place that does not fit there is no memory.
fn short(place: usize) -> Result<u32, AllocError>
    ensures { IfOk result (λ number. number ≡ place) }
{
    match u32::try_from(place) {
        Ok(number) => Ok(number),
        Err(_) => Err(AllocError),
    }
}
