// What is known of the writes of each word.

ghost use Rattle.std.specs.Prelude.{◌≡◌, ◌≤◌, ◌+◌, ℕ, Some, [], length, slice_get};
ghost use Rattle.lrc_lazy_known.specs.declared.known.KnownWord.{KnownWord as KnownWordType};
ghost use Rattle.lrc_lazy_known.specs.Effect.{knowers_in, IsSmall, IsWithin};
ghost use Rattle.lrc_lazy_known.specs.Tidy.{AreCut, IsWordOfSome};

use crate::word::{
    Effect, copied, last_of, past, values_of, values_with, word_after, word_without,
};
use std::alloc::{AllocError, Global};
use std::rc::Rc;

/// The last of the known writes.
#[derive(Clone, Copy, Debug, PartialEq, Eq, Hash)]
pub enum Last {
    /// No write is known.
    Nothing,
    /// The known writes are ordered, and the last one wrote this value.
    Value(u64),
    /// Two of the known writes are not ordered.
    Unordered,
}

/// What one knower (a node, a lock or a barrier) knows of the writes to a word.
#[derive(PartialEq, Eq, Hash, Drop)]
pub struct Known {
    pub last: Last,
    /// The values of the known writes. All who know the same may share one list.
    pub values: Rc<Vec<u64>>,
    /// For each knower, whether the last of the writes that it knows is among those that this one knows; false if it
    /// knows none, or they are not ordered.
    pub above: Vec<bool>,
}

/// What each knower knows of the writes to one word.
#[derive(PartialEq, Eq, Hash, Drop)]
pub struct KnownWord {
    pub knowers: Vec<Known>,
}

/// What each knower knows of the writes to each word. The calls keep it in one way: values rise, and where a list ends in
/// what says nothing, that is left out. So what says the same compares equal.
#[derive(PartialEq, Eq, Hash, Drop)]
pub struct Knowledge {
    pub words: Vec<KnownWord>,
}

impl Knowledge {
    ghost use Rattle.std.specs.Prelude.{◌≡◌, ◌↔◌, ◌<◌, ◌^◌, ℕ, IfOk, Contains, []};
    ghost use Rattle.lrc_lazy_known.specs.Word.{Gives};
    ghost use Rattle.lrc_lazy_known.specs.Effect.{IsAfter, IsKnowledgeAfter, IsKnowledgeWithout, IsSmall, word_of};
    ghost use Rattle.lrc_lazy_known.specs.Tidy.{IsRising, IsTidy};

    /// Returns the knowledge of no write to any word.
    pub fn nothing(alloc: Global) -> Knowledge
        ensures nothing { (word : ℕ) → word_of result word ≡ [] }
        ensures tidy { IsTidy result }
    {
        Knowledge {
            words: Vec::new(alloc),
        }
    }

    /// Returns what each knower knows of the writes to a word.
    pub fn word(&self, word: usize) -> &[Known]
        ensures { result.now ≡ word_of self.now word }
    {
        match self.words.get(word) {
            Some(known) => &known.knowers,
            None => &[],
        }
    }

    /// Returns the values that a node with this knowledge may read from a word. It fails if memory runs out.
    pub fn readable(&self, alloc: Global, word: usize, node: usize) -> Result<Vec<u64>, AllocError>
        ensures gives { IfOk result (λ all. (value : ℕ)
            → (Contains all.items value ↔ Gives (word_of self.now word) node value)) }
        ensures rising { IfOk result (λ all. IsTidy self.now → IsRising all.items) }
    {
        let known = self.word(word);
        match last_of(known, node) {
            Last::Nothing => copied(alloc, &[0]),
            Last::Value(last) => copied(alloc, &[last]),
            Last::Unordered => values_with(alloc, values_of(known, node), 0),
        }
    }

    /// Returns what is known after an act with this effect. It fails if memory runs out.
    pub fn after(&self, alloc: Global, effect: Effect) -> Result<Knowledge, AllocError>
        requires { IsSmall effect }
        ensures after { IfOk result (IsKnowledgeAfter effect self.now) }
        ensures tidy { IfOk result (λ after. IsTidy self.now → IsTidy after) }
    {
        let count = count_after(self.words.len(), effect);
        let mut words = Vec::new(alloc);
        for word in 0..count {
            let knowers = word_after(alloc, self.word(word), effect, word)?;
            words.push(KnownWord { knowers })?;
        }
        cut_words(&mut words);
        Ok(Knowledge { words })
    }

    /// Returns what those know who are left, where those of so many numbers from the first on are dropped. It fails if
    /// memory runs out.
    pub fn without(
        &self,
        alloc: Global,
        first: usize,
        dropped: usize,
    ) -> Result<Knowledge, AllocError>
        ensures left { IfOk result (IsKnowledgeWithout first dropped self.now) }
        ensures tidy { IfOk result (λ left. IsTidy self.now → IsTidy left) }
    {
        let mut words = Vec::new(alloc);
        for word in 0..self.words.len() {
            let knowers = word_without(alloc, self.word(word), first, dropped)?;
            words.push(KnownWord { knowers })?;
        }
        cut_words(&mut words);
        Ok(Knowledge { words })
    }
}

// How many words there are up to the last one of which somebody knows something.
fn count_of_known(words: &[KnownWord]) -> usize
    ensures blank { (k : ℕ) → result ≤ k → knowers_in (slice_get words.now k) ≡ [] }
    ensures within { result ≤ length words.now }
    ensures known { (k : ℕ) (word : KnownWordType) → result ≡ k + 1
        → slice_get words.now k ≡ Some word → IsWordOfSome word }
{
    let mut count = words.len();
    while count > 0 {
        if !words[count - 1].knowers.is_empty() {
            return count;
        }
        count -= 1;
    }
    0
}

// Cuts off the last words, those of which nobody knows anything.
fn cut_words(words: &mut Vec<KnownWord>)
    ensures { AreCut words.old.items words.new.items }
{
    let count = count_of_known(words.as_slice());
    words.truncate(count);
}

// How many words something is kept of after an act.
fn count_after(count: usize, effect: Effect) -> usize
    requires { IsSmall effect }
    ensures least { count ≤ result }
    ensures written { IsWithin effect result }
{
    match effect {
        Effect::Writes(_, word, _) => past(count, word),
        _ => count,
    }
}
