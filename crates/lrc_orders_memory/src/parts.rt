// Memories by parts, each of which stands once.
//
// The words of a memory are halved until one is left. Two memories that differ in one word share all halves without
// it, so a memory more costs as many halves as there are levels.

use crate::numbers::short;
use indexmap::IndexSet;
use std::alloc::{AllocError, Global};

/// Words in two halves, each by its number. The first is as long as the second, or one shorter.
#[derive(Clone, Copy, PartialEq, Eq, Hash)]
pub struct Halves {
    pub first: u32,
    pub second: u32,
}

/// A memory of so many words, by their number.
#[derive(Clone, Copy, PartialEq, Eq, Hash)]
pub struct Memory {
    pub count: usize,
    pub number: u32,
}

/// Words, each once, and halves of memories, each once.
#[derive(Drop)]
pub struct Parts {
    pub words: IndexSet<u64>,
    pub halves: IndexSet<Halves>,
}

impl Parts {
    ghost use Rattle.std.specs.Prelude.{◌≡◌, ℕ, ◌<◌, ◌≤◌, ◌++◌, [], IfOk, List, OnOk, Some, length, slice_get, slice_index, slice_set};
    ghost use Rattle.lrc_orders_memory.specs.Parts.{ArePartsDistinct, AreWordsAt, HaveWords, HasMemory, IsMemory, KeepsParts};

    /// No parts.
    pub fn new(alloc: Global) -> Parts
        ensures words { result.words.keys ≡ [] }
        ensures halves { result.halves.keys ≡ [] }
        ensures distinct { ArePartsDistinct result }
    {
        Parts {
            words: IndexSet::new(alloc),
            halves: IndexSet::new(alloc),
        }
    }

    /// The memory of these words. It fails if memory runs out.
    pub fn memory(&mut self, words: &[u64]) -> Result<Memory, AllocError>
        requires { ArePartsDistinct self.old }
        ensures distinct { OnOk result (ArePartsDistinct self.new) }
        ensures keeps { OnOk result (KeepsParts self.old self.new) }
        ensures is { IfOk result (λ memory. IsMemory self.new memory words.now) }
    {
        let number = self.number(words)?;
        Ok(Memory {
            count: words.len(),
            number,
        })
    }

    /// A word of a memory.
    pub fn read(&self, memory: Memory, place: usize) -> u64
        requires memory { HasMemory self.now memory }
        requires within { place < memory.count }
        ensures { (words : List ℕ) → IsMemory self.now memory words
            → result ≡ slice_index words place }
    {
        self.word(memory.count, memory.number, place)
    }

    /// The memory with this value in one word. It fails if memory runs out.
    pub fn write(&mut self, memory: Memory, place: usize, value: u64) -> Result<Memory, AllocError>
        requires distinct { ArePartsDistinct self.old }
        requires memory { HasMemory self.old memory }
        requires within { place < memory.count }
        ensures distinct { OnOk result (ArePartsDistinct self.new) }
        ensures keeps { OnOk result (KeepsParts self.old self.new) }
        ensures is { IfOk result (λ written. (words : List ℕ) → IsMemory self.old memory words
            → IsMemory self.new written (slice_set words place value)) }
    {
        let number = self.written(memory.count, memory.number, place, value)?;
        Ok(Memory {
            count: memory.count,
            number,
        })
    }

    /// All words of a memory. It fails if memory runs out.
    pub fn all(&self, alloc: Global, memory: Memory) -> Result<Vec<u64>, AllocError>
        requires { HasMemory self.now memory }
        ensures { IfOk result (λ words. (all : List ℕ) → IsMemory self.now memory all
            → words.items ≡ all) }
    {
        let mut words = Vec::new(alloc);
        self.put(memory.count, memory.number, &mut words)?;
        Ok(words)
    }

    // Puts so many words with this number behind others.
    fn put(&self, count: usize, number: u32, to: &mut Vec<u64>) -> Result<(), AllocError>
        requires { HaveWords self.now count number }
        ensures { OnOk result ((levels : ℕ) (words : List ℕ) → count ≡ length words
            → AreWordsAt self.now levels number words
            → to.new.items ≡ to.old.items ++ words) }
    {
        if count == 0 {
            return Ok(());
        }
        if count == 1 {
            to.push(self.words.as_slice()[number as usize])?;
            return Ok(());
        }
        let halves = self.halves.as_slice()[number as usize];
        let half = count / 2;
        self.put(half, halves.first, to)?;
        self.put(count - half, halves.second, to)?;
        Ok(())
    }

    // The number of words, which none have as 0.
    fn number(&mut self, words: &[u64]) -> Result<u32, AllocError>
        requires { ArePartsDistinct self.old }
        ensures distinct { OnOk result (ArePartsDistinct self.new) }
        ensures keeps { OnOk result (KeepsParts self.old self.new) }
        ensures are { IfOk result (λ number. (levels : ℕ) → length words.now ≤ levels
            → AreWordsAt self.new levels number words.now) }
    {
        if words.is_empty() {
            return Ok(0);
        }
        if words.len() == 1 {
            return self.word_number(words[0]);
        }
        let (front, back) = words.split_at(words.len() / 2);
        let first = self.number(front)?;
        let second = self.number(back)?;
        let number = self.halves_number(Halves { first, second })?;
        Ok(number)
    }

    // The word at a place of so many words with this number.
    fn word(&self, count: usize, number: u32, place: usize) -> u64
        requires words { HaveWords self.now count number }
        requires within { place < count }
        ensures { (levels : ℕ) (words : List ℕ) → count ≡ length words
            → AreWordsAt self.now levels number words → result ≡ slice_index words place }
    {
        if count == 1 {
            return self.words.as_slice()[number as usize];
        }
        let halves = self.halves.as_slice()[number as usize];
        let half = count / 2;
        if place < half {
            return self.word(half, halves.first, place);
        }
        self.word(count - half, halves.second, place - half)
    }

    // The number of so many words once one of them has this value.
    fn written(
        &mut self,
        count: usize,
        number: u32,
        place: usize,
        value: u64,
    ) -> Result<u32, AllocError>
        requires distinct { ArePartsDistinct self.old }
        requires words { HaveWords self.old count number }
        requires within { place < count }
        ensures distinct { OnOk result (ArePartsDistinct self.new) }
        ensures keeps { OnOk result (KeepsParts self.old self.new) }
        ensures are { IfOk result (λ written. (levels : ℕ) (words : List ℕ)
            → count ≡ length words → AreWordsAt self.old levels number words
            → AreWordsAt self.new levels written (slice_set words place value)) }
    {
        if count == 1 {
            return self.word_number(value);
        }
        let halves = self.halves.as_slice()[number as usize];
        let half = count / 2;
        if place < half {
            let first = self.written(half, halves.first, place, value)?;
            let number = self.halves_number(Halves {
                first,
                second: halves.second,
            })?;
            return Ok(number);
        }
        let second = self.written(count - half, halves.second, place - half, value)?;
        let number = self.halves_number(Halves {
            first: halves.first,
            second,
        })?;
        Ok(number)
    }

    // The number of a word: its own, where it came before, and else the next.
    fn word_number(&mut self, word: u64) -> Result<u32, AllocError>
        requires { ArePartsDistinct self.old }
        ensures distinct { OnOk result (ArePartsDistinct self.new) }
        ensures keeps { OnOk result (KeepsParts self.old self.new) }
        ensures there { IfOk result (λ number. slice_get self.new.words.keys number ≡ Some word) }
    {
        let (place, _new) = self.words.insert_full(word)?;
        short(place)
    }

    // The number of two halves: their own, where they came before, and else the next.
    fn halves_number(&mut self, halves: Halves) -> Result<u32, AllocError>
        requires { ArePartsDistinct self.old }
        ensures distinct { OnOk result (ArePartsDistinct self.new) }
        ensures keeps { OnOk result (KeepsParts self.old self.new) }
        ensures there { IfOk result (λ number.
            slice_get self.new.halves.keys number ≡ Some halves) }
    {
        let (place, _new) = self.halves.insert_full(halves)?;
        short(place)
    }
}
