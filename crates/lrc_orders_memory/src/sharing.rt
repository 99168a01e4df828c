// What the nodes of states share, each once and by number.

use crate::numbers::short;
use crate::parts::{Memory, Parts};
use indexmap::IndexSet;
use std::alloc::{AllocError, Global};

/// What the nodes of a state share: the words, and who holds each lock.
#[derive(PartialEq, Eq, Hash, Drop)]
pub struct Shared {
    pub memory: Memory,
    pub holders: Vec<Option<usize>>,
}

/// What the nodes of states share, each once, and the parts of the memories.
#[derive(Drop)]
pub struct AllShared {
    pub parts: Parts,
    pub kept: IndexSet<Shared>,
}

impl AllShared {
    ghost use Rattle.std.specs.Prelude.{◌≡◌, ℕ, ◌<◌, [], IfOk, List, None, OnOk, Option, Some, is_none, length, slice_get, slice_index, slice_index_or, slice_set};
    ghost use Rattle.lrc_orders_memory.specs.Parts.{ArePartsDistinct, HasMemory, IsMemory, KeepsParts};
    ghost use Rattle.lrc_orders_memory.specs.Sharing.{AreSharedDistinct, HasLock, HasShared, HasWord, IsSharedAt, KeepsShared};

    /// Nothing.
    pub fn new(alloc: Global) -> AllShared
        ensures kept { result.kept.keys ≡ [] }
        ensures distinct { AreSharedDistinct result }
    {
        AllShared {
            parts: Parts::new(alloc),
            kept: IndexSet::new(alloc),
        }
    }

    /// The number of these words and holders: their own, where they came before, and else the next. It fails if memory
    /// runs out.
    pub fn number_of(
        &mut self,
        words: &[u64],
        holders: Vec<Option<usize>>,
    ) -> Result<u32, AllocError>
        requires { AreSharedDistinct self.old }
        ensures distinct { OnOk result (AreSharedDistinct self.new) }
        ensures keeps { OnOk result (KeepsShared self.old self.new) }
        ensures there { IfOk result (λ number. IsSharedAt self.new number words.now holders.items) }
    {
        let memory = self.parts.memory(words)?;
        let number = self.number(memory, holders)?;
        Ok(number)
    }

    /// The number of the same words and these holders. It fails if memory runs out.
    pub fn held(&mut self, number: u32, holders: Vec<Option<usize>>) -> Result<u32, AllocError>
        requires distinct { AreSharedDistinct self.old }
        requires there { HasShared self.old number }
        ensures distinct { OnOk result (AreSharedDistinct self.new) }
        ensures keeps { OnOk result (KeepsShared self.old self.new) }
        ensures there { IfOk result (λ then. (words : List ℕ) (before : List (Option ℕ))
            → IsSharedAt self.old number words before
            → IsSharedAt self.new then words holders.items) }
    {
        let memory = self.kept.as_slice()[number as usize].memory;
        let number = self.number(memory, holders)?;
        Ok(number)
    }

    /// The number of the words with this value in one of them, and these holders. It fails if memory runs out.
    pub fn written(
        &mut self,
        number: u32,
        place: usize,
        value: u64,
        holders: Vec<Option<usize>>,
    ) -> Result<u32, AllocError>
        requires distinct { AreSharedDistinct self.old }
        requires there { HasWord self.old number place }
        ensures distinct { OnOk result (AreSharedDistinct self.new) }
        ensures keeps { OnOk result (KeepsShared self.old self.new) }
        ensures there { IfOk result (λ then. (words : List ℕ) (before : List (Option ℕ))
            → IsSharedAt self.old number words before
            → IsSharedAt self.new then (slice_set words place value) holders.items) }
    {
        let memory = self.kept.as_slice()[number as usize].memory;
        let memory = self.parts.write(memory, place, value)?;
        let number = self.number(memory, holders)?;
        Ok(number)
    }

    // The number of a memory and these holders.
    fn number(&mut self, memory: Memory, holders: Vec<Option<usize>>) -> Result<u32, AllocError>
        requires { AreSharedDistinct self.old }
        ensures distinct { OnOk result (AreSharedDistinct self.new) }
        ensures keeps { OnOk result (KeepsShared self.old self.new) }
        ensures parts { self.new.parts ≡ self.old.parts }
        ensures there { IfOk result (λ number. (words : List ℕ)
            → IsMemory self.old.parts memory words
            → IsSharedAt self.new number words holders.items) }
    {
        let (place, _new) = self.kept.insert_full(Shared { memory, holders })?;
        let number = short(place)?;
        Ok(number)
    }

    /// A word of what has this number.
    pub fn word(&self, number: u32, place: usize) -> u64
        requires { HasWord self.now number place }
        ensures { (words : List ℕ) (holders : List (Option ℕ))
            → IsSharedAt self.now number words holders → result ≡ slice_index words place }
    {
        let memory = self.kept.as_slice()[number as usize].memory;
        self.parts.read(memory, place)
    }

    /// Whether nobody holds a lock.
    pub fn is_free(&self, number: u32, lock: usize) -> bool
        requires { HasLock self.now number lock }
        ensures { (words : List ℕ) (holders : List (Option ℕ))
            → IsSharedAt self.now number words holders
            → result ≡ is_none (slice_index_or holders lock None) }
    {
        self.kept.as_slice()[number as usize].holders[lock].is_none()
    }

    /// All words of what has this number. It fails if memory runs out.
    pub fn words(&self, alloc: Global, number: u32) -> Result<Vec<u64>, AllocError>
        requires { HasShared self.now number }
        ensures { IfOk result (λ words. (all : List ℕ) (holders : List (Option ℕ))
            → IsSharedAt self.now number all holders → words.items ≡ all) }
    {
        let memory = self.kept.as_slice()[number as usize].memory;
        self.parts.all(alloc, memory)
    }

    /// Who holds each lock. It fails if memory runs out.
    pub fn holders(&self, alloc: Global, number: u32) -> Result<Vec<Option<usize>>, AllocError>
        requires { HasShared self.now number }
        ensures { IfOk result (λ holders. (words : List ℕ) (all : List (Option ℕ))
            → IsSharedAt self.now number words all → holders.items ≡ all) }
    {
        let shared = &self.kept.as_slice()[number as usize];
        Vec::from_slice(alloc, &shared.holders)
    }
}
