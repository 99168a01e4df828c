//! The changes that intervals of one node made to a page.

ghost use Rattle.std.specs.Prelude.{◌≡◌, ◌<◌, ◌↔◌, IsTrue, OnOk, OnErr, Some, [], ◌∷◌, ◌++◌, length, slice_get};
ghost use Rattle.std.specs.Option.{ForSome};
ghost use Rattle.lrc_envelope.specs.Records.{AreParts, last_part};

use lrc_page::Changes;
use smallvec::SmallVec;
use std::alloc::{AllocError, Global};
use std::default::MadeWith;
use std::marker::Model;

/// The changes that one interval made to a page.
#[derive(Drop)]
pub struct IndexedChanges {
    /// The interval's index, at least 1.
    pub index: u32,
    pub changes: Changes,
}

impl Model for IndexedChanges {
    ghost use Rattle.lrc_envelope.specs.Records.{IndexedChangesRecord, IsIndexedChanges};

    ghost Value = { IndexedChangesRecord };

    ghost view = { λ p. record { index = p.index; changes = p.changes } };

    ghost invariant = { λ p. IsIndexedChanges (record { index = p.index; changes = p.changes }) };
}

/// Makes a part without changes, for the unused places of a list.
impl MadeWith<Global> for IndexedChanges {
    fn made_with(alloc: Global) -> Self {
        IndexedChanges {
            index: 1,
            changes: Changes::empty(alloc),
        }
    }
}

/// The number of parts that a list holds in itself; a longer one allocates memory. Most replies have one.
pub const FEW_PARTS: usize = 1;

/// The changes that some intervals of one node made to a page, strictly ascending by index.
#[derive(Drop)]
pub struct Parts {
    list: SmallVec<IndexedChanges, FEW_PARTS>,
}

impl Model for Parts {
    ghost use Rattle.std.specs.Prelude.{List};
    ghost use Rattle.lrc_envelope.specs.Records.{IndexedChangesRecord, AreParts};

    ghost Value = { List IndexedChangesRecord };

    ghost view = { λ parts. parts.list.items };

    ghost invariant = { λ parts. AreParts parts.list.items };
}

impl Parts {
    /// Returns an empty list of parts.
    pub fn empty(alloc: Global) -> Self
        ensures { result ≡ [] }
    {
        Parts {
            list: SmallVec::new(alloc),
        }
    }

    /// Returns a list of the given parts, which ascend strictly by index.
    pub fn from_ascending(list: Vec<IndexedChanges>) -> Self
        requires { AreParts list.items }
        ensures { result ≡ list.items }
    {
        Parts {
            list: SmallVec::from_vec(list),
        }
    }

    /// Returns a list of the given parts, which ascend strictly by index. They come in a list that holds one in itself.
    pub fn from_short(list: SmallVec<IndexedChanges, FEW_PARTS>) -> Self
        requires { AreParts list.items }
        ensures { result ≡ list.items }
    {
        Parts { list }
    }

    /// Adds a part whose index is above all others. It fails if memory runs out, and then nothing changes.
    pub fn push(&mut self, part: IndexedChanges) -> Result<(), AllocError>
        requires { ForSome (last_part self.old) (λ last. last.index < part.index) }
        ensures ok { OnOk result (self.new ≡ self.old ++ part ∷ []) }
        ensures err { OnErr result (self.new ≡ self.old) }
    {
        self.list.push(part)?;
        Ok(())
    }

    /// Returns the number of parts.
    pub fn len(&self) -> usize
        ensures count { result ≡ length self.now }
        ensures are { AreParts self.now }
    {
        self.list.len()
    }

    /// Returns whether there is no part.
    pub fn is_empty(&self) -> bool
        ensures { IsTrue result ↔ (self.now ≡ []) }
    {
        self.list.is_empty()
    }

    /// Returns the part at a place, counted from 0 in the order of the indices.
    pub fn at(&self, place: usize) -> &IndexedChanges
        requires { place < length self.now }
        ensures { slice_get self.now place ≡ Some result.now }
    {
        &self.list.as_slice()[place]
    }

    /// Returns the parts in order.
    pub fn as_slice(&self) -> &[IndexedChanges]
        ensures all { result.now ≡ self.now }
        ensures are { AreParts self.now }
    {
        self.list.as_slice()
    }
}
