//! Intervals of one node, given by their indices.

ghost use Rattle.std.specs.Prelude.{◌≡◌, ◌≤◌, ◌<◌, ◌↔◌, IsTrue, All, OnOk, OnErr, Some, [], ◌∷◌, ◌++◌, length, slice_get};
ghost use Rattle.std.specs.Option.{ForSome};
ghost use Rattle.std.specs.List.Sorted.{IsStrictlyIncreasing};
ghost use Rattle.lrc_envelope.specs.Records.{AreIndices, last_index};

use smallvec::SmallVec;
use std::alloc::{AllocError, Global};
use std::marker::Model;

/// The number of indices that a list holds in itself; a longer one allocates memory. Most requests name fewer.
pub const FEW_INDICES: usize = 4;

/// Indices of intervals of one node, strictly ascending, each at least 1.
#[derive(Drop)]
pub struct Indices {
    list: SmallVec<u32, FEW_INDICES>,
}

impl Model for Indices {
    ghost use Rattle.std.specs.Prelude.{ℕ, List};
    ghost use Rattle.lrc_envelope.specs.Records.{AreIndices};

    ghost Value = { List ℕ };

    ghost view = { λ indices. indices.list.items };

    ghost invariant = { λ indices. AreIndices indices.list.items };
}

impl Indices {
    /// Returns an empty list of indices.
    pub fn empty(alloc: Global) -> Self
        ensures { result ≡ [] }
    {
        Indices {
            list: SmallVec::new(alloc),
        }
    }

    /// Returns a list of the given indices, which ascend strictly from 1 or above.
    pub fn from_ascending(list: Vec<u32>) -> Self
        requires { AreIndices list.items }
        ensures { result ≡ list.items }
    {
        Indices {
            list: SmallVec::from_vec(list),
        }
    }

    /// Returns a list of the given indices, which ascend strictly from 1 or above. They come in a list that holds a few
    /// in itself.
    pub fn from_short(list: SmallVec<u32, FEW_INDICES>) -> Self
        requires { AreIndices list.items }
        ensures { result ≡ list.items }
    {
        Indices { list }
    }

    /// Adds an index above all others. It fails if memory runs out, and then nothing changes.
    pub fn push(&mut self, index: u32) -> Result<(), AllocError>
        requires begun { 1 ≤ index }
        requires above { ForSome (last_index self.old) (λ last. last < index) }
        ensures ok { OnOk result (self.new ≡ self.old ++ index ∷ []) }
        ensures err { OnErr result (self.new ≡ self.old) }
    {
        self.list.push(index)?;
        Ok(())
    }

    /// Returns the number of indices.
    pub fn len(&self) -> usize
        ensures count { result ≡ length self.now }
        ensures are { AreIndices self.now }
    {
        self.list.len()
    }

    /// Returns whether there is no index.
    pub fn is_empty(&self) -> bool
        ensures { IsTrue result ↔ (self.now ≡ []) }
    {
        self.list.is_empty()
    }

    /// Returns the index at a place, counted from 0 in ascending order.
    pub fn at(&self, place: usize) -> u32
        requires { place < length self.now }
        ensures { slice_get self.now place ≡ Some result }
    {
        self.list.as_slice()[place]
    }

    /// Returns the indices, ascending.
    pub fn as_slice(&self) -> &[u32]
        ensures all { result.now ≡ self.now }
        ensures are { AreIndices self.now }
    {
        self.list.as_slice()
    }
}
