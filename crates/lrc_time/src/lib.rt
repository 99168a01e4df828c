//! Vector times (Keleher, Cox and Zwaenepoel 1992). A vector time says for each node how many of its intervals are
//! known. No call here allocates memory.
#![tactic(auto)]

ghost use Rattle.std.specs.Prelude.{◌≡◌, ◌<◌, ◌≤◌, ◌↔◌, IsTrue, length, slice_index, slice_set};
ghost use Rattle.lrc_time.specs.Time.{zeros, entry, Covers, joined, weight_of};

pub mod laws;

use arrayvec::ArrayVec;
use std::marker::Model;

/// The largest number of nodes.
pub const MOST_NODES: usize = 16;

/// A vector time. Entry q counts the known intervals of node q. There are 1 to 16 entries, one for each node.
#[derive(Debug, PartialEq, Eq, Drop)]
pub struct Time {
    entries: ArrayVec<u32, MOST_NODES>,
}

impl Model for Time {
    ghost use Rattle.std.specs.Prelude.{ℕ, ◌≤◌, List, length};

    ghost Value = { List ℕ };

    ghost view = { λ t. t.entries.items };

    ghost invariant = { λ t. (1 ≤ length t.entries.items) × (length t.entries.items ≤ 16) };

    ghost inverse = { λ xs. record { entries = record { items = xs } } };
}

impl Time {
    /// Returns the time of a node that knows no interval: `nodes` entries, 1 to 16, each 0.
    pub fn new(nodes: u8) -> Self
        requires some { 1 ≤ nodes }
        requires few { nodes ≤ 16 }
        ensures { result ≡ zeros nodes }
    {
        let mut entries = ArrayVec::new();
        for _ in 0..nodes {
            entries.push(0);
        }
        Time { entries }
    }

    /// Returns the number of entries, 1 to 16.
    pub fn nodes(&self) -> u8
        ensures all { result ≡ length self.now }
        ensures some { 1 ≤ result }
        ensures few { result ≤ 16 }
    {
        self.entries.len() as u8
    }

    /// Returns how many intervals of the given node are known.
    pub fn at(&self, node: u8) -> u32
        requires { node < length self.now }
        ensures { result ≡ entry self.now node }
    {
        self.entries[usize::from(node)]
    }

    /// Sets the given node's entry to `index`, which is greater than the entry before.
    pub fn raise(&mut self, node: u8, index: u32)
        requires in_range { node < length self.old }
        requires greater { entry self.old node < index }
        ensures { self.new ≡ slice_set self.old node index }
    {
        self.set(node, index);
    }

    /// Sets the given node's entry to `index`, greater or not.
    pub fn set(&mut self, node: u8, index: u32)
        requires { node < length self.old }
        ensures { self.new ≡ slice_set self.old node index }
    {
        let place = usize::from(node);
        self.entries[place] = index;
    }

    /// Raises each entry to that of `other` where that one is greater. Both times have equally many entries.
    pub fn join(&mut self, other: &Time)
        requires { length self.old ≡ length other.now }
        ensures { self.new ≡ joined self.old other.now }
    {
        let entries = self.entries.as_mut_slice();
        for (node, entry) in entries.iter_mut().enumerate() {
            *entry = (*entry).max(other.entries[node]);
        }
    }

    /// Returns whether every entry is at least as large as that of `other`. Both times have equally many entries.
    pub fn covers(&self, other: &Time) -> bool
        requires { length self.now ≡ length other.now }
        ensures { IsTrue result ↔ Covers self.now other.now }
    {
        self.entries
            .iter()
            .zip(other.entries.iter())
            .all(|(mine, theirs)| *theirs <= *mine)
    }

    /// Returns the sum of the entries. It serves to order intervals: a stamp that covers a different one weighs more.
    pub fn weight(&self) -> u64
        ensures { result ≡ weight_of self.now }
    {
        self.entries.iter().map(|entry| u64::from(*entry)).sum()
    }

    /// Returns a time with the same entries.
    pub fn copy(&self) -> Self
        ensures { result ≡ self.now }
    {
        Time {
            entries: ArrayVec::try_from(self.entries.as_slice()).unwrap(),
        }
    }
}
