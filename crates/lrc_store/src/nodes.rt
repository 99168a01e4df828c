// The intervals of each node, as lists.

ghost use Rattle.std.specs.Prelude.{◌≡◌, ◌<◌, ◌≤◌, ◌==◌, ℕ, All, IfOk, List, OnOk, [], ◌∷◌, ◌++◌, length, slice_get, slice_index, slice_index_or, take};
ghost use Rattle.lrc_store.specs.Lists.{list_of};
ghost use Rattle.lrc_store.specs.Rows.{HasRoom, HaveRoom, RowRecord};
ghost use Rattle.lrc_store.specs.Chains.{last_at};
ghost use Rattle.lrc_store.specs.declared.chains.TheConstants.{MOST_ENTRIES};

use crate::chains::Chains;
use crate::row::NodePlaces;
use std::alloc::{AllocError, Global};
use std::marker::Model;

/// For each node, the list of its intervals, newest first, and a row of their places in which an interval is found by
/// its index. For each interval, the place of its first notice.
#[derive(Drop)]
pub(crate) struct Nodes {
    chains: Chains,
    starts: Vec<u32>,
    rows: Vec<NodePlaces>,
}

impl Model for Nodes {
    ghost use Rattle.std.specs.Prelude.{◌≡◌, length, min, vec_capacity};
    ghost use Rattle.lrc_store.specs.Nodes.{NodesRecord};

    ghost Value = { NodesRecord };

    ghost view = { λ n. record {
      lists = n.chains.lists;
      keys = n.chains.keys;
      starts = n.starts.items;
      room = min n.chains.room (vec_capacity n.starts);
      rows = n.rows.items;
    } };

    ghost use Rattle.lrc_store.specs.Rows.{AreRows};

    ghost invariant = { λ n. (length n.starts.items ≡ length n.chains.keys) × AreRows n.rows.items n.chains.lists n.chains.keys };
}

impl Nodes {
    /// Returns lists without intervals, for the given number of nodes. It fails if memory runs out.
    pub(crate) fn new(alloc: Global, nodes: usize) -> Result<Self, AllocError>
        ensures lists { IfOk result (λ by_node. by_node.lists ≡ nodes) }
        ensures keys { IfOk result (λ by_node. by_node.keys ≡ []) }
        ensures starts { IfOk result (λ by_node. by_node.starts ≡ []) }
    {
        let rows = empty_rows(alloc, nodes)?;
        Ok(Nodes {
            chains: Chains::new(alloc, nodes)?,
            starts: Vec::new(alloc),
            rows,
        })
    }

    /// Returns the number of intervals.
    pub(crate) fn len(&self) -> usize
        ensures count { result ≡ length self.now.keys }
        ensures room { length self.now.keys ≤ self.now.room }
        ensures few { length self.now.keys ≤ MOST_ENTRIES }
    {
        // For the proof: there are no more starts than their room.
        let _starts = self.starts.len();
        self.chains.len()
    }

    /// Makes room for one more interval of the node. It fails if memory runs out, or if there would be more than
    /// `MOST_ENTRIES` intervals. Then no interval changes.
    pub(crate) fn reserve(&mut self, node: u16) -> Result<(), AllocError>
        requires { node < self.old.lists }
        ensures lists { self.new.lists ≡ self.old.lists }
        ensures keys { self.new.keys ≡ self.old.keys }
        ensures starts { self.new.starts ≡ self.old.starts }
        ensures ok { OnOk result (length self.old.keys < self.new.room) }
        ensures few { OnOk result (length self.old.keys < MOST_ENTRIES) }
        ensures row { OnOk result (HasRoom self.new.rows self.old.keys node) }
    {
        self.chains.reserve(1)?;
        self.starts.reserve(1)?;
        self.rows[usize::from(node)].reserve()
    }

    /// Adds an interval of the node, whose notices begin at `start`. There is room for it.
    pub(crate) fn push(&mut self, node: u16, start: u32)
        requires in_range { node < self.old.lists }
        requires room { length self.old.keys < self.old.room }
        requires few { length self.old.keys < MOST_ENTRIES }
        requires row { HasRoom self.old.rows self.old.keys node }
        ensures lists { self.new.lists ≡ self.old.lists }
        ensures keys { self.new.keys ≡ self.old.keys ++ node ∷ [] }
        ensures starts { self.new.starts ≡ self.old.starts ++ start ∷ [] }
        ensures room { self.old.room ≤ self.new.room }
        ensures rows { (keys : List ℕ) → HaveRoom self.old.lists self.old.rows keys
            → HaveRoom self.old.lists self.new.rows keys }
    {
        let at = self.chains.len() as u32;
        self.chains.push(node);
        let Ok(()) = self.starts.push(start) else {
            unreachable!();
        };
        self.rows[usize::from(node)].push(at);
    }

    /// Removes all intervals, but keeps their room.
    pub(crate) fn clear(&mut self)
        ensures lists { self.new.lists ≡ self.old.lists }
        ensures keys { self.new.keys ≡ [] }
        ensures starts { self.new.starts ≡ [] }
        ensures room { self.old.room ≤ self.new.room }
        ensures rows { HaveRoom self.old.lists self.new.rows self.old.keys }
    {
        self.chains.clear();
        self.starts.clear();
        clear_rows(&mut self.rows);
    }

    /// Returns the interval of the node after which `back` more of that node were added, or none if there is none.
    pub(crate) fn from_newest(&self, node: u16, back: u32) -> Option<u32>
        requires { node < self.now.lists }
        ensures { result ≡ slice_get (list_of self.now.keys node) back }
    {
        self.rows[usize::from(node)].from_last(back)
    }

    /// Returns the newest interval of a node, or none if there is none.
    pub(crate) fn first(&self, node: u16) -> Option<u32>
        ensures { result ≡ last_at (λ other. other == node) self.now.keys }
    {
        self.chains.first(node)
    }

    /// Returns the newest interval of the same node before the given one, or none if there is none.
    pub(crate) fn next(&self, at: u32) -> Option<u32>
        requires { at < length self.now.keys }
        ensures { result ≡ last_at (λ other. other == slice_index self.now.keys at)
            (take at self.now.keys) }
    {
        self.chains.next(at)
    }

    /// Returns the place at which the interval's notices begin.
    pub(crate) fn start(&self, at: u32) -> u32
        requires { at < length self.now.keys }
        ensures { result ≡ slice_index self.now.starts at }
    {
        self.starts[at as usize]
    }
}

// A row for each node, without places.
fn empty_rows(alloc: Global, nodes: usize) -> Result<Vec<NodePlaces>, AllocError>
    ensures count { IfOk result (λ rows. length rows.items ≡ nodes) }
    ensures none { IfOk result (λ rows. All (λ row. row.places ≡ []) rows.items) }
{
    let mut rows = Vec::new(alloc);
    for _ in 0..nodes {
        rows.push(NodePlaces::new(alloc))?;
    }
    Ok(rows)
}

// Takes all places out of the rows.
fn clear_rows(rows: &mut [NodePlaces])
    ensures count { length rows.new ≡ length rows.old }
    ensures none { All (λ row. row.places ≡ []) rows.new }
    ensures room { (at : ℕ) (d : RowRecord) → at < length rows.old
        → length (slice_index_or rows.old at d).places ≤ (slice_index_or rows.new at d).room }
{
    for at in 0..rows.len() {
        rows[at].clear();
    }
}
