// What links the intervals and the notices of a store.

ghost use Rattle.std.specs.Prelude.{◌≡◌, ◌<◌, ◌≤◌, ◌+◌, ℕ, All, AllPairs, IfOk, IsTrue, OnOk, ◌++◌, filter, flat_map, length, map, position};
ghost use Rattle.lrc_time.specs.Time.{knows};
ghost use Rattle.lrc_store.specs.Interval.{index_of};
ghost use Rattle.lrc_store.specs.Lists.{keys_of, knows_notice, places_from};
ghost use Rattle.lrc_store.specs.Nodes.{AreStarts};
ghost use Rattle.lrc_store.specs.Rows.{HasNoGaps};
ghost use Rattle.lrc_store.specs.Linking.{AreLinked, AreNoLinks, AreSameLinks, HaveRoomFor};
ghost use Rattle.lrc_store.specs.Links.{page_named, is_newer_of, is_unknown_on};
ghost use Rattle.lrc_store.specs.Store.{interval_of, is_at};

use crate::arena::Arena;
use crate::chains::{Chains, MOST_ENTRIES};
use crate::interval::Interval;
use crate::key::Key;
use crate::nodes::Nodes;
use lrc_time::Time;
use std::alloc::{AllocError, Global};

/// The links between the intervals of an arena, and between their notices. Each interval is linked to the one before it
/// of its node, and each notice to the one before it of its page. Both are counted in the order of adding.
#[derive(Drop)]
pub(crate) struct Links {
    /// The intervals by node.
    pub(crate) by_node: Nodes,
    /// The notices by page.
    pub(crate) by_page: Chains,
}

impl Links {
    /// Returns no links, for the given numbers of nodes and pages. It fails if memory runs out.
    pub(crate) fn new(alloc: Global, nodes: usize, pages: usize) -> Result<Self, AllocError>
        ensures { IfOk result (λ links. AreNoLinks nodes pages links) }
    {
        Ok(Links {
            by_node: Nodes::new(alloc, nodes)?,
            by_page: Chains::new(alloc, pages)?,
        })
    }

    /// Makes room for the links of one interval of the node, with `more` notices. It fails if memory runs out, or if
    /// there would be more than `MOST_ENTRIES` intervals or notices. Then no link changes.
    pub(crate) fn make_room(&mut self, node: u16, more: usize) -> Result<(), AllocError>
        requires { node < self.old.by_node.lists }
        ensures same { AreSameLinks self.old self.new }
        ensures room { OnOk result (HaveRoomFor node more self.new) }
    {
        self.by_node.reserve(node)?;
        self.by_page.reserve(more)
    }

    /// Links an interval of the node, and its notices of the given pages. There is room for both.
    pub(crate) fn push(&mut self, node: u16, pages: &[u16])
        requires node_in_range { node < self.old.by_node.lists }
        requires pages_in_range { All (λ page. page < self.old.by_page.lists) pages.now }
        requires room { HaveRoomFor node (length pages.now) self.old }
        ensures { AreLinked node pages.now self.old self.new }
    {
        let start = self.by_page.len() as u32;
        self.by_node.push(node, start);
        add_pages(&mut self.by_page, pages);
    }

    /// Links the intervals and notices of the arena anew. There are no more of them than before.
    pub(crate) fn renew(&mut self, arena: &Arena)
        requires nodes_in_range { All (λ stored. stored.node < self.old.by_node.lists)
            arena.now.entries }
        requires fewer_nodes { length arena.now.entries ≤ length self.old.by_node.keys }
        requires fewer_of_each { (node : ℕ) → length (places_from node 0
            (map (λ stored. stored.node) arena.now.entries))
            ≤ length (places_from node 0 self.old.by_node.keys) }
        requires pages_in_range { All (λ notice. notice.1.page < self.old.by_page.lists)
            arena.now.notices }
        requires fewer_pages { length arena.now.notices ≤ length self.old.by_page.keys }
        requires noted { length (flat_map keys_of (map interval_of arena.now.entries))
            ≡ length arena.now.notices }
        ensures node_keys { self.new.by_node.keys ≡ map (λ stored. stored.node) arena.now.entries }
        ensures node_starts { AreStarts self.new.by_node.starts
            (map interval_of arena.now.entries) }
        ensures node_lists { self.new.by_node.lists ≡ self.old.by_node.lists }
        ensures page_keys { self.new.by_page.keys ≡ map page_named arena.now.notices }
        ensures page_lists { self.new.by_page.lists ≡ self.old.by_page.lists }
    {
        link_pages(&mut self.by_page, arena);
        link_nodes(&mut self.by_node, arena);
    }

    /// Returns the notices of a page that the time does not know, oldest first. It walks along the whole list of the
    /// page. It fails if memory runs out.
    pub(crate) fn unknown_on(
        &self,
        arena: &Arena,
        page: u16,
        since: &Time,
    ) -> Result<Vec<(u64, Key)>, AllocError>
        requires linked { self.now.by_page.keys ≡ map page_named arena.now.notices }
        ensures { IfOk result (λ found. found.items
            ≡ filter (is_unknown_on page since.now) arena.now.notices) }
    {
        // Mostly there is one of each node.
        let most = usize::from(since.nodes());
        let mut found = Vec::with_capacity(arena.allocator(), most)?;
        let mut next = self.by_page.first(page);
        while let Some(at) = next {
            let (weight, key) = arena.notice(at as usize);
            if !is_known(since, key.node, key.index) {
                found.push((weight, key))?;
            }
            next = self.by_page.next(at);
        }
        found.reverse();
        Ok(found)
    }

    /// Returns the same as `unknown_on`, if the time knows the first notices of the page in the order of adding. The
    /// walk ends at the first notice that it knows. It fails if memory runs out.
    pub(crate) fn unknown_until_known(
        &self,
        arena: &Arena,
        page: u16,
        since: &Time,
    ) -> Result<Vec<(u64, Key)>, AllocError>
        requires linked { self.now.by_page.keys ≡ map page_named arena.now.notices }
        requires first { AllPairs (λ earlier later. page_named earlier ≡ page
            → page_named later ≡ page
            → IsTrue (knows_notice since.now later.1)
            → IsTrue (knows_notice since.now earlier.1)) arena.now.notices }
        ensures { IfOk result (λ found. found.items
            ≡ filter (is_unknown_on page since.now) arena.now.notices) }
    {
        // Mostly there is one of each node.
        let most = usize::from(since.nodes());
        let mut found = Vec::with_capacity(arena.allocator(), most)?;
        let mut next = self.by_page.first(page);
        while let Some(at) = next {
            let (weight, key) = arena.notice(at as usize);
            if is_known(since, key.node, key.index) {
                next = None;
            } else {
                found.push((weight, key))?;
                next = self.by_page.next(at);
            }
        }
        found.reverse();
        Ok(found)
    }

    /// Adds the node's intervals that `upto` knows and `since` does not to `found`, oldest first. The walk along the
    /// node's list ends at the first interval that `since` knows. It fails if memory runs out.
    pub(crate) fn put_newer_of_node(
        &self,
        arena: &Arena,
        node: u8,
        since: &Time,
        upto: &Time,
        found: &mut Vec<Interval>,
    ) -> Result<(), AllocError>
        requires linked { self.now.by_node.keys ≡ map (λ interval. interval.node)
            (map interval_of arena.now.entries) }
        requires ascending { AllPairs (λ a b. a.node ≡ b.node → index_of a < index_of b)
            (map interval_of arena.now.entries) }
        ensures { OnOk result (found.new.items
            ≡ found.old.items ++ filter (is_newer_of node since.now upto.now)
            (map interval_of arena.now.entries)) }
    {
        let before = found.len();
        let mut next = self.by_node.first(u16::from(node));
        while let Some(at) = next {
            let interval = arena.interval(at as usize);
            if interval.is_known(since) {
                next = None;
            } else {
                if interval.is_known(upto) {
                    found.push(interval.duplicate()?)?;
                }
                next = self.by_node.next(at);
            }
        }
        found[before..].reverse();
        Ok(())
    }

    /// Returns the place of the interval with the key's node and index, or none if it is not there. It counts back from
    /// the node's last interval.
    pub(crate) fn place_of(&self, arena: &Arena, last: &Time, key: Key) -> Option<u32>
        requires linked { self.now.by_node.keys ≡ map (λ interval. interval.node)
            (map interval_of arena.now.entries) }
        requires nodes { self.now.by_node.lists ≡ length last.now }
        requires in_range { All (λ stored. stored.node < length last.now) arena.now.entries }
        requires ascending { AllPairs (λ a b. a.node ≡ b.node → index_of a < index_of b)
            (map interval_of arena.now.entries) }
        requires gapless { HasNoGaps last.now (map interval_of arena.now.entries) }
        ensures { result ≡ position (is_at key.node key.index) arena.now.entries }
    {
        if key.node >= last.nodes() {
            return None;
        }
        let newest = last.at(key.node);
        if key.index > newest {
            return None;
        }
        let back = newest - key.index;
        let place = self.by_node.from_newest(u16::from(key.node), back)?;
        if arena.interval(place as usize).is_at(key.node, key.index) {
            Some(place)
        } else {
            None
        }
    }
}

// Links the notices of these pages, for which there is room.
fn add_pages(by_page: &mut Chains, pages: &[u16])
    requires in_range { All (λ page. page < by_page.old.lists) pages.now }
    requires linked { length by_page.old.keys + length pages.now ≤ by_page.old.room }
    requires few { length by_page.old.keys + length pages.now ≤ MOST_ENTRIES }
    ensures keys { by_page.new.keys ≡ by_page.old.keys ++ pages.now }
    ensures lists { by_page.new.lists ≡ by_page.old.lists }
{
    for page in pages {
        by_page.push(*page);
    }
}

// Links the intervals again, fewer than there were.
fn link_nodes(by_node: &mut Nodes, arena: &Arena)
    requires in_range { All (λ stored. stored.node < by_node.old.lists) arena.now.entries }
    requires fewer { length arena.now.entries ≤ length by_node.old.keys }
    requires fewer_of_each { (node : ℕ) → length (places_from node 0
        (map (λ stored. stored.node) arena.now.entries))
        ≤ length (places_from node 0 by_node.old.keys) }
    requires few { length (flat_map keys_of (map interval_of arena.now.entries)) ≤ MOST_ENTRIES }
    ensures keys { by_node.new.keys ≡ map (λ stored. stored.node) arena.now.entries }
    ensures starts { AreStarts by_node.new.starts (map interval_of arena.now.entries) }
    ensures lists { by_node.new.lists ≡ by_node.old.lists }
{
    // For the proof: there are no more links than their room, and at most `MOST_ENTRIES`.
    let _room = by_node.len();
    by_node.clear();
    let mut start = 0;
    for at in 0..arena.len() {
        let interval = arena.interval(at);
        by_node.push(u16::from(interval.node()), start as u32);
        start += interval.pages.len();
    }
}

// Links the notices again, fewer than there were.
fn link_pages(by_page: &mut Chains, arena: &Arena)
    requires in_range { All (λ notice. notice.1.page < by_page.old.lists) arena.now.notices }
    requires fewer { length arena.now.notices ≤ length by_page.old.keys }
    ensures keys { by_page.new.keys ≡ map page_named arena.now.notices }
    ensures lists { by_page.new.lists ≡ by_page.old.lists }
    ensures few { length arena.now.notices ≤ MOST_ENTRIES }
{
    // For the proof: there are no more links than their room, and at most `MOST_ENTRIES`.
    let _room = by_page.len();
    by_page.clear();
    for at in 0..arena.noted() {
        let (_, key) = arena.notice(at);
        by_page.push(key.page);
    }
}

/// Returns whether the time knows the node's interval with the given index. If the time has no entry for the node, it
/// knows none, but index 0 counts as known.
pub(crate) fn is_known(time: &Time, node: u8, index: u32) -> bool
    ensures { result ≡ knows time.now node index }
{
    if node < time.nodes() {
        index <= time.at(node)
    } else {
        index == 0
    }
}
