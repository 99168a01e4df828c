// The intervals that a node knows.

ghost use Rattle.std.specs.Prelude.{◌≡◌, ◌+◌, ◌<◌, ◌≤◌, ◌↔◌, ℕ, All, IfOk, IsTrue, List, OnErr, OnOk, filter, is_some, length, map, []};
ghost use Rattle.std.specs.Option.{option_copied};
ghost use Rattle.lrc_time.specs.Time.{entry};
ghost use Rattle.lrc_store.specs.Links.{ranked};
ghost use Rattle.lrc_store.specs.Store.{StoreRecord, IsMissing, IsStore, intervals_of, is_missing};

use crate::arena::Arena;
use crate::interval::Interval;
use crate::intervals::Intervals;
use crate::key::Key;
use crate::links::Links;
use lrc_page::{Changes, MOST_PAGES};
use lrc_time::Time;
use std::alloc::{AllocError, Global};
use std::marker::Model;

/// The intervals that a node knows, each with its write notices, and the changes that have arrived for some of the
/// notices.
///
/// Intervals and notices are kept in the order of adding, and the changes in their notice. Each interval is linked to
/// the one before it of its node, and each notice to the one before it of its page. What is newer or missing is found
/// along these lists. An interval is found at once by its node and index, because no index is left out between a node's
/// oldest interval and its newest. Its notice of a page is found by halving. `add` and `attach` cost what they add, and
/// `discard` costs as much as the whole store.
#[derive(Drop)]
pub struct Store {
    pages: u16,
    last: Time,
    pub(crate) arena: Arena,
    pub(crate) links: Links,
}

impl Model for Store {
    ghost use Rattle.lrc_store.specs.Store.{StoreRecord};
    ghost use Rattle.lrc_store.specs.Links.{IsLinkedUp};

    ghost Value = { StoreRecord };

    ghost view = { λ s. record { pages = s.pages; last = s.last; entries = s.arena.entries } };

    ghost invariant = { λ s.
        IsLinkedUp (record { pages = s.pages; last = s.last; entries = s.arena.entries })
        s.links.by_node s.links.by_page s.arena.notices };
}

impl Store {
    ghost use Rattle.lrc_store.specs.Interval.{index_of};
    ghost use Rattle.lrc_store.specs.Store.{IsStore, empty_store, added, attached, discarded, notice_at, changes_at};
    ghost use Rattle.lrc_store.specs.Store.{IsMissing, IsNewer, missing_of, newer_of};
    ghost use Rattle.lrc_store.specs.Lists.{KnowsTheFirst};

    /// Returns a store that knows no interval, for 1 to 16 nodes and at most `MOST_PAGES` pages. It fails if memory
    /// runs out.
    pub fn new(alloc: Global, nodes: u8, pages: u16) -> Result<Self, AllocError>
        requires some { 1 ≤ nodes }
        requires few { nodes ≤ 16 }
        requires pages_in_range { pages ≤ MOST_PAGES }
        ensures { IfOk result (λ store. store ≡ empty_store nodes pages) }
    {
        Ok(Store {
            pages,
            last: Time::new(nodes),
            arena: Arena::new(alloc),
            links: Links::new(alloc, usize::from(nodes), usize::from(pages))?,
        })
    }

    /// Adds the interval that follows the last one added of its node. It fails if memory runs out, or if there would be
    /// more than 4,294,967,295 intervals or notices. Then nothing changes.
    pub fn add(&mut self, interval: &Interval) -> Result<(), AllocError>
        requires stamp { length interval.now.stamp ≡ length self.old.last }
        requires pages { All (λ page. page < self.old.pages) interval.now.pages }
        requires next { index_of interval.now ≡ entry self.old.last interval.now.node + 1 }
        ensures ok { OnOk result (self.new ≡ added self.old interval.now) }
        ensures err { OnErr result (self.new ≡ self.old) }
        ensures sound { IsStore self.new }
    {
        let node = u16::from(interval.node);
        self.links.make_room(node, interval.pages.len())?;
        self.arena.push(interval)?;
        self.links.push(node, interval.pages.as_slice());
        self.last.raise(interval.node, interval.index());
        Ok(())
    }

    /// Returns the greatest index ever added of the node, or 0 if there was none. A `discard` does not lower it.
    pub fn last(&self, node: u8) -> u32
        requires { node < length self.now.last }
        ensures index { result ≡ entry self.now.last node }
        ensures sound { IsStore self.now }
    {
        self.last.at(node)
    }

    /// Returns the number of intervals.
    pub fn len(&self) -> usize
        ensures { result ≡ length self.now.entries }
    {
        self.arena.len()
    }

    /// Returns whether there is no interval.
    pub fn is_empty(&self) -> bool
        ensures { IsTrue result ↔ (self.now.entries ≡ []) }
    {
        self.arena.len() == 0
    }

    /// Returns the changes of the notice with the given key, or none if they are not known.
    pub fn changes(&self, key: Key) -> Option<&Changes>
        ensures { option_copied result ≡ changes_at self.now key }
    {
        let place = self.links.place_of(&self.arena, &self.last, key)?;
        let start = self.links.by_node.start(place) as usize;
        self.arena.changes(place as usize, start, key.page)
    }

    /// Returns whether the store has the notice with the given key: the interval is there and names the page.
    pub fn has_notice(&self, key: Key) -> bool
        ensures { result ≡ is_some (notice_at self.now key) }
    {
        if let Some(place) = self.links.place_of(&self.arena, &self.last, key) {
            self.arena.has_notice(place as usize, key.page)
        } else {
            false
        }
    }

    /// Keeps the changes of the notice with the given key. The store has the notice, still without changes.
    pub fn attach(&mut self, key: Key, changes: Changes)
        requires { notice_at self.old key ≡ Some (record { page = key.page; changes = None }) }
        ensures { self.new ≡ attached self.old key changes }
    {
        if let Some(place) = self.links.place_of(&self.arena, &self.last, key) {
            let start = self.links.by_node.start(place) as usize;
            self.arena.attach(place as usize, start, key.page, changes);
        }
    }

    /// Removes the intervals that the time knows, with their notices. The others move to the front and are linked anew,
    /// so earlier links are no longer valid. The greatest index added of each node is kept.
    pub fn discard(&mut self, time: &Time)
        requires { length time.now ≡ length self.old.last }
        ensures { self.new ≡ discarded self.old time.now }
    {
        self.arena.discard(time);
        self.links.renew(&self.arena);
    }

    // How many intervals there are at most that `upto` knows and `since` does not.
    fn most_newer(&self, since: &Time, upto: &Time) -> usize {
        let counted = upto.weight().saturating_sub(since.weight());
        self.arena.len().min(counted as usize)
    }

    /// Returns the intervals that `upto` knows and `since` does not, ascending by node, then index. It fails if memory
    /// runs out.
    pub fn newer_than(&self, since: &Time, upto: &Time) -> Result<Intervals, AllocError>
        requires since { length since.now ≡ length self.now.last }
        requires upto { length upto.now ≡ length self.now.last }
        ensures newer { IfOk result (λ found. IsNewer self.now since.now upto.now found) }
        ensures value { IfOk result (λ found. found ≡ newer_of self.now since.now upto.now) }
    {
        let most = self.most_newer(since, upto);
        let mut found = Vec::with_capacity(self.arena.allocator(), most)?;
        for node in 0..self.last.nodes() {
            self.links
                .put_newer_of_node(&self.arena, node, since, upto, &mut found)?;
        }
        Ok(Intervals::from_ascending(found))
    }

    /// Returns the notices of a page that `since` does not know, in the order in which their changes are applied:
    /// ascending by the weight of the interval's stamp, then by node, then by index. It fails if memory runs out.
    pub fn missing(&self, page: u16, since: &Time) -> Result<Vec<Key>, AllocError>
        requires { length since.now ≡ length self.now.last }
        ensures missing { IfOk result (λ found. IsMissing self.now page since.now found.items) }
        ensures value { IfOk result (λ found. found.items ≡ missing_of self.now page since.now) }
    {
        let found = self.links.unknown_on(&self.arena, page, since)?;
        keys_in_order(self.arena.allocator(), found)
    }

    /// Returns the same as `missing`, if `since` knows the first notices of the page in the order of adding. The walk
    /// along the page's list ends at the newest notice that `since` knows. So the cost is that of what is missing,
    /// however long the list is. It fails if memory runs out.
    pub fn missing_until_known(&self, page: u16, since: &Time) -> Result<Vec<Key>, AllocError>
        requires since { length since.now ≡ length self.now.last }
        requires first { KnowsTheFirst self.now page since.now }
        ensures missing { IfOk result (λ found. IsMissing self.now page since.now found.items) }
        ensures value { IfOk result (λ found. found.items ≡ missing_of self.now page since.now) }
    {
        let found = self.links.unknown_until_known(&self.arena, page, since)?;
        keys_in_order(self.arena.allocator(), found)
    }
}

// The keys of what is missing, of whatever page and store, in the order in which changes are applied.
fn keys_in_order(alloc: Global, mut found: Vec<(u64, Key)>) -> Result<Vec<Key>, AllocError>
    ensures { IfOk result (λ keys. (store : StoreRecord) (page : ℕ) (since : List ℕ) → IsStore store
        → found.items ≡ map (ranked page) (filter (is_missing page since) (intervals_of store))
        → IsMissing store page since keys.items) }
{
    found.sort_unstable();
    keys_of(alloc, &found)
}

// The key of each pair.
fn keys_of(alloc: Global, found: &[(u64, Key)]) -> Result<Vec<Key>, AllocError>
    ensures { IfOk result (λ keys. keys.items ≡ map (λ pair. pair.1) found.now) }
{
    let mut keys = Vec::with_capacity(alloc, found.len())?;
    for (_, key) in found {
        keys.push(*key)?;
    }
    Ok(keys)
}
