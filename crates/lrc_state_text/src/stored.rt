// The intervals that a node stores, with the changes that are stored.

ghost use Rattle.std.specs.Prelude.{◌≡◌, ◌<◌, ◌≤◌, ◌++◌, IfOk, OnOk, length};
ghost use Rattle.std.specs.Option.{option_to_list};
ghost use Rattle.lrc_state_text.specs.Intervals.{changes_stored, intervals_stored, is_same, page_changes, stored_in, with_changes};

use lrc_memory::Memory;
use lrc_page::Changes;
use lrc_store::{Interval, Intervals};
use lrc_time::Time;
use smallvec::SmallVec;
use std::alloc::{AllocError, Global};
use std::default::MadeWith;
use std::marker::Model;

// Of how many pages the changes stand in the interval itself, which asks for memory where there are more. Most write one.
const FEW_PAGES: usize = 1;

/// The changes that an interval made to a page.
#[derive(Drop)]
pub struct PageChanges {
    pub page: u16,
    pub changes: Changes,
}

/// Makes changes of no word, for the unused places of a list.
impl MadeWith<Global> for PageChanges {
    fn made_with(alloc: Global) -> Self {
        PageChanges {
            page: 0,
            changes: Changes::empty(alloc),
        }
    }
}

/// An interval that a node stores, with those of its changes that the node stores too, by page.
#[derive(Drop)]
pub(crate) struct StoredInterval {
    pub(crate) interval: Interval,
    pub(crate) changes: SmallVec<PageChanges, FEW_PAGES>,
}

impl Model for StoredInterval {
    ghost use Rattle.lrc_state_text.specs.Intervals as intervals;

    ghost Value = { intervals.StoredInterval };

    ghost view = { λ s. record { interval = s.interval; changes = s.changes.items } };
}

impl PartialEq for PageChanges {
    ghost use Rattle.std.specs.Prelude.{◌≡◌, ◌↔◌, IsTrue};
    ghost use Rattle.std.specs.Cmp.{partial_equiv_from_equiv};
    ghost use Rattle.lrc_state_text.specs.Intervals.{same_changes, same_changes_equiv};

    ghost eq = { same_changes };

    ghost laws = { partial_equiv_from_equiv same_changes_equiv };

    fn eq(&self, other: &PageChanges) -> bool
        ensures eq { result ≡ same_changes self.now other.now }
        ensures same { IsTrue result ↔ (self.now ≡ other.now) }
    {
        self.page == other.page && self.changes == other.changes
    }
}

impl PageChanges {
    // A copy of the changes.
    fn duplicate(&self) -> Result<PageChanges, AllocError>
        ensures { IfOk result (λ changes. changes ≡ self.now) }
    {
        Ok(PageChanges {
            page: self.page,
            changes: self.changes.duplicate()?,
        })
    }
}

impl StoredInterval {
    /// Returns a copy of the interval with its changes.
    pub(crate) fn duplicate(&self, alloc: Global) -> Result<StoredInterval, AllocError>
        ensures { IfOk result (λ stored. stored ≡ self.now) }
    {
        let mut changes = SmallVec::new(alloc);
        for part in self.changes.as_slice() {
            changes.push(part.duplicate()?)?;
        }
        Ok(StoredInterval {
            interval: self.interval.duplicate()?,
            changes,
        })
    }

    /// Returns whether the other one is the same interval with the same changes.
    pub(crate) fn is_same(&self, other: &StoredInterval) -> bool
        ensures { result ≡ is_same self.now other.now }
    {
        self.interval.node == other.interval.node
            && self.interval.index() == other.interval.index()
            && self.changes.as_slice() == other.changes.as_slice()
    }
}

#[tactic(auto, using(crate::proofs::Lists::set_next))]
// The indices of the intervals that were added last.
fn last_added(memory: &Memory, nodes: u8) -> Time
    requires nodes { nodes ≡ length memory.now.memory.store.last }
    requires some { 0 < nodes }
    requires few { nodes ≤ 16 }
    ensures { result ≡ memory.now.memory.store.last }
{
    let mut time = Time::new(nodes);
    for node in 0..nodes {
        time.set(node, memory.last(node));
    }
    time
}

// All intervals that are stored, by node and index.
fn intervals_stored(memory: &Memory, nodes: u8) -> Result<Intervals, AllocError>
    requires nodes { nodes ≡ length memory.now.memory.store.last }
    requires some { 0 < nodes }
    requires few { nodes ≤ 16 }
    ensures { IfOk result (λ found. found ≡ intervals_stored memory.now.memory) }
{
    memory.newer(&Time::new(nodes), &last_added(memory, nodes))
}

// The changes of a page that an interval names, where they are stored.
fn changes_stored(
    memory: &Memory,
    count: u16,
    interval: &Interval,
    page: u16,
) -> Result<Option<Changes>, AllocError>
    requires { count ≡ length memory.now.memory.copies }
    ensures { IfOk result (λ changes. changes
        ≡ changes_stored memory.now.memory interval.now page) }
{
    if page < count {
        memory.changes_known(interval.node, interval.index(), page)
    } else {
        Ok(None)
    }
}

// Puts the changes of a page that an interval names behind others, where they are stored.
fn put_changes(
    all: &mut SmallVec<PageChanges, FEW_PAGES>,
    memory: &Memory,
    count: u16,
    interval: &Interval,
    page: u16,
) -> Result<(), AllocError>
    requires { count ≡ length memory.now.memory.copies }
    ensures { OnOk result (all.new.items
        ≡ all.old.items ++ option_to_list (page_changes memory.now.memory interval.now page)) }
{
    if let Some(changes) = changes_stored(memory, count, interval, page)? {
        all.push(PageChanges { page, changes })?;
    }
    Ok(())
}

// An interval with its changes that are stored.
fn with_changes(
    alloc: Global,
    memory: &Memory,
    count: u16,
    interval: Interval,
) -> Result<StoredInterval, AllocError>
    requires { count ≡ length memory.now.memory.copies }
    ensures { IfOk result (λ stored. stored ≡ with_changes memory.now.memory interval) }
{
    let mut changes = SmallVec::new(alloc);
    for page in interval.pages.as_slice() {
        put_changes(&mut changes, memory, count, &interval, *page)?;
    }
    Ok(StoredInterval { interval, changes })
}

/// Returns all intervals that a node stores, of `nodes` nodes and `count` pages.
pub(crate) fn stored_in(
    alloc: Global,
    memory: &Memory,
    nodes: u8,
    count: u16,
) -> Result<Vec<StoredInterval>, AllocError>
    requires nodes { nodes ≡ length memory.now.memory.store.last }
    requires some { 0 < nodes }
    requires few { nodes ≤ 16 }
    requires pages { count ≡ length memory.now.memory.copies }
    ensures { IfOk result (λ stored. stored.items ≡ stored_in memory.now.memory) }
{
    let intervals = intervals_stored(memory, nodes)?.into_vec();
    let mut all = Vec::with_capacity(alloc, intervals.len())?;
    for interval in intervals {
        all.push(with_changes(alloc, memory, count, interval)?)?;
    }
    Ok(all)
}
