// Base copies, their keepers, and collections.

ghost use Rattle.std.specs.Prelude.{◌≡◌, ◌<◌, ◌≤◌, ◌==◌, ◌&&◌, filter, slice_index, IfOk, OnErr, OnOk, MatchOption, Some, None, length, true};
ghost use Rattle.std.specs.Prelude.{map, min, option_map, unwrap_or};
ghost use Rattle.lrc_time.specs.Time.{entry};
ghost use Rattle.lrc_protocol.specs.Times.{is_named};
ghost use Rattle.lrc_protocol.specs.Pages.{is_readable, changes_of, copy_at};
ghost use Rattle.lrc_protocol.specs.Barriers.{with_base, base_at, kept_pages, with_keepers, after_collection, least, namers_of};
ghost use Rattle.std.specs.List.{enumerate_from, range_with_len};
ghost use Rattle.lrc_store.specs.Store.{intervals_of};
ghost use Rattle.lrc_memory.specs.Notes.{keepers_of, named_of, since_of};
ghost use Rattle.lrc_memory.specs.Steps.{without_bases};
ghost use Rattle.lrc_memory.specs.View.{SameMemory, with_known};
ghost use Rattle.lrc_memory.specs.Turns.{NoneIsWritten};

use crate::learning::is_last;
use crate::memory::{Memory, PageNote};
use lrc_page::{MOST_PAGES, Page, Pages};
use lrc_store::Store;
use lrc_table::PageTable;
use lrc_time::Time;
use std::alloc::{AllocError, Global};

impl Memory {
    /// Returns the base copy of a page, if one is kept here.
    pub fn base(&self, page: u16) -> Option<&Page>
        requires { page < length self.now.memory.copies }
        ensures { MatchOption result (base_at self.now.memory page ≡ None)
            (λ base. base_at self.now.memory page ≡ Some base.now) }
    {
        self.table.base(page)
    }

    /// Gives a new keeper to each page that was named since the last collection: the lowest node that named it.
    pub fn take_keepers(&mut self)
        ensures taken { self.new ≡ with_known self.old (with_keepers self.old.memory) }
        ensures same { SameMemory self.old self.new }
    {
        // For the proof: there are at most `MOST_PAGES` pages.
        let _few = self.table.size();
        take_keepers(&self.store, &mut self.notes);
    }

    /// Returns the pages that this node keeps and that were named since the last collection, ascending.
    pub fn kept_pages(&self) -> Result<Pages, AllocError>
        ensures pages { IfOk result (λ pages. pages ≡ kept_pages self.now.me self.now.memory) }
    {
        // For the proof: there are at most `MOST_PAGES` pages.
        let _few = self.table.size();
        kept_pages(*self.notes.allocator(), &self.store, self.me, &self.notes)
    }

    /// Keeps the values of a valid copy as the base copy of its page. On error nothing changes.
    pub fn keep_base(&mut self, page: u16) -> Result<(), AllocError>
        requires in_range { page < length self.old.memory.copies }
        requires readable { is_readable (copy_at self.old.memory page) ≡ true }
        requires closed { changes_of (copy_at self.old.memory page) ≡ None }
        ensures ok { OnOk result (self.new ≡ with_known self.old (with_base self.old.memory page)) }
        ensures err { OnErr result (self.new ≡ self.old) }
        ensures same { SameMemory self.old self.new }
    {
        self.table.keep_base(page)
    }

    /// Drops everything that the time of a collection covers: intervals with their changes, made or not, base copies of
    /// pages that other nodes keep, and invalid copies. The time must cover the node's own intervals.
    pub fn collect(&mut self, time: &Time)
        requires time { length time.now ≡ length self.old.memory.store.last }
        requires closed { NoneIsWritten self.old.memory }
        requires own { entry self.old.memory.store.last self.old.me ≤ entry time.now self.old.me }
        ensures collected { self.new ≡ with_known self.old
            (after_collection self.old.me time.now self.old.memory) }
        ensures same { SameMemory self.old self.new }
    {
        let in_step = is_last(&self.store, time);
        self.store.discard(time);
        self.table.drop_twins();
        self.table.drop_invalid();
        drop_bases(&mut self.table, self.me, &self.notes);
        self.collected = time.copy();
        self.in_step &= in_step;
    }
}

// Drops the base copies of the pages that other nodes keep.
fn drop_bases(table: &mut PageTable, me: u8, notes: &[PageNote])
    requires { length notes.now ≡ length table.old.copies }
    ensures { table.new ≡ without_bases me (keepers_of notes.now) table.old }
{
    // For the proof: there are at most `MOST_PAGES` pages.
    let _few = table.size();
    for (page, note) in notes.iter().enumerate() {
        if note.keeper != me {
            table.drop_base(page as u16);
        }
    }
}

// Each page that an interval names gets the lowest node of those that name it as its keeper.
fn take_keepers(store: &Store, notes: &mut Vec<PageNote>)
    requires { length notes.old.items ≤ MOST_PAGES }
    ensures keepers { keepers_of notes.new.items
        ≡ map (λ place. unwrap_or (least (namers_of store.now place.0)) place.1)
        (enumerate_from 0 (keepers_of notes.old.items)) }
    ensures since { since_of notes.new.items ≡ since_of notes.old.items }
    ensures named { named_of notes.new.items ≡ named_of notes.old.items }
{
    for page in 0..notes.len() as u16 {
        if let Some(node) = lowest_namer(store, page) {
            notes[usize::from(page)].keeper = node;
        }
    }
}

// The lowest node that named the page, found along the page's list.
fn lowest_namer(store: &Store, page: u16) -> Option<u8>
    ensures { result ≡ least (namers_of store.now page) }
{
    let mut lowest = None;
    let mut next = store.first_on_page(page);
    while let Some(at) = next {
        if let Some(key) = store.key(at) {
            lowest = Some(lower(lowest, key.node));
        }
        next = store.next_on_page(at);
    }
    lowest
}

// The lower of two nodes, where the first may be missing.
fn lower(first: Option<u8>, second: u8) -> u8
    ensures { result ≡ unwrap_or (option_map (min second) first) second }
{
    match first {
        Some(node) if node < second => node,
        _ => second,
    }
}

// The pages that this node keeps and that an interval names, ascending.
fn kept_pages(alloc: Global, store: &Store, me: u8, notes: &[PageNote]) -> Result<Pages, AllocError>
    requires { length notes.now ≤ MOST_PAGES }
    ensures { IfOk result (λ pages. pages
        ≡ filter (λ page. is_named (intervals_of store.now) page
        && (slice_index (keepers_of notes.now) page == me))
        (range_with_len 0 (length notes.now))) }
{
    let mut pages = Pages::empty(alloc);
    for page in 0..notes.len() as u16 {
        if is_kept(store, me, notes, page) {
            pages.push(page)?;
        }
    }
    Ok(pages)
}

// Whether this node keeps the page and an interval names it.
fn is_kept(store: &Store, me: u8, notes: &[PageNote], page: u16) -> bool
    requires { page < length notes.now }
    ensures { result ≡ (is_named (intervals_of store.now) page
        && (slice_index (keepers_of notes.now) page == me)) }
{
    store.first_on_page(page).is_some() && notes[usize::from(page)].keeper == me
}
