// One node's memory.

ghost use Rattle.std.specs.Prelude.{◌≡◌, ◌<◌, ◌≤◌, ◌+◌, All, IfOk, OnOk, fold, slice_set, Some, None, length, replicate, if◌then◌else◌};
ghost use Rattle.lrc_time.specs.Time.{entry};
ghost use Rattle.lrc_page.specs.Place.{page_of, pages_of};
ghost use Rattle.lrc_protocol.specs.Pages.{is_readable, fresh_memory, copy_at, value_at, with_written_word, with_interval};
ghost use Rattle.lrc_memory.specs.Notes.{keepers_of, named_of, since_of};
ghost use Rattle.lrc_memory.specs.View.{SameMemory, with_known};

use crate::settle::settle_page;
use lrc_page::{MOST_WORDS, Size, page_of, pages_of};
use lrc_store::{Interval, Store};
use lrc_table::{PageTable, State};
use lrc_time::Time;
use std::alloc::{AllocError, Global};
use std::marker::Model;

/// What a node remembers of a page besides its copy.
#[derive(Drop)]
pub(crate) struct PageNote {
    /// The node's time before the copy became invalid.
    pub(crate) since: Time,
    /// The index of the node's own interval that named the page last.
    pub(crate) named: u32,
    /// The node that keeps the base copy.
    pub(crate) keeper: u8,
}

/// What a node knows of the shared memory. The changes of its closed intervals are made only when they are needed.
#[derive(Drop)]
pub struct Memory {
    pub(crate) me: u8,
    pub(crate) store: Store,
    pub(crate) table: PageTable,
    // A note for each page.
    pub(crate) notes: Vec<PageNote>,
    // The time up to which intervals were collected.
    pub(crate) collected: Time,
    // Whether this time and those of the notes were the store's when they were noted, so that each knows the notices that
    // were added first.
    pub(crate) in_step: bool,
}

impl Model for Memory {
    ghost use Rattle.lrc_memory.specs.View.{Kept, NodeMemory, IsKept, node_seen};

    ghost Value = { NodeMemory };

    ghost use Rattle.lrc_memory.specs.Notes.{keepers_of, named_of, since_of};

    ghost view = { λ m. node_seen (record {
      me = m.me;
      store = m.store;
      table = m.table;
      since = since_of m.notes.items;
      named = named_of m.notes.items;
      keepers = keepers_of m.notes.items;
      collected = m.collected;
      in_step = m.in_step;
    }) };

    ghost invariant = { λ m. IsKept (record {
      me = m.me;
      store = m.store;
      table = m.table;
      since = since_of m.notes.items;
      named = named_of m.notes.items;
      keepers = keepers_of m.notes.items;
      collected = m.collected;
      in_step = m.in_step;
    }) };
}

impl Memory {
    /// Creates the memory of node `me` at the start, in a run of at most 16 nodes, with 1 to 65,536 words. Every word
    /// is zero, and every copy is valid.
    pub fn new(alloc: Global, me: u8, nodes: u8, words: u32, size: Size) -> Result<Self, AllocError>
        requires counted { me < nodes }
        requires few_nodes { nodes ≤ 16 }
        requires some { 1 ≤ words }
        requires few { words ≤ MOST_WORDS }
        ensures { IfOk result (λ memory. memory ≡
            record { me = me; size = size; memory = fresh_memory nodes (pages_of words size) size }) }
    {
        let pages = pages_of(words, size);
        let count = usize::from(pages);
        let start = Time::new(nodes);
        Ok(Memory {
            me,
            store: Store::new(alloc, nodes, pages)?,
            table: PageTable::new(alloc, words, size)?,
            notes: first_notes(alloc, &start, count)?,
            collected: start,
            in_step: true,
        })
    }

    /// Returns the size of the pages.
    pub fn size(&self) -> Size
        ensures { result ≡ self.now.size }
    {
        self.table.size()
    }

    /// Returns whether the copy of a page may be read and written.
    pub fn is_readable(&self, page: u16) -> bool
        requires { page < length self.now.memory.copies }
        ensures { result ≡ is_readable (copy_at self.now.memory page) }
    {
        match self.table.state(page) {
            State::Valid | State::Written => true,
            State::Invalid | State::Absent => false,
        }
    }

    /// Returns the value of a word, or `None` if the copy of its page may not be read.
    pub fn read(&self, word: u32) -> Option<u64>
        requires in_range { word < MOST_WORDS }
        requires on_a_page { page_of word self.now.size < length self.now.memory.copies }
        ensures { result ≡ (if is_readable (copy_at self.now.memory (page_of word self.now.size))
            then Some (value_at self.now.size self.now.memory word) else None) }
    {
        self.table.read(word)
    }

    /// Sets a word, and returns `true`. If the copy of its page may not be written, it returns `false` and changes
    /// nothing. The first write to a page in an interval keeps the page's values as a twin.
    pub fn write(&mut self, word: u32, value: u64) -> Result<bool, AllocError>
        requires in_range { word < MOST_WORDS }
        requires on_a_page { page_of word self.old.size < length self.old.memory.copies }
        ensures done { IfOk result (λ done. done
            ≡ is_readable (copy_at self.old.memory (page_of word self.old.size))) }
        ensures ok { OnOk result (self.new ≡ with_known self.old
            (with_written_word self.old.size word value self.old.memory)) }
        ensures same { SameMemory self.old self.new }
    {
        let page = page_of(word, self.table.size());
        settle_page(&mut self.table, &mut self.store, self.me, &self.notes, page)?;
        self.table.write(word, value)
    }

    /// Closes the open interval, which names the pages written in it. `stamp` is the node's time just after the close.
    pub fn close(&mut self, stamp: &Time) -> Result<(), AllocError>
        requires stamp { length stamp.now ≡ length self.old.memory.store.last }
        requires next { entry stamp.now self.old.me
            ≡ entry self.old.memory.store.last self.old.me + 1 }
        ensures ok { OnOk result (self.new ≡ with_known self.old
            (with_interval self.old.me stamp.now self.old.memory)) }
        ensures same { SameMemory self.old self.new }
    {
        // For the proof: every copy is whole.
        let _whole = self.table.size();
        let pages = self.table.close()?;
        let interval = Interval::new(self.me, stamp.copy(), pages);
        if self.store.add(&interval).is_err() {
            self.table.drop_twins();
            return Err(AllocError);
        }
        name_pages(&mut self.notes, interval.pages.as_slice(), interval.index());
        Ok(())
    }
}

// Sets the index for each of these pages.
fn name_pages(notes: &mut Vec<PageNote>, pages: &[u16], index: u32)
    requires { All (λ page. page < length notes.old.items) pages.now }
    ensures named { named_of notes.new.items
        ≡ fold (λ named page. slice_set named page index) (named_of notes.old.items) pages.now }
    ensures since { since_of notes.new.items ≡ since_of notes.old.items }
    ensures keepers { keepers_of notes.new.items ≡ keepers_of notes.old.items }
{
    for page in pages {
        notes[usize::from(*page)].named = index;
    }
}

// This many notes of pages that no interval has named, with node 0 as the keeper.
fn first_notes(alloc: Global, start: &Time, count: usize) -> Result<Vec<PageNote>, AllocError>
    ensures { IfOk result (λ notes. notes.items
        ≡ replicate count (record { since = start.now; named = 0; keeper = 0 })) }
{
    let mut notes = Vec::with_capacity(alloc, count)?;
    for _ in 0..count {
        notes.push(PageNote {
            since: start.copy(),
            named: 0,
            keeper: 0,
        })?;
    }
    Ok(notes)
}
