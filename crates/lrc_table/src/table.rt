ghost use Rattle.std.specs.Prelude.{◌≡◌, ◌≢◌, ◌<◌, ◌≤◌, ℕ, All, IfOk, OnOk, OnErr, MatchOption, IsTrue, Some, None, false, length};
ghost use Rattle.lrc_page.specs.Page.{words_of};
ghost use Rattle.lrc_page.specs.Place.{page_of, offset_of};
ghost use Rattle.lrc_table.specs.PageCopy.{IsWhole, is_readable, is_pending, pending_changes, read_at, opened, after_write, with_value, closed, settled};
ghost use Rattle.lrc_table.specs.PageCopy.{without_twin, invalidated, patched, repaired, installed, dropped, with_base, without_base};
ghost use Rattle.lrc_table.specs.Table.{fresh_table, copy_at, with_copy, with_each, written_pages};

use crate::slot::{Slot, State};
use lrc_page::{Changes, MOST_PAGES, MOST_WORDS, Page, Pages, Size, offset_of, page_of, pages_of};
use std::alloc::{AllocError, Global};
use std::marker::Model;

/// A node's copy of each page of a shared memory. Words count from 0 over all pages.
#[derive(Drop)]
pub struct PageTable {
    size: Size,
    slots: Vec<Slot>,
    // The written pages, so that a close costs what was written.
    written: Pages,
    // The twins that were let go, whose memory later ones take.
    spare: Vec<Vec<u64>>,
}

impl Model for PageTable {
    ghost use Rattle.lrc_table.specs.Table.{Table, IsSound};

    ghost Value = { Table };

    ghost view = { λ table. record { size = table.size; copies = table.slots.items } };

    ghost invariant = { λ table. IsSound (record { size = table.size; copies = table.slots.items }) table.written };
}

impl PageTable {
    /// Creates a table for 1 to 65,536 words, on pages of the given size. Every word is zero, and every copy is valid.
    pub fn new(alloc: Global, words: u32, size: Size) -> Result<Self, AllocError>
        requires some { 1 ≤ words }
        requires few { words ≤ MOST_WORDS }
        ensures { IfOk result (λ table. table ≡ fresh_table words size) }
    {
        let pages = pages_of(words, size);
        let mut slots = Vec::with_capacity(alloc, usize::from(pages))?;
        for _ in 0..pages {
            slots.push(Slot::zero(alloc, size)?)?;
        }
        Ok(PageTable {
            size,
            slots,
            written: Pages::empty(alloc),
            spare: Vec::new(alloc),
        })
    }

    /// Returns the size of the pages. Every copy, every twin and every base copy has that many values. A written copy
    /// has a twin, and a copy that may not be read has none.
    pub fn size(&self) -> Size
        ensures size { result ≡ self.now.size }
        ensures whole { All (IsWhole self.now.size) self.now.copies }
        ensures few { length self.now.copies ≤ MOST_PAGES }
    {
        self.size
    }

    /// Returns the state of a page's copy.
    pub fn state(&self, page: u16) -> State
        requires { page < length self.now.copies }
        ensures { result ≡ (copy_at self.now page).state }
    {
        self.slots[usize::from(page)].state()
    }

    /// Returns the value of a word, or `None` if the copy of its page may not be read.
    pub fn read(&self, word: u32) -> Option<u64>
        requires in_range { word < MOST_WORDS }
        requires on_a_page { page_of word self.now.size < length self.now.copies }
        ensures { result ≡ read_at (copy_at self.now (page_of word self.now.size))
            (offset_of word self.now.size) }
    {
        let page = usize::from(page_of(word, self.size));
        self.slots[page].read(offset_of(word, self.size))
    }

    /// Sets a word, and returns `true`. If the copy of its page may not be written, it returns `false` and changes
    /// nothing. The page must not be pending. The first write to a valid copy keeps its values as a twin. On error the
    /// table does not change.
    pub fn write(&mut self, word: u32, value: u64) -> Result<bool, AllocError>
        requires in_range { word < MOST_WORDS }
        requires on_a_page { page_of word self.old.size < length self.old.copies }
        requires settled { is_pending (copy_at self.old (page_of word self.old.size)) ≡ false }
        ensures done { IfOk result (λ done. done
            ≡ is_readable (copy_at self.old (page_of word self.old.size)).state) }
        ensures ok { OnOk result (self.new ≡ with_copy self.old (page_of word self.old.size)
            (after_write (copy_at self.old (page_of word self.old.size))
            (offset_of word self.old.size) value)) }
        ensures err { OnErr result (self.new ≡ self.old) }
    {
        let page = page_of(word, self.size);
        match self.state(page) {
            State::Invalid | State::Absent => return Ok(false),
            State::Valid => self.open(page)?,
            State::Written => {}
        }
        let offset = offset_of(word, self.size);
        self.slots[usize::from(page)].set(offset, value);
        Ok(true)
    }

    // Keeps the values of a valid copy as its twin, and lists its page as written. An error leaves the table as it was.
    fn open(&mut self, page: u16) -> Result<(), AllocError>
        requires in_range { page < length self.old.copies }
        requires valid { (copy_at self.old page).state ≡ State.Valid }
        ensures ok { OnOk result (self.new ≡ with_copy self.old page
            (opened (copy_at self.old page))) }
        ensures err { OnErr result (self.new ≡ self.old) }
    {
        let place = usize::from(page);
        let twin = self.slots[place].values(self.spare.pop())?;
        self.written.insert(page)?;
        self.slots[place].open(twin);
        Ok(())
    }

    /// Ends the writing of all pages, and returns those written since the last close, ascending. A page counts as
    /// written even if its values are the same again. All of them become valid and keep their twins: their changes are
    /// pending. On error the table does not change.
    pub fn close(&mut self) -> Result<Pages, AllocError>
        ensures pages { IfOk result (λ pages. pages ≡ written_pages self.old) }
        ensures ok { OnOk result (self.new ≡ with_each self.old closed) }
        ensures err { OnErr result (self.new ≡ self.old) }
    {
        let pages = self.written.duplicate()?;
        for page in pages.as_slice() {
            self.slots[usize::from(*page)].close();
        }
        self.written.clear();
        Ok(pages)
    }

    /// Returns the values of a page's copy, whether or not they may be read.
    pub fn values(&self, page: u16) -> &[u64]
        requires { page < length self.now.copies }
        ensures { result.now ≡ (copy_at self.now page).values }
    {
        self.slots[usize::from(page)].words()
    }

    /// Returns the twin of a page, if one is kept. Written copies and pending copies have one.
    pub fn twin(&self, page: u16) -> Option<&[u64]>
        requires { page < length self.now.copies }
        ensures { MatchOption result ((copy_at self.now page).twin ≡ None)
            (λ twin. (copy_at self.now page).twin ≡ Some twin.now) }
    {
        self.slots[usize::from(page)].twin()
    }

    /// Returns the changes of a pending page, as `settle` would make them, or `None` if the page is not pending.
    pub fn pending_changes(&self, page: u16) -> Result<Option<Changes>, AllocError>
        requires { page < length self.now.copies }
        ensures { IfOk result (λ changes. changes ≡ pending_changes (copy_at self.now page)) }
    {
        self.slots[usize::from(page)].pending_changes(*self.slots.allocator())
    }

    /// Returns whether a page was written before the last close and its changes have not been made yet.
    pub fn pending(&self, page: u16) -> bool
        requires { page < length self.now.copies }
        ensures { result ≡ is_pending (copy_at self.now page) }
    {
        self.slots[usize::from(page)].is_pending()
    }

    /// Makes the changes of a pending page, and drops its twin. The changes lead from the values before the page was
    /// written to those at the close that named it last, which the page still has. It returns `None` if the page is not
    /// pending. On error the table does not change.
    pub fn settle(&mut self, page: u16) -> Result<Option<Changes>, AllocError>
        requires { page < length self.old.copies }
        ensures changes { IfOk result (λ changes. changes
            ≡ pending_changes (copy_at self.old page)) }
        ensures ok { OnOk result (self.new ≡ with_copy self.old page
            (settled (copy_at self.old page))) }
        ensures err { OnErr result (self.new ≡ self.old) }
    {
        let alloc = *self.slots.allocator();
        self.slots[usize::from(page)].settle(alloc, &mut self.spare)
    }

    /// Drops the twins of all pending pages, because no node will ask for their changes. No page may be written at that
    /// time.
    pub fn drop_twins(&mut self)
        requires { All (λ copy. copy.state ≢ State.Written) self.old.copies }
        ensures { self.new ≡ with_each self.old without_twin }
    {
        for slot in self.slots.iter_mut() {
            slot.drop_twin();
        }
    }

    /// Makes a valid copy of a page invalid. An invalid copy stays invalid, and an absent one absent. The copy must be
    /// neither written nor pending.
    pub fn invalidate(&mut self, page: u16)
        requires in_range { page < length self.old.copies }
        requires closed { (copy_at self.old page).state ≢ State.Written }
        requires settled { is_pending (copy_at self.old page) ≡ false }
        ensures { self.new ≡ with_copy self.old page (invalidated (copy_at self.old page)) }
    {
        self.slots[usize::from(page)].invalidate();
    }

    /// Writes changes that an invalid copy of a page lacks into it. The copy stays invalid until `repair`.
    pub fn patch(&mut self, page: u16, changes: &Changes)
        requires in_range { page < length self.old.copies }
        requires invalid { (copy_at self.old page).state ≡ State.Invalid }
        requires sized { All (λ c. c.offset < words_of self.old.size) changes.now }
        ensures { self.new ≡ with_copy self.old page (patched (copy_at self.old page) changes.now) }
    {
        self.slots[usize::from(page)].patch(changes);
    }

    /// Applies the changes that an invalid copy of a page lacks, in the given order, and makes the copy valid.
    pub fn repair(&mut self, page: u16, changes: &[Changes])
        requires in_range { page < length self.old.copies }
        requires invalid { (copy_at self.old page).state ≡ State.Invalid }
        requires sized { All (λ list. All (λ c. c.offset < words_of self.old.size) list)
            changes.now }
        ensures { self.new ≡ with_copy self.old page
            (repaired (copy_at self.old page) changes.now) }
    {
        self.slots[usize::from(page)].repair(changes);
    }

    /// Gives an absent page a copy that was fetched whole. The copy is invalid, because it lacks later writes.
    pub fn install(&mut self, page: u16, copy: Page)
        requires in_range { page < length self.old.copies }
        requires absent { (copy_at self.old page).state ≡ State.Absent }
        requires sized { length copy ≡ words_of self.old.size }
        ensures { self.new ≡ with_copy self.old page (installed (copy_at self.old page) copy) }
    {
        self.slots[usize::from(page)].install(&copy);
    }

    /// Keeps the values of a valid copy as the base copy of its page, and replaces any earlier one. Later writes do not
    /// change the base copy. On error the table does not change.
    pub fn keep_base(&mut self, page: u16) -> Result<(), AllocError>
        requires in_range { page < length self.old.copies }
        requires valid { (copy_at self.old page).state ≡ State.Valid }
        ensures ok { OnOk result (self.new ≡ with_copy self.old page
            (with_base (copy_at self.old page))) }
        ensures err { OnErr result (self.new ≡ self.old) }
    {
        let alloc = *self.slots.allocator();
        let size = self.size;
        self.slots[usize::from(page)].keep_base(alloc, size)
    }

    /// Returns the base copy of a page, if one is kept.
    pub fn base(&self, page: u16) -> Option<&Page>
        requires { page < length self.now.copies }
        ensures { MatchOption result ((copy_at self.now page).base ≡ None)
            (λ base. (copy_at self.now page).base ≡ Some base.now) }
    {
        self.slots[usize::from(page)].base()
    }

    /// Drops the base copy of a page, if one is kept.
    pub fn drop_base(&mut self, page: u16)
        requires { page < length self.old.copies }
        ensures { self.new ≡ with_copy self.old page (without_base (copy_at self.old page)) }
    {
        self.slots[usize::from(page)].drop_base();
    }

    /// Makes each invalid copy absent.
    pub fn drop_invalid(&mut self)
        ensures { self.new ≡ with_each self.old dropped }
    {
        for slot in self.slots.iter_mut() {
            slot.drop_invalid();
        }
    }
}
