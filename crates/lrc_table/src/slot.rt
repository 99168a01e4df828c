ghost use Rattle.std.specs.Prelude.{◌≡◌, ◌≢◌, ◌<◌, ◌≤◌, All, IfOk, OnOk, OnErr, MatchOption, Some, None, length};
ghost use Rattle.std.specs.Option.{ForSome};
ghost use Rattle.lrc_page.specs.Page.{words_of};
ghost use Rattle.lrc_table.specs.PageCopy.{is_pending, pending_changes, read_at, opened, with_value, closed, settled, without_twin};
ghost use Rattle.lrc_table.specs.PageCopy.{invalidated, patched, repaired, installed, dropped, with_base, without_base};

use lrc_page::{Changes, MOST_PAGE_WORDS, Page, Size};
use std::alloc::{AllocError, Global};
use std::marker::Model;

/// What a node may do with its copy of a page.
#[derive(Clone, Copy, Debug, PartialEq, Eq)]
pub enum State {
    /// The node may read the copy. A write makes it `Written`.
    Valid,
    /// The node may read and write the copy, and has written it since the last close.
    Written,
    /// Other nodes have written the page, and this node lacks their changes.
    Invalid,
    /// The node has no copy. It must fetch a whole one before it can read the page.
    Absent,
}

/// One copy of a page, with its state, its twin and its base copy.
#[derive(Drop)]
pub(crate) struct Slot {
    state: State,
    words: Vec<u64>,
    twin: Option<Vec<u64>>,
    base: Option<Box<Page>>,
}

impl Model for Slot {
    ghost use Rattle.std.specs.Option.{option_map};
    ghost use Rattle.lrc_table.specs.PageCopy.{PageCopy};

    ghost Value = { PageCopy };

    ghost view = { λ slot. record {
      state = slot.state;
      values = slot.words.items;
      twin = option_map (λ twin. twin.items) slot.twin;
      base = option_map (λ base. base.value) slot.base;
    } };
}

impl Slot {
    ghost use Rattle.lrc_page.specs.Page.{zero_page};
    ghost use Rattle.lrc_table.specs.PageCopy.{fresh};

    /// Returns a valid copy of a page of zeros.
    pub(crate) fn zero(alloc: Global, size: Size) -> Result<Self, AllocError>
        ensures { IfOk result (λ slot. slot ≡ fresh (zero_page size)) }
    {
        Ok(Slot {
            state: State::Valid,
            words: vec![in alloc; 0; usize::from(size.words())]?,
            twin: None,
            base: None,
        })
    }

    pub(crate) fn state(&self) -> State
        ensures { result ≡ self.now.state }
    {
        self.state
    }

    /// Returns whether a twin is kept past a close.
    pub(crate) fn is_pending(&self) -> bool
        ensures { result ≡ is_pending self.now }
    {
        self.state == State::Valid && self.twin.is_some()
    }

    /// Returns the value at an offset, or `None` if the copy may not be read.
    pub(crate) fn read(&self, offset: u8) -> Option<u64>
        requires { offset < length self.now.values }
        ensures { result ≡ read_at self.now offset }
    {
        match self.state {
            State::Valid | State::Written => Some(self.words[usize::from(offset)]),
            State::Invalid | State::Absent => None,
        }
    }

    /// Returns the present values, whether or not they may be read.
    pub(crate) fn words(&self) -> &[u64]
        ensures { result.now ≡ self.now.values }
    {
        self.words.as_slice()
    }

    /// Returns the twin, if one is kept.
    pub(crate) fn twin(&self) -> Option<&[u64]>
        ensures { MatchOption result (self.now.twin ≡ None)
            (λ twin. self.now.twin ≡ Some twin.now) }
    {
        match &self.twin {
            Some(twin) => Some(twin.as_slice()),
            None => None,
        }
    }

    /// Returns the pending changes, if there are any.
    pub(crate) fn pending_changes(&self, alloc: Global) -> Result<Option<Changes>, AllocError>
        requires same { ForSome self.now.twin (λ twin. length twin ≡ length self.now.values) }
        requires few { length self.now.values ≤ MOST_PAGE_WORDS }
        ensures { IfOk result (λ changes. changes ≡ pending_changes self.now) }
    {
        match (&self.twin, self.state) {
            (Some(twin), State::Valid) => {
                let changes = Changes::between_words(
                    alloc,
                    twin.as_slice(),
                    self.words.as_slice(),
                )?;
                Ok(Some(changes))
            }
            _ => Ok(None),
        }
    }

    /// Returns a list of the present values. It reuses the memory of the spare list, if there is one.
    pub(crate) fn values(&self, spare: Option<Vec<u64>>) -> Result<Vec<u64>, AllocError>
        ensures { IfOk result (λ values. values.items ≡ self.now.values) }
    {
        let Some(mut values) = spare else {
            return self.words.clone();
        };
        values.clear();
        values.extend_from_slice(self.words.as_slice())?;
        Ok(values)
    }

    /// Opens the copy for writing, with the present values as its twin.
    pub(crate) fn open(&mut self, twin: Vec<u64>)
        requires { twin.items ≡ self.old.values }
        ensures { self.new ≡ opened self.old }
    {
        self.state = State::Written;
        self.twin = Some(twin);
    }

    pub(crate) fn set(&mut self, offset: u8, value: u64)
        requires { offset < length self.old.values }
        ensures { self.new ≡ with_value self.old offset value }
    {
        self.words[usize::from(offset)] = value;
    }

    /// Ends the writing, and keeps the twin.
    pub(crate) fn close(&mut self)
        ensures { self.new ≡ closed self.old }
    {
        if self.state == State::Written {
            self.state = State::Valid;
        }
    }

    /// Makes the pending changes, if there are any, and moves their twin to the spare lists. On error the copy does not
    /// change.
    pub(crate) fn settle(
        &mut self,
        alloc: Global,
        spare: &mut Vec<Vec<u64>>,
    ) -> Result<Option<Changes>, AllocError>
        requires same { ForSome self.old.twin (λ twin. length twin ≡ length self.old.values) }
        requires few { length self.old.values ≤ MOST_PAGE_WORDS }
        ensures changes { IfOk result (λ changes. changes ≡ pending_changes self.old) }
        ensures ok { OnOk result (self.new ≡ settled self.old) }
        ensures err { OnErr result (self.new ≡ self.old) }
    {
        let Some(changes) = self.pending_changes(alloc)? else {
            return Ok(None);
        };
        if let Some(twin) = self.twin.take() {
            // Without memory for it the twin is given up.
            let _given_up = spare.push(twin);
        }
        Ok(Some(changes))
    }

    pub(crate) fn drop_twin(&mut self)
        ensures { self.new ≡ without_twin self.old }
    {
        self.twin = None;
    }

    pub(crate) fn invalidate(&mut self)
        ensures { self.new ≡ invalidated self.old }
    {
        if self.state == State::Valid {
            self.state = State::Invalid;
        }
    }

    /// Writes another node's changes into the copy.
    pub(crate) fn patch(&mut self, changes: &Changes)
        requires { All (λ c. c.offset < length self.old.values) changes.now }
        ensures { self.new ≡ patched self.old changes.now }
    {
        changes.apply_to_words(self.words.as_mut_slice());
    }

    /// Applies the changes in their order, and makes the copy valid.
    pub(crate) fn repair(&mut self, changes: &[Changes])
        requires { All (λ list. All (λ c. c.offset < length self.old.values) list) changes.now }
        ensures { self.new ≡ repaired self.old changes.now }
    {
        for list in changes {
            self.patch(list);
        }
        self.state = State::Valid;
    }

    /// Installs a copy that was fetched whole.
    pub(crate) fn install(&mut self, page: &Page)
        requires { length page.now ≡ length self.old.values }
        ensures { self.new ≡ installed self.old page.now }
    {
        self.words.copy_from_slice(page.words());
        self.state = State::Invalid;
    }

    /// Keeps the present values as the base copy. On error the copy does not change.
    pub(crate) fn keep_base(&mut self, alloc: Global, size: Size) -> Result<(), AllocError>
        requires { length self.old.values ≡ words_of size }
        ensures ok { OnOk result (self.new ≡ with_base self.old) }
        ensures err { OnErr result (self.new ≡ self.old) }
    {
        let base = Box::new(alloc, Page::with_words(size, self.words.as_slice()))?;
        self.base = Some(base);
        Ok(())
    }

    pub(crate) fn base(&self) -> Option<&Page>
        ensures { MatchOption result (self.now.base ≡ None)
            (λ page. self.now.base ≡ Some page.now) }
    {
        match &self.base {
            Some(page) => Some(page),
            None => None,
        }
    }

    pub(crate) fn drop_base(&mut self)
        ensures { self.new ≡ without_base self.old }
    {
        self.base = None;
    }

    pub(crate) fn drop_invalid(&mut self)
        ensures { self.new ≡ dropped self.old }
    {
        if self.state == State::Invalid {
            self.state = State::Absent;
        }
    }
}
