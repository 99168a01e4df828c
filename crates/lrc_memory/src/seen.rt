// What is seen of a node's memory, by calls that change nothing.

ghost use Rattle.std.specs.Prelude.{◌≡◌, ◌<◌, IfOk, length};
ghost use Rattle.lrc_store.specs.Store.{changes_at};
ghost use Rattle.lrc_protocol.specs.Pages.{copy_at, keeper_at};
ghost use Rattle.lrc_memory.specs.Notes.{named_of};
ghost use Rattle.lrc_memory.specs.Shown.{copy_shown};
ghost use Rattle.lrc_memory.specs.View.{unmade};

use crate::memory::{Memory, PageNote};
use lrc_page::Changes;
use lrc_store::{Key, Store};
use lrc_table::{PageTable, State};
use lrc_time::Time;
use std::alloc::AllocError;

/// A copy of a page, as the protocol sees it.
pub enum SeenCopy<'m> {
    /// The values of a copy that may be read.
    Valid(&'m [u64]),
    /// The values of a copy that was written in the open interval, and its values before the first such write.
    Written(&'m [u64], &'m [u64]),
    /// The values of a copy that may not be read, and the node's time before the first notice that the copy lacks.
    Invalid(&'m [u64], &'m Time),
    /// The node has no copy.
    Absent,
}

impl Memory {
    /// Returns the copy of a page.
    pub fn copy(&self, page: u16) -> SeenCopy<'_>
        requires { page < length self.now.memory.copies }
        ensures { copy_shown result ≡ copy_at self.now.memory page }
    {
        let values = self.table.values(page);
        match self.table.state(page) {
            State::Valid => SeenCopy::Valid(values),
            State::Written => match self.table.twin(page) {
                Some(twin) => SeenCopy::Written(values, twin),
                None => SeenCopy::Written(values, &[]),
            },
            State::Invalid => SeenCopy::Invalid(values, &self.notes[usize::from(page)].since),
            State::Absent => SeenCopy::Absent,
        }
    }

    /// Returns the node that keeps the base copy of a page.
    pub fn keeper(&self, page: u16) -> u8
        requires { page < length self.now.memory.copies }
        ensures { result ≡ keeper_at self.now.memory page }
    {
        self.notes[usize::from(page)].keeper
    }

    /// Returns the time up to which intervals were collected.
    pub fn collected(&self) -> &Time
        ensures { result.now ≡ self.now.memory.collected }
    {
        &self.collected
    }

    /// Returns what this node's interval with the given index changed in a page, or `None` if that is not known here.
    pub fn changes_known(
        &self,
        node: u8,
        index: u32,
        page: u16,
    ) -> Result<Option<Changes>, AllocError>
        requires { page < length self.now.memory.copies }
        ensures { IfOk result (λ changes. changes
            ≡ changes_at self.now.memory.store
            (record { node = node; index = index; page = page })) }
    {
        let key = Key { node, index, page };
        let unmade = unmade(&self.table, self.me, &self.notes, key)?;
        match unmade {
            Some(changes) => Ok(Some(changes)),
            None => made(&self.store, key),
        }
    }
}

// The changes that a key's page has still to make, where the key is of the own interval that named the page last.
fn unmade(
    table: &PageTable,
    me: u8,
    notes: &[PageNote],
    key: Key,
) -> Result<Option<Changes>, AllocError>
    requires page { key.page < length table.now.copies }
    requires noted { key.page < length notes.now }
    ensures { IfOk result (λ changes. changes ≡ unmade me (named_of notes.now) table.now key) }
{
    if key.node == me && notes[usize::from(key.page)].named == key.index {
        table.pending_changes(key.page)
    } else {
        Ok(None)
    }
}

// The changes of a key that are made, as far as they are known.
fn made(store: &Store, key: Key) -> Result<Option<Changes>, AllocError>
    ensures { IfOk result (λ changes. changes ≡ changes_at store.now key) }
{
    match store.changes(key) {
        Some(changes) => Ok(Some(changes.duplicate()?)),
        None => Ok(None),
    }
}
