ghost use Rattle.std.specs.Prelude.{◌≡◌, ◌<◌, ◌≤◌, ◌↔◌, All, IsTrue, IfOk, OnOk, OnErr, [], ◌∷◌, ◌++◌, length, slice_get};
ghost use Rattle.std.specs.Option.{ForSome};
ghost use Rattle.std.specs.Cmp.{partial_equiv_from_equiv};
ghost use Rattle.std.specs.Cmp.Lexicographic.{pointwise};
ghost use Rattle.lrc_page.specs.Changes.{IsAscending, same_change, same_changes_equiv, last_change, applied, changes_between};

use crate::{MOST_PAGE_WORDS, Page};
use smallvec::SmallVec;
use std::alloc::{AllocError, Global};
use std::marker::Model;

/// A new value of the word at an offset of a page.
#[derive(Clone, Copy, Debug, Default, PartialEq, Eq)]
pub struct Change {
    pub offset: u8,
    pub value: u64,
}

// How many changes stand in the list itself, which asks for memory where there are more. A counter or a flag is one word.
const FEW_CHANGES: usize = 1;

/// Changes of one page, at most one for each offset, the offsets ascending.
#[derive(Drop)]
pub struct Changes {
    list: SmallVec<Change, FEW_CHANGES>,
}

impl Model for Changes {
    ghost use Rattle.std.specs.Prelude.{List, ◌<◌, All};
    ghost use Rattle.lrc_page.specs.declared.TheConstants.{MOST_PAGE_WORDS};
    ghost use Rattle.lrc_page.specs.declared.changes.Change.{Change};
    ghost use Rattle.lrc_page.specs.Changes.{IsAscending};

    ghost Value = { List Change };

    ghost view = { λ changes. changes.list.items };

    ghost invariant = { λ changes. (IsAscending changes.list.items)
        × (All (λ c. c.offset < MOST_PAGE_WORDS) changes.list.items) };
}

impl PartialEq for Changes {
    ghost eq = { pointwise same_change };

    ghost laws = { partial_equiv_from_equiv same_changes_equiv };

    fn eq(&self, other: &Changes) -> bool
        ensures eq { result ≡ pointwise same_change self.now other.now }
        ensures same { IsTrue result ↔ (self.now ≡ other.now) }
    {
        self.list.as_slice() == other.list.as_slice()
    }
}

impl Eq for Changes {
    ghost laws = { same_changes_equiv };
}

impl Changes {
    /// Returns an empty list of changes.
    pub fn empty(alloc: Global) -> Self
        ensures { result ≡ [] }
    {
        Changes {
            list: SmallVec::new(alloc),
        }
    }

    /// Adds a change at an offset above all others. It fails if memory runs out, and then nothing changes.
    pub fn push(&mut self, offset: u8, value: u64) -> Result<(), AllocError>
        requires { ForSome (last_change self.old) (λ c. c.offset < offset) }
        ensures ok { OnOk result (self.new ≡ self.old
            ++ record { offset = offset; value = value } ∷ []) }
        ensures err { OnErr result (self.new ≡ self.old) }
    {
        self.list.push(Change { offset, value })?;
        Ok(())
    }

    /// Returns the changes that turn the twin into the page: the page's values where the two differ. Both have the same
    /// size. It fails if memory runs out.
    pub fn between(alloc: Global, twin: &Page, page: &Page) -> Result<Self, AllocError>
        requires { length twin.now ≡ length page.now }
        ensures exact { IfOk result (λ changes. changes ≡ changes_between twin.now page.now) }
        ensures turns { IfOk result (λ changes. applied twin.now changes ≡ page.now) }
    {
        Changes::between_words(alloc, twin.words(), page.words())
    }

    /// Returns the same as `between`, for two pages given as their values.
    pub fn between_words(alloc: Global, twin: &[u64], page: &[u64]) -> Result<Self, AllocError>
        requires same { length twin.now ≡ length page.now }
        requires few { length page.now ≤ MOST_PAGE_WORDS }
        ensures exact { IfOk result (λ changes. changes ≡ changes_between twin.now page.now) }
        ensures turns { IfOk result (λ changes. applied twin.now changes ≡ page.now) }
    {
        let mut changes = Changes::empty(alloc);
        for (offset, value) in page.iter().enumerate() {
            if twin[offset] != *value {
                changes.push(offset as u8, *value)?;
            }
        }
        Ok(changes)
    }

    /// Writes each value to its offset of the page. The other words keep their values.
    pub fn apply(&self, page: &mut Page)
        requires { All (λ c. c.offset < length page.old) self.now }
        ensures { page.new ≡ applied page.old self.now }
    {
        for change in self.list.as_slice() {
            page.set(change.offset, change.value);
        }
    }

    /// Does the same as `apply`, to a page given as its values.
    pub fn apply_to_words(&self, page: &mut [u64])
        requires { All (λ c. c.offset < length page.old) self.now }
        ensures { page.new ≡ applied page.old self.now }
    {
        for change in self.list.as_slice() {
            page[usize::from(change.offset)] = change.value;
        }
    }

    /// Returns the number of changes, at most `MOST_PAGE_WORDS` because each is of another word of the page.
    pub fn len(&self) -> usize
        ensures count { result ≡ length self.now }
        ensures ascending { IsAscending self.now }
        ensures in_range { All (λ c. c.offset < MOST_PAGE_WORDS) self.now }
    {
        self.list.len()
    }

    /// Returns whether there is no change.
    pub fn is_empty(&self) -> bool
        ensures { IsTrue result ↔ (self.now ≡ []) }
    {
        self.list.is_empty()
    }

    /// Returns the change at a place, counted from 0 in the order of the offsets.
    pub fn at(&self, place: usize) -> Change
        requires { place < length self.now }
        ensures { slice_get self.now place ≡ Some result }
    {
        self.list.as_slice()[place]
    }

    /// Returns a second list of the same changes. It fails if memory runs out.
    pub fn duplicate(&self) -> Result<Self, AllocError>
        ensures { IfOk result (λ changes. changes ≡ self.now) }
    {
        Ok(Changes {
            list: SmallVec::from_slice(*self.list.allocator(), self.list.as_slice())?,
        })
    }
}
