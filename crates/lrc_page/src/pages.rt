ghost use Rattle.std.specs.Prelude.{◌≡◌, ◌<◌, ◌≤◌, ◌==◌, ◌↔◌, ◌⊎◌, ℕ, IsTrue, IfOk, OnOk, OnErr, All, Contains, [], ◌∷◌, ◌++◌, length, slice_get, slice_index};
ghost use Rattle.std.specs.Option.{ForSome};
ghost use Rattle.std.specs.Cmp.{partial_equiv_from_equiv};
ghost use Rattle.std.specs.Cmp.Lexicographic.{pointwise};
ghost use Rattle.lrc_page.specs.Page.{same_values_equiv};
ghost use Rattle.lrc_page.specs.Pages.{IsRising, last_page};

use crate::MOST_PAGES;
use smallvec::SmallVec;
use std::alloc::{AllocError, Global};
use std::marker::Model;

// How many pages stand in the list itself, which asks for memory where there are more. Most intervals write fewer.
const FEW_PAGES: usize = 8;

/// The pages that an interval wrote, by their numbers: ascending, each at most once. Each is named by one write notice
/// of the interval (Keleher, Cox and Zwaenepoel 1992).
#[derive(Drop)]
pub struct Pages {
    list: SmallVec<u16, FEW_PAGES>,
}

impl Model for Pages {
    ghost use Rattle.std.specs.Prelude.{ℕ, List, ◌<◌, All};
    ghost use Rattle.lrc_page.specs.declared.TheConstants.{MOST_PAGES};
    ghost use Rattle.lrc_page.specs.Pages.{IsRising};

    ghost Value = { List ℕ };

    ghost view = { λ pages. pages.list.items };

    ghost invariant = { λ pages. (IsRising pages.list.items) × (All (λ page. page < MOST_PAGES) pages.list.items) };
}

impl PartialEq for Pages {
    ghost eq = { pointwise ◌==◌ };

    ghost laws = { partial_equiv_from_equiv same_values_equiv };

    fn eq(&self, other: &Pages) -> bool
        ensures eq { result ≡ pointwise ◌==◌ self.now other.now }
        ensures same { IsTrue result ↔ (self.now ≡ other.now) }
    {
        self.list.as_slice() == other.list.as_slice()
    }
}

impl Eq for Pages {
    ghost laws = { same_values_equiv };
}

impl Pages {
    /// Returns an empty list of pages.
    pub fn empty(alloc: Global) -> Self
        ensures { result ≡ [] }
    {
        Pages {
            list: SmallVec::new(alloc),
        }
    }

    /// Adds a page above all others. It fails if memory runs out, and then nothing changes.
    pub fn push(&mut self, page: u16) -> Result<(), AllocError>
        requires in_range { page < MOST_PAGES }
        requires above { ForSome (last_page self.old) (λ last. last < page) }
        ensures ok { OnOk result (self.new ≡ self.old ++ page ∷ []) }
        ensures err { OnErr result (self.new ≡ self.old) }
    {
        self.list.push(page)?;
        Ok(())
    }

    /// Adds a page that is not in the list, at its place. It fails if memory runs out, and then nothing changes.
    pub fn insert(&mut self, page: u16) -> Result<(), AllocError>
        requires in_range { page < MOST_PAGES }
        requires other { ¬ Contains self.old page }
        ensures members { OnOk result ((p : ℕ) → Contains self.new p
            ↔ ((p ≡ page) ⊎ Contains self.old p)) }
        ensures rising { OnOk result (IsRising self.new) }
        ensures err { OnErr result (self.new ≡ self.old) }
    {
        let place = place_of(self.list.as_slice(), page);
        self.list.insert(place, page)?;
        Ok(())
    }

    /// Removes all pages, but keeps their memory.
    pub fn clear(&mut self)
        ensures { self.new ≡ [] }
    {
        self.list.clear();
    }

    /// Returns the number of pages, at most `MOST_PAGES` because they are all different.
    pub fn len(&self) -> usize
        ensures count { result ≡ length self.now }
        ensures rising { IsRising self.now }
        ensures in_range { All (λ page. page < MOST_PAGES) self.now }
    {
        self.list.len()
    }

    /// Returns whether there is no page.
    pub fn is_empty(&self) -> bool
        ensures { IsTrue result ↔ (self.now ≡ []) }
    {
        self.list.is_empty()
    }

    /// Returns the page at a place, counted from 0 in ascending order.
    pub fn at(&self, place: usize) -> u16
        requires { place < length self.now }
        ensures { slice_get self.now place ≡ Some result }
    {
        self.list.as_slice()[place]
    }

    /// Returns the pages, ascending.
    pub fn as_slice(&self) -> &[u16]
        ensures { result.now ≡ self.now }
    {
        self.list.as_slice()
    }

    /// Returns a second list of the same pages. It fails if memory runs out.
    pub fn duplicate(&self) -> Result<Self, AllocError>
        ensures { IfOk result (λ pages. pages ≡ self.now) }
    {
        Ok(Pages {
            list: SmallVec::from_slice(*self.list.allocator(), self.list.as_slice())?,
        })
    }
}

// How many numbers of a rising list stand before the place of a page that is not among them. It looks from the end,
// since pages are mostly added in their order.
fn place_of(list: &[u16], page: u16) -> usize
    requires rising { IsRising list.now }
    requires other { ¬ Contains list.now page }
    ensures within { result ≤ length list.now }
    ensures before { (k : ℕ) → k < result → slice_index list.now k < page }
    ensures after { (k : ℕ) → result ≤ k → k < length list.now → page < slice_index list.now k }
{
    let mut place = list.len();
    while place > 0 && list[place - 1] > page {
        place -= 1;
    }
    place
}
