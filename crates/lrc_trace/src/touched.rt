// Words of shared memory, by their pages.

ghost use Rattle.std.specs.Prelude.{◌≡◌, ◌<◌, ◌≤◌, ℕ, OnErr, OnOk, [], length, slice_index_or};
ghost use Rattle.lrc_page.specs.Pages.{IsRising};
ghost use Rattle.lrc_trace.specs.declared.touched.TouchedPage.{TouchedPage};
ghost use Rattle.lrc_trace.specs.Touched.{numbers_of, IsTouched, with_word};

use lrc_page::Mask;
use std::alloc::{AllocError, Global};
use std::marker::Model;

/// A page, and the offsets of its words that were touched.
#[derive(Clone, Copy)]
pub struct TouchedPage {
    pub page: u16,
    pub mask: Mask,
}

/// The words that a node touched: their pages, ascending, each once, with the offsets of the words. One bit is kept for
/// each word of a page, as in the race detectors for such memories (Perkovic and Keleher 1996).
#[derive(Drop)]
pub struct Touched {
    pages: Vec<TouchedPage>,
}

impl Model for Touched {
    ghost use Rattle.std.specs.Prelude.{List};
    ghost use Rattle.lrc_trace.specs.declared.touched.TouchedPage.{TouchedPage};

    ghost Value = { List TouchedPage };

    ghost use Rattle.lrc_trace.specs.Touched.{IsTouched};

    ghost view = { λ touched. touched.pages.items };

    ghost invariant = { λ touched. IsTouched touched.pages.items };
}

impl Touched {
    /// Returns an empty set of words.
    pub fn none(alloc: Global) -> Self
        ensures { result ≡ [] }
    {
        Touched {
            pages: Vec::new(alloc),
        }
    }

    /// Adds the word at an offset of a page. It needs no memory if the page is already there. It fails if memory runs
    /// out, and then nothing changes.
    pub fn add(&mut self, page: u16, offset: u8) -> Result<(), AllocError>
        ensures ok { OnOk result (self.new ≡ with_word page offset self.old) }
        ensures err { OnErr result (self.new ≡ self.old) }
    {
        let place = place_of(self.pages.as_slice(), page);
        if place < self.pages.len() && self.pages[place].page == page {
            let mask = self.pages[place].mask.with(offset);
            self.pages[place] = TouchedPage { page, mask };
            return Ok(());
        }
        let mask = Mask::none().with(offset);
        self.pages.insert(place, TouchedPage { page, mask })?;
        Ok(())
    }

    /// Returns the pages, ascending, each with its words.
    pub fn as_slice(&self) -> &[TouchedPage]
        ensures all { result.now ≡ self.now }
        ensures touched { IsTouched self.now }
    {
        self.pages.as_slice()
    }
}

// How many of the pages come before this one.
fn place_of(pages: &[TouchedPage], page: u16) -> usize
    requires { IsRising (numbers_of pages.now) }
    ensures within { result ≤ length pages.now }
    ensures before { (k : ℕ) (d : TouchedPage) → k < result
        → (slice_index_or pages.now k d).page < page }
    ensures after { (k : ℕ) (d : TouchedPage) → result ≤ k → k < length pages.now
        → page ≤ (slice_index_or pages.now k d).page }
{
    let mut low = 0;
    let mut high = pages.len();
    while low < high {
        let middle = low + (high - low) / 2;
        if pages[middle].page < page {
            low = middle + 1;
        } else {
            high = middle;
        }
    }
    low
}
