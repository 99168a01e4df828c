ghost use Rattle.std.specs.Prelude.{◌≡◌, ◌<◌, ◌≤◌, ◌==◌, ◌↔◌, IsTrue, length, slice_index, slice_set};
ghost use Rattle.std.specs.Cmp.{partial_equiv_from_equiv};
ghost use Rattle.std.specs.Cmp.Lexicographic.{pointwise};
ghost use Rattle.lrc_page.specs.Page.{words_of, zero_page, same_values_equiv};

use crate::{MOST_PAGE_WORDS, Size};
use std::marker::Model;

/// The values of the words of one page, of either size.
#[derive(Drop)]
pub struct Page {
    size: Size,
    words: [u64; MOST_PAGE_WORDS],
}

impl Model for Page {
    ghost use Rattle.std.specs.Prelude.{ℕ, List, take};
    ghost use Rattle.lrc_page.specs.Page.{words_of};

    ghost Value = { List ℕ };

    ghost view = { λ page. take (words_of page.size) page.words };
}

impl PartialEq for Page {
    ghost eq = { pointwise ◌==◌ };

    ghost laws = { partial_equiv_from_equiv same_values_equiv };

    fn eq(&self, other: &Page) -> bool
        ensures eq { result ≡ pointwise ◌==◌ self.now other.now }
        ensures same { IsTrue result ↔ (self.now ≡ other.now) }
    {
        self.words() == other.words()
    }
}

impl Eq for Page {
    ghost laws = { same_values_equiv };
}

impl Page {
    /// Returns a page of zeros.
    pub fn zero(size: Size) -> Self
        ensures { result ≡ zero_page size }
    {
        Page {
            size,
            words: [0; MOST_PAGE_WORDS],
        }
    }

    /// Returns a page with the given values, exactly as many as the size says.
    pub fn with_words(size: Size, words: &[u64]) -> Self
        requires { length words.now ≡ words_of size }
        ensures { result ≡ words.now }
    {
        let mut all = [0; MOST_PAGE_WORDS];
        all[..words.len()].copy_from_slice(words);
        Page { size, words: all }
    }

    /// Returns the size of the page.
    pub fn size(&self) -> Size
        ensures { length self.now ≡ words_of result }
    {
        self.size
    }

    /// Returns the values of the words in the order of their offsets.
    pub fn words(&self) -> &[u64]
        ensures values { result.now ≡ self.now }
        ensures few { length self.now ≤ MOST_PAGE_WORDS }
    {
        &self.words[..usize::from(self.size.words())]
    }

    /// Returns the value of the word at the given offset.
    pub fn get(&self, offset: u8) -> u64
        requires { offset < length self.now }
        ensures { result ≡ slice_index self.now offset }
    {
        self.words[usize::from(offset)]
    }

    /// Sets the word at the given offset to a value.
    pub fn set(&mut self, offset: u8, value: u64)
        requires { offset < length self.old }
        ensures { self.new ≡ slice_set self.old offset value }
    {
        let place = usize::from(offset);
        self.words[place] = value;
    }

    /// Returns a page with the same values.
    pub fn copy(&self) -> Self
        ensures { result ≡ self.now }
    {
        Page {
            size: self.size,
            words: self.words,
        }
    }
}
