ghost use Rattle.std.specs.Prelude.{◌≡◌, ◌<◌, ◌≤◌};
ghost use Rattle.lrc_page.specs.Page.{words_of};
ghost use Rattle.lrc_page.specs.Place.{page_of, offset_of, pages_of};

use crate::{MOST_PAGES, MOST_WORDS, Size};

/// Returns the page of a word. Words and pages are counted from 0.
pub fn page_of(word: u32, size: Size) -> u16
    requires { word < MOST_WORDS }
    ensures page { result ≡ page_of word size }
    ensures in_range { result < MOST_PAGES }
{
    (word / u32::from(size.words())) as u16
}

/// Returns the offset of a word on its page, counted from 0.
pub fn offset_of(word: u32, size: Size) -> u8
    ensures offset { result ≡ offset_of word size }
    ensures in_range { result < words_of size }
{
    (word % u32::from(size.words())) as u8
}

/// Returns how many pages of the given size it takes to hold the given number of words.
pub fn pages_of(words: u32, size: Size) -> u16
    requires { words ≤ MOST_WORDS }
    ensures pages { result ≡ pages_of words size }
    ensures few { result ≤ MOST_PAGES }
{
    words.div_ceil(u32::from(size.words())) as u16
}
