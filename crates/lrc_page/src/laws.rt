// What always holds of pages and changes. Each function is a law: its clauses are the statement, and there is nothing
// to do.

ghost use Rattle.std.specs.Prelude.{◌≡◌, ◌≢◌, ◌<◌, ◌≤◌, ◌↔◌, ℕ, List, length, slice_index, Contains};
ghost use Rattle.lrc_page.specs.Changes.{applied, changes_between, IsAscending};
ghost use Rattle.lrc_page.specs.Page.{words_of};
ghost use Rattle.lrc_page.specs.Place.{page_of, offset_of, pages_of};

use crate::{MOST_PAGE_WORDS, MOST_PAGES, MOST_WORDS, Size};

/// A page has 64 or 256 words. A memory has at most 65,536 words and 1,024 pages.
pub fn the_limits()
    ensures small { words_of Size.Words64 ≡ 64 }
    ensures large { words_of Size.Words256 ≡ 256 }
    ensures page_words { MOST_PAGE_WORDS ≡ 256 }
    ensures words { MOST_WORDS ≡ 65536 }
    ensures pages { MOST_PAGES ≡ 1024 }
{}

/// The changes between a twin and a page turn the twin into the page.
pub fn changes_turn_the_twin_into_the_page()
    ensures { (twin page : List ℕ) → length twin ≡ length page
        → applied twin (changes_between twin page) ≡ page }
{}

/// The changes between a twin and a page are exactly their differences: each offset at which the values differ, once
/// and in ascending order, with the page's value.
pub fn changes_are_the_differences()
    ensures ascending { (twin page : List ℕ) → IsAscending (changes_between twin page) }
    ensures exact { (twin page : List ℕ) (offset value : ℕ) →
        Contains (changes_between twin page) (record { offset = offset; value = value })
        ↔ ((offset < length page) × (slice_index page offset ≡ value)
        × (slice_index twin offset ≢ value)) }
{}
