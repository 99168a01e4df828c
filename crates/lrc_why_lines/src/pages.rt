// The words of intervals, by pages.

ghost use Rattle.std.specs.Prelude.{◌≡◌, ◌++◌, ◌<◌, ◌≤◌, ◌/◌, ℕ, OnOk, length, map, slice_index};
ghost use Rattle.lrc_labels.specs.Reading.{label_seen};
ghost use Rattle.lrc_why_lines.specs.Pages.{later_words, other_words, page_line, pages_text, told_words};

use crate::deed::push_word;
use crate::lists::MOST_TOLD;
use lrc_labels::label::Label;
use lrc_text::push_number;
use std::alloc::AllocError;

fn push_later_words(
    text: &mut Vec<u8>,
    labels: &[Label<'_>],
    words: &[u32],
) -> Result<(), AllocError>
    ensures { OnOk result (text.new.items
        ≡ text.old.items ++ later_words (map label_seen labels.now) words.now) }
{
    for word in words {
        push_word(text, labels, b", ", *word)?;
    }
    Ok(())
}

#[tactic(auto, unfolding(crate::specs::Pages::told_words))]
fn push_told_words(
    text: &mut Vec<u8>,
    labels: &[Label<'_>],
    first: u32,
    rest: &[u32],
) -> Result<(), AllocError>
    ensures { OnOk result (text.new.items
        ≡ text.old.items ++ told_words (map label_seen labels.now) first rest.now) }
{
    match rest {
        [] => push_word(text, labels, b": word ", first),
        [_, ..] => {
            push_word(text, labels, b": words ", first)?;
            push_others(text, labels, rest)
        }
    }
}

#[tactic(auto, unfolding(crate::specs::Pages::other_words))]
// Adds the words of a page behind the first, 7 at most.
fn push_others(text: &mut Vec<u8>, labels: &[Label<'_>], rest: &[u32]) -> Result<(), AllocError>
    ensures { OnOk result (text.new.items
        ≡ text.old.items ++ other_words (map label_seen labels.now) rest.now) }
{
    if rest.len() < MOST_TOLD {
        return push_later_words(text, labels, rest);
    }
    push_later_words(text, labels, &rest[..MOST_TOLD - 1])?;
    text.extend_from_slice(b", ..")
}

#[tactic(auto, unfolding(crate::specs::Pages::page_line))]
// Adds the line of a page with these words, if there are some.
fn push_page(
    text: &mut Vec<u8>,
    labels: &[Label<'_>],
    size: u32,
    words: &[u32],
) -> Result<(), AllocError>
    requires { 0 < size }
    ensures { OnOk result (text.new.items
        ≡ text.old.items ++ page_line (map label_seen labels.now) size words.now) }
{
    match words {
        [] => Ok(()),
        [first, rest @ ..] => {
            push_number(text, b"    writes page ", u64::from(*first / size))?;
            push_told_words(text, labels, *first, rest)?;
            text.extend_from_slice(b"\n")
        }
    }
}

// Where the words end that are on the page of the word at this place.
fn end_of_page(words: &[u32], size: u32, start: usize) -> usize
    requires size { 0 < size }
    requires start { start < length words.now }
    ensures more { start < result }
    ensures within { result ≤ length words.now }
    ensures same { (k : ℕ) → start ≤ k → k < result
        → slice_index words.now k / size ≡ slice_index words.now start / size }
    ensures end { result < length words.now
        → ¬ (slice_index words.now result / size ≡ slice_index words.now start / size) }
{
    let page = words[start] / size;
    for end in start..words.len() {
        if words[end] / size != page {
            return end;
        }
    }
    words.len()
}

#[tactic(auto, unfolding(crate::specs::Pages::pages_text))]
/// Adds a line for each page of these words, which must be in ascending order.
pub fn push_pages(
    text: &mut Vec<u8>,
    labels: &[Label<'_>],
    size: u32,
    words: &[u32],
) -> Result<(), AllocError>
    requires { 0 < size }
    ensures { OnOk result (text.new.items
        ≡ text.old.items ++ pages_text (map label_seen labels.now) size words.now) }
{
    let mut start = 0;
    while start < words.len() {
        let end = end_of_page(words, size, start);
        push_page(text, labels, size, &words[start..end])?;
        start = end;
    }
    Ok(())
}
