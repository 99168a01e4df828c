// Changes of pages in words.

ghost use Rattle.std.specs.Prelude.{◌≡◌, ◌++◌, IfOk, OnErr, OnOk, codes};
ghost use Rattle.lrc_text.specs.Front.{BeginsWith};
ghost use Rattle.lrc_messages.specs.Lists.{before, separated, separated_or_dash};
ghost use Rattle.lrc_messages.specs.MessageText.{change_text, nonzero_words, part_text};

use crate::lists::push_before;
use lrc_envelope::{IndexedChanges, Parts};
use lrc_page::{Change, Changes, Page};
use lrc_text::push_number;
use std::alloc::{AllocError, Global};

fn push_change(text: &mut Vec<u8>, place: usize, change: Change) -> Result<(), AllocError>
    ensures ok { OnOk result (text.new.items
        ≡ text.old.items ++ before place (codes ",") ++ change_text change) }
    ensures err { OnErr result (BeginsWith text.new.items text.old.items) }
{
    push_before(text, place, b",")?;
    push_number(text, b"", u64::from(change.offset))?;
    push_number(text, b"=", change.value)
}

fn push_changes(text: &mut Vec<u8>, changes: &Changes) -> Result<(), AllocError>
    ensures ok { OnOk result (text.new.items
        ≡ text.old.items ++ separated (codes ",") change_text changes.now) }
    ensures err { OnErr result (BeginsWith text.new.items text.old.items) }
{
    for place in 0..changes.len() {
        push_change(text, place, changes.at(place))?;
    }
    Ok(())
}

fn push_changes_or_dash(text: &mut Vec<u8>, changes: &Changes) -> Result<(), AllocError>
    ensures ok { OnOk result (text.new.items
        ≡ text.old.items ++ separated_or_dash (codes ",") change_text changes.now) }
    ensures err { OnErr result (BeginsWith text.new.items text.old.items) }
{
    if changes.is_empty() {
        text.extend_from_slice(b"-")
    } else {
        push_changes(text, changes)
    }
}

// Adds changes in brackets.
fn push_bracketed(text: &mut Vec<u8>, changes: &Changes) -> Result<(), AllocError>
    ensures ok { OnOk result (text.new.items
        ≡ text.old.items ++ (codes "[" ++ separated (codes ",") change_text changes.now
        ++ codes "]")) }
    ensures err { OnErr result (BeginsWith text.new.items text.old.items) }
{
    text.extend_from_slice(b"[")?;
    push_changes(text, changes)?;
    text.extend_from_slice(b"]")
}

fn push_part(text: &mut Vec<u8>, place: usize, part: &IndexedChanges) -> Result<(), AllocError>
    ensures ok { OnOk result (text.new.items
        ≡ text.old.items ++ before place (codes " ") ++ part_text part.now) }
    ensures err { OnErr result (BeginsWith text.new.items text.old.items) }
{
    push_before(text, place, b" ")?;
    push_number(text, b"", u64::from(part.index))?;
    push_bracketed(text, &part.changes)
}

/// Adds the changes of intervals, each with its index.
pub(crate) fn push_parts(text: &mut Vec<u8>, parts: &Parts) -> Result<(), AllocError>
    ensures ok { OnOk result (text.new.items
        ≡ text.old.items ++ separated (codes " ") part_text parts.now) }
    ensures err { OnErr result (BeginsWith text.new.items text.old.items) }
{
    for place in 0..parts.len() {
        push_part(text, place, parts.at(place))?;
    }
    Ok(())
}

// The words of a page that are not 0.
fn nonzero_words(alloc: Global, page: &Page) -> Result<Changes, AllocError>
    ensures { IfOk result (λ changes. changes ≡ nonzero_words page.now) }
{
    Changes::between(alloc, &Page::zero(page.size()), page)
}

/// Adds the words of a page that are not 0.
pub(crate) fn push_words(alloc: Global, text: &mut Vec<u8>, page: &Page) -> Result<(), AllocError>
    ensures ok { OnOk result (text.new.items
        ≡ text.old.items ++ separated_or_dash (codes ",") change_text (nonzero_words page.now)) }
    ensures err { OnErr result (BeginsWith text.new.items text.old.items) }
{
    let words = nonzero_words(alloc, page)?;
    push_changes_or_dash(text, &words)
}
