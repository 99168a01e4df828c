// Intervals that a node stores, as objects.

ghost use Rattle.std.specs.Prelude.{◌≡◌, ◌++◌, IfOk, OnOk, codes};
ghost use Rattle.lrc_state_text.specs.Json.{later, listed};
ghost use Rattle.lrc_state_text.specs.Intervals.{interval_text, intervals_text, page_changes_text, pages_text, parts_text, stamp_text};

use crate::json::{push_interval_name, push_numbers, push_time};
use crate::stored::{PageChanges, StoredInterval};
use crate::words::{first_word, push_changes};
use lrc_page::{Pages, Size};
use lrc_store::Interval;
use lrc_text::push_number;
use std::alloc::{AllocError, Global};

#[tactic(auto, unfolding(crate::specs::Intervals::page_changes_text))]
fn push_part(text: &mut Vec<u8>, size: Size, part: &PageChanges) -> Result<(), AllocError>
    ensures { OnOk result (text.new.items ≡ text.old.items ++ page_changes_text size part.now) }
{
    push_number(text, b"\"", u64::from(part.page))?;
    text.extend_from_slice(b"\":")?;
    push_changes(text, first_word(size, part.page), &part.changes)
}

// Adds the changes of a page behind others.
fn push_next_part(text: &mut Vec<u8>, size: Size, part: &PageChanges) -> Result<(), AllocError>
    ensures { OnOk result (text.new.items
        ≡ text.old.items ++ (codes "," ++ page_changes_text size part.now)) }
{
    text.extend_from_slice(b",")?;
    push_part(text, size, part)
}

fn push_later_parts(text: &mut Vec<u8>, size: Size, parts: &[PageChanges]) -> Result<(), AllocError>
    ensures { OnOk result (text.new.items
        ≡ text.old.items ++ later (page_changes_text size) parts.now) }
{
    for part in parts {
        push_next_part(text, size, part)?;
    }
    Ok(())
}

#[tactic(auto, unfolding(crate::specs::Json::listed))]
fn push_parts(text: &mut Vec<u8>, size: Size, parts: &[PageChanges]) -> Result<(), AllocError>
    ensures { OnOk result (text.new.items
        ≡ text.old.items ++ listed (page_changes_text size) parts.now) }
{
    match parts {
        [] => Ok(()),
        [first, rest @ ..] => {
            push_part(text, size, first)?;
            push_later_parts(text, size, rest)
        }
    }
}

// The numbers of pages.
fn numbers_of(alloc: Global, pages: &Pages) -> Result<Vec<u64>, AllocError>
    ensures { IfOk result (λ numbers. numbers.items ≡ pages.now) }
{
    let mut numbers = Vec::new(alloc);
    for page in pages.as_slice() {
        numbers.push(u64::from(*page))?;
    }
    Ok(numbers)
}

#[tactic(auto, unfolding(crate::specs::Intervals::stamp_text))]
// Adds the name of an interval, and its stamp.
fn push_stamp(text: &mut Vec<u8>, interval: &Interval) -> Result<(), AllocError>
    ensures { OnOk result (text.new.items ≡ text.old.items ++ stamp_text interval.now) }
{
    text.extend_from_slice(b"{\"interval\":")?;
    push_interval_name(text, interval.node, interval.index())?;
    text.extend_from_slice(b",\"stamp\":")?;
    push_time(text, &interval.stamp)
}

#[tactic(auto, unfolding(crate::specs::Intervals::pages_text))]
// Adds the pages that an interval names.
fn push_pages(text: &mut Vec<u8>, pages: &Pages) -> Result<(), AllocError>
    ensures { OnOk result (text.new.items ≡ text.old.items ++ pages_text pages.now) }
{
    let numbers = numbers_of(*text.allocator(), pages)?;
    text.extend_from_slice(b",\"pages\":")?;
    push_numbers(text, &numbers)
}

// Adds changes of an interval as a member.
fn push_parts_member(
    text: &mut Vec<u8>,
    size: Size,
    parts: &[PageChanges],
) -> Result<(), AllocError>
    ensures { OnOk result (text.new.items ≡ text.old.items ++ parts_text size parts.now) }
{
    text.extend_from_slice(b",\"changes\":{")?;
    push_parts(text, size, parts)?;
    text.extend_from_slice(b"}}")
}

#[tactic(auto, unfolding(crate::specs::Intervals::interval_text))]
fn push_interval(text: &mut Vec<u8>, size: Size, stored: &StoredInterval) -> Result<(), AllocError>
    ensures { OnOk result (text.new.items ≡ text.old.items ++ interval_text size stored.now) }
{
    push_stamp(text, &stored.interval)?;
    push_pages(text, &stored.interval.pages)?;
    push_parts_member(text, size, stored.changes.as_slice())
}

// Adds an interval behind others.
fn push_next(text: &mut Vec<u8>, size: Size, stored: &StoredInterval) -> Result<(), AllocError>
    ensures { OnOk result (text.new.items
        ≡ text.old.items ++ (codes "," ++ interval_text size stored.now)) }
{
    text.extend_from_slice(b",")?;
    push_interval(text, size, stored)
}

fn push_later(text: &mut Vec<u8>, size: Size, stored: &[StoredInterval]) -> Result<(), AllocError>
    ensures { OnOk result (text.new.items
        ≡ text.old.items ++ later (interval_text size) stored.now) }
{
    for one in stored {
        push_next(text, size, one)?;
    }
    Ok(())
}

#[tactic(auto, unfolding(crate::specs::Json::listed))]
fn push_listed(text: &mut Vec<u8>, size: Size, stored: &[StoredInterval]) -> Result<(), AllocError>
    ensures { OnOk result (text.new.items
        ≡ text.old.items ++ listed (interval_text size) stored.now) }
{
    match stored {
        [] => Ok(()),
        [first, rest @ ..] => {
            push_interval(text, size, first)?;
            push_later(text, size, rest)
        }
    }
}

/// Adds these intervals, for pages of this size.
pub(crate) fn push_intervals(
    text: &mut Vec<u8>,
    size: Size,
    stored: &[StoredInterval],
) -> Result<(), AllocError>
    ensures { OnOk result (text.new.items ≡ text.old.items ++ intervals_text size stored.now) }
{
    text.extend_from_slice(b",\"intervals\":[")?;
    push_listed(text, size, stored)?;
    text.extend_from_slice(b"]")
}
