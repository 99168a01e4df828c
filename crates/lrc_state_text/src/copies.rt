// A node's copies of the pages.

ghost use Rattle.std.specs.Prelude.{◌≡◌, ◌++◌, ◌<◌, ◌==◌, All, IfOk, OnOk, codes, decimal, length};
ghost use Rattle.std.specs.List.{list_all};
ghost use Rattle.lrc_memory.specs.Shown.{copy_shown};
ghost use Rattle.lrc_protocol.specs.Barriers.{base_at};
ghost use Rattle.lrc_protocol.specs.Pages.{copy_at, keeper_at, missing_at, values_of};
ghost use Rattle.lrc_state_text.specs.Needs.{names_text};
ghost use Rattle.lrc_state_text.specs.Json.{later, listed};
ghost use Rattle.lrc_state_text.specs.Copies.{base_text, copy_members, copy_name, is_at_start, is_fresh, lacking, page_text};
ghost use Rattle.lrc_state_text.specs.Copies.{pages_member, pages_shown, since_text, twin_text};

use crate::json::{push_time, put_if};
use crate::needs::{IntervalName, push_interval_names};
use crate::words::{first_word, push_values};
use lrc_memory::{Memory, SeenCopy};
use lrc_store::Key;
use lrc_text::push_number;
use std::alloc::{AllocError, Global};

#[tactic(auto, unfolding(crate::specs::Copies::copy_name))]
fn copy_name(copy: SeenCopy<'_>) -> &'static [u8]
    ensures { result.now ≡ copy_name (copy_shown copy.entry) }
{
    match copy {
        SeenCopy::Valid(_values) => b"valid",
        SeenCopy::Written(_values, _twin) => b"written",
        SeenCopy::Invalid(_values, _since) => b"invalid",
        SeenCopy::Absent => b"absent",
    }
}

fn values_of<'c>(copy: SeenCopy<'c>) -> &'c [u64]
    ensures { result.now ≡ values_of (copy_shown copy.entry) }
{
    match copy {
        SeenCopy::Valid(values) => values,
        SeenCopy::Written(values, _twin) => values,
        SeenCopy::Invalid(values, _since) => values,
        SeenCopy::Absent => &[],
    }
}

#[tactic(auto, unfolding(crate::specs::Copies::twin_text))]
fn push_twin(text: &mut Vec<u8>, first: u32, copy: SeenCopy<'_>) -> Result<(), AllocError>
    ensures { OnOk result (text.new.items
        ≡ text.old.items ++ twin_text first (copy_shown copy.entry)) }
{
    match copy {
        SeenCopy::Written(_values, twin) => push_values(text, first, twin),
        SeenCopy::Valid(_values) => text.extend_from_slice(b"null"),
        SeenCopy::Invalid(_values, _since) => text.extend_from_slice(b"null"),
        SeenCopy::Absent => text.extend_from_slice(b"null"),
    }
}

#[tactic(auto, unfolding(crate::specs::Copies::since_text))]
fn push_since(text: &mut Vec<u8>, copy: SeenCopy<'_>) -> Result<(), AllocError>
    ensures { OnOk result (text.new.items ≡ text.old.items ++ since_text (copy_shown copy.entry)) }
{
    match copy {
        SeenCopy::Invalid(_values, since) => push_time(text, since),
        SeenCopy::Valid(_values) => text.extend_from_slice(b"null"),
        SeenCopy::Written(_values, _twin) => text.extend_from_slice(b"null"),
        SeenCopy::Absent => text.extend_from_slice(b"null"),
    }
}

// Adds the copy of a page, which begins with this word.
fn push_copy(text: &mut Vec<u8>, first: u32, memory: &Memory, page: u16) -> Result<(), AllocError>
    requires { page < length memory.now.memory.copies }
    ensures { OnOk result (text.new.items
        ≡ text.old.items ++ copy_members first (copy_at memory.now.memory page)) }
{
    text.extend_from_slice(b",\"copy\":\"")?;
    text.extend_from_slice(copy_name(memory.copy(page)))?;
    text.extend_from_slice(b"\",\"words\":")?;
    push_values(text, first, values_of(memory.copy(page)))?;
    text.extend_from_slice(b",\"twin\":")?;
    push_twin(text, first, memory.copy(page))?;
    text.extend_from_slice(b",\"since\":")?;
    push_since(text, memory.copy(page))
}

// The intervals of these notices.
fn lacking(alloc: Global, keys: &[Key]) -> Result<Vec<IntervalName>, AllocError>
    ensures { IfOk result (λ names. names.items ≡ lacking keys.now) }
{
    let mut names = Vec::new(alloc);
    for key in keys {
        names.push(IntervalName {
            node: key.node,
            index: key.index,
        })?;
    }
    Ok(names)
}

// Adds what the copy of a page lacks.
fn push_lacking(text: &mut Vec<u8>, memory: &Memory, page: u16) -> Result<(), AllocError>
    requires { page < length memory.now.memory.copies }
    ensures { OnOk result (text.new.items
        ≡ text.old.items ++ names_text (lacking (missing_at memory.now.memory page))) }
{
    let keys = memory.lacking(page)?;
    let names = lacking(*text.allocator(), &keys)?;
    push_interval_names(text, &names)
}

#[tactic(auto, unfolding(crate::specs::Copies::base_text))]
fn push_base(text: &mut Vec<u8>, first: u32, memory: &Memory, page: u16) -> Result<(), AllocError>
    requires { page < length memory.now.memory.copies }
    ensures { OnOk result (text.new.items
        ≡ text.old.items ++ base_text first (base_at memory.now.memory page)) }
{
    match memory.base(page) {
        Some(base) => push_values(text, first, base.words()),
        None => text.extend_from_slice(b"null"),
    }
}

// Adds what the copy of a page lacks, who keeps the page, and its base copy.
fn push_fetching(
    text: &mut Vec<u8>,
    first: u32,
    memory: &Memory,
    page: u16,
) -> Result<(), AllocError>
    requires { page < length memory.now.memory.copies }
    ensures { OnOk result (text.new.items ≡ text.old.items
        ++ (codes ",\"lacks\":" ++ names_text (lacking (missing_at memory.now.memory page))
        ++ codes ",\"keeper\":" ++ decimal (keeper_at memory.now.memory page)
        ++ codes ",\"base\":" ++ base_text first (base_at memory.now.memory page))) }
{
    text.extend_from_slice(b",\"lacks\":")?;
    push_lacking(text, memory, page)?;
    push_number(text, b",\"keeper\":", u64::from(memory.keeper(page)))?;
    text.extend_from_slice(b",\"base\":")?;
    push_base(text, first, memory, page)
}

#[tactic(auto, unfolding(crate::specs::Copies::page_text))]
fn push_page(text: &mut Vec<u8>, memory: &Memory, page: u16) -> Result<(), AllocError>
    requires { page < length memory.now.memory.copies }
    ensures { OnOk result (text.new.items
        ≡ text.old.items ++ page_text memory.now.size memory.now.memory page) }
{
    let first = first_word(memory.size(), page);
    push_number(text, b"{\"page\":", u64::from(page))?;
    push_copy(text, first, memory, page)?;
    push_fetching(text, first, memory, page)?;
    text.extend_from_slice(b"}")
}

// Adds a page behind others.
fn push_next(text: &mut Vec<u8>, memory: &Memory, page: u16) -> Result<(), AllocError>
    requires { page < length memory.now.memory.copies }
    ensures { OnOk result (text.new.items
        ≡ text.old.items ++ (codes "," ++ page_text memory.now.size memory.now.memory page)) }
{
    text.extend_from_slice(b",")?;
    push_page(text, memory, page)
}

fn push_later(text: &mut Vec<u8>, memory: &Memory, pages: &[u16]) -> Result<(), AllocError>
    requires { All (λ page. page < length memory.now.memory.copies) pages.now }
    ensures { OnOk result (text.new.items
        ≡ text.old.items ++ later (page_text memory.now.size memory.now.memory) pages.now) }
{
    for page in pages {
        push_next(text, memory, *page)?;
    }
    Ok(())
}

#[tactic(auto, unfolding(crate::specs::Json::listed))]
fn push_listed(text: &mut Vec<u8>, memory: &Memory, pages: &[u16]) -> Result<(), AllocError>
    requires { All (λ page. page < length memory.now.memory.copies) pages.now }
    ensures { OnOk result (text.new.items
        ≡ text.old.items ++ listed (page_text memory.now.size memory.now.memory) pages.now) }
{
    match pages {
        [] => Ok(()),
        [first, rest @ ..] => {
            push_page(text, memory, *first)?;
            push_later(text, memory, rest)
        }
    }
}

fn are_zero(values: &[u64]) -> bool
    ensures { result ≡ list_all (λ value. value == 0) values.now }
{
    values.iter().all(|value| *value == 0)
}

fn is_fresh(copy: SeenCopy<'_>) -> bool
    ensures { result ≡ is_fresh (copy_shown copy.entry) }
{
    match copy {
        SeenCopy::Valid(values) => are_zero(values),
        SeenCopy::Written(_values, _twin) => false,
        SeenCopy::Invalid(_values, _since) => false,
        SeenCopy::Absent => false,
    }
}

// Whether a page is as at the start.
fn is_at_start(memory: &Memory, page: u16) -> bool
    requires { page < length memory.now.memory.copies }
    ensures { result ≡ is_at_start memory.now.memory page }
{
    is_fresh(memory.copy(page)) && memory.keeper(page) == 0 && memory.base(page).is_none()
}

#[tactic(auto, using(crate::proofs::Lists::shown_more))]
// The pages that are not as at the start, of all.
fn pages_shown(alloc: Global, memory: &Memory, count: u16) -> Result<Vec<u16>, AllocError>
    requires { count ≡ length memory.now.memory.copies }
    ensures { IfOk result (λ shown. shown.items ≡ pages_shown memory.now.memory) }
{
    let mut shown = Vec::new(alloc);
    for page in 0..count {
        put_if(&mut shown, page, !is_at_start(memory, page))?;
    }
    Ok(shown)
}

#[tactic(auto, unfolding(crate::specs::Copies::pages_member))]
/// Adds the pages that differ from their state at the start. `count` is the number of all pages.
pub(crate) fn push_pages(text: &mut Vec<u8>, memory: &Memory, count: u16) -> Result<(), AllocError>
    requires { count ≡ length memory.now.memory.copies }
    ensures { OnOk result (text.new.items
        ≡ text.old.items ++ pages_member memory.now.size memory.now.memory) }
{
    let shown = pages_shown(*text.allocator(), memory, count)?;
    text.extend_from_slice(b",\"pages\":[")?;
    push_listed(text, memory, &shown)?;
    text.extend_from_slice(b"]")
}
