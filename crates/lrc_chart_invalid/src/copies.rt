// A node's copies of the pages, before a turn and after it.

ghost use Rattle.std.specs.Prelude.{◌≡◌, ◌<◌, ◌&&◌, ◌++◌, ◌∷◌, [], IfOk, OnOk, false, if◌then◌else◌, length, slice_index_or};
ghost use Rattle.lrc_protocol.specs.Pages.{copy_at};
ghost use Rattle.lrc_chart_invalid.specs.Invalidated.{invalid_since, is_invalid, readable_in};

use lrc_memory::{Memory, SeenCopy};
use lrc_node::NodeState;
use std::alloc::{AllocError, Global};

// Whether a copy may not be read since a write notice came.
fn is_invalid(memory: &Memory, page: u16) -> bool
    requires { page < length memory.now.memory.copies }
    ensures { result ≡ is_invalid (copy_at memory.now.memory page) }
{
    match memory.copy(page) {
        SeenCopy::Valid(_values) => false,
        SeenCopy::Written(_values, _twin) => false,
        SeenCopy::Invalid(_values, _since) => true,
        SeenCopy::Absent => false,
    }
}

/// Returns of each page whether the node's copy may be read.
pub(crate) fn readable(alloc: Global, state: &NodeState<'_>) -> Result<Vec<bool>, AllocError>
    ensures { IfOk result (λ all. all.items ≡ readable_in state.now.memory) }
{
    let memory = state.memory();
    let pages = state.pages();
    let mut all = Vec::new(alloc);
    for page in 0..pages {
        all.push(memory.is_readable(page))?;
    }
    Ok(all)
}

/// Returns the pages, ascending, whose copies are invalid and were readable before, given of which pages they were.
pub(crate) fn invalid_since(
    alloc: Global,
    before: &[bool],
    state: &NodeState<'_>,
) -> Result<Vec<u16>, AllocError>
    ensures { IfOk result (λ found. found.items ≡ invalid_since before.now state.now.memory) }
{
    let memory = state.memory();
    let pages = state.pages();
    let mut found = Vec::new(alloc);
    for page in 0..pages {
        push_if(&mut found, page, becomes_invalid(before, memory, page))?;
    }
    Ok(found)
}

// Whether the copy of a page was readable, and is invalid now.
fn becomes_invalid(before: &[bool], memory: &Memory, page: u16) -> bool
    requires { page < length memory.now.memory.copies }
    ensures { result ≡ (slice_index_or before.now page false
        && is_invalid (copy_at memory.now.memory page)) }
{
    was_readable(before, page) && is_invalid(memory, page)
}

// Whether the copy of a page was readable.
fn was_readable(before: &[bool], page: u16) -> bool
    ensures { result ≡ slice_index_or before.now page false }
{
    let page = usize::from(page);
    page < before.len() && before[page]
}

fn push_if(found: &mut Vec<u16>, page: u16, is_so: bool) -> Result<(), AllocError>
    ensures { OnOk result (found.new.items
        ≡ found.old.items ++ (if is_so then page ∷ [] else [])) }
{
    if is_so {
        found.push(page)?;
    }
    Ok(())
}
