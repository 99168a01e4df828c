// The pages that become invalid at a turn.

ghost use Rattle.std.specs.Prelude.{◌≡◌, ◌++◌, [], IfOk, OnOk, map, slice_index_or, take};
ghost use Rattle.lrc_chart_build.specs.Waits.{invalid_text, invalid_words, listed, taken_before};

use lrc_chart_rows::{TurnOf, takes};
use lrc_envelope::Envelope;
use lrc_text::push_number;
use std::alloc::{AllocError, Global};

// Adds further pages.
fn push_pages(text: &mut Vec<u8>, pages: &[u16]) -> Result<(), AllocError>
    ensures { OnOk result (text.new.items ≡ text.old.items ++ listed pages.now) }
{
    for page in pages {
        push_number(text, b", ", u64::from(*page))?;
    }
    Ok(())
}

fn push_invalid(text: &mut Vec<u8>, pages: &[u16]) -> Result<(), AllocError>
    ensures { OnOk result (text.new.items ≡ text.old.items ++ invalid_words pages.now) }
{
    match pages {
        [] => Ok(()),
        [page] => {
            push_number(text, b"page ", u64::from(*page))?;
            text.extend_from_slice(b" invalid")
        }
        [page, others @ ..] => {
            push_number(text, b"pages ", u64::from(*page))?;
            push_pages(text, others)?;
            text.extend_from_slice(b" invalid")
        }
    }
}

/// Returns whether a turn before the position takes the message.
pub(crate) fn taken_before(turns: &[TurnOf<'_>], position: usize, envelope: &Envelope) -> bool
    ensures { result ≡ taken_before turns.now position envelope.now }
{
    turns
        .iter()
        .take(position)
        .any(|turn| takes(turn, envelope))
}

// The pages that become invalid at the turn at a position.
fn pages_at(invalid: &[Vec<u16>], position: usize) -> &[u16]
    ensures { result.now ≡ slice_index_or (map (λ pages. pages.items) invalid.now) position [] }
{
    match invalid.get(position) {
        Some(pages) => pages.as_slice(),
        None => &[],
    }
}

/// Returns what is said of the pages that become invalid at the turn at a position, given those of each turn.
pub(crate) fn invalid_text(
    alloc: Global,
    invalid: &[Vec<u16>],
    position: usize,
) -> Result<Vec<u8>, AllocError>
    ensures { IfOk result (λ text. text.items
        ≡ invalid_text (map (λ pages. pages.items) invalid.now) position) }
{
    let mut text = Vec::new(alloc);
    push_invalid(&mut text, pages_at(invalid, position))?;
    Ok(text)
}
