// Lists in words.

ghost use Rattle.std.specs.Prelude.{◌≡◌, ◌++◌, OnErr, OnOk};
ghost use Rattle.lrc_text.specs.Front.{BeginsWith};
ghost use Rattle.lrc_acts_text.specs.Json.{entry_text, with_commas};
ghost use Rattle.lrc_messages.specs.Lists.{before};

use lrc_envelope::Indices;
use lrc_page::Pages;
use lrc_text::push_number;
use std::alloc::AllocError;

/// Adds the separator before the list item at this place, or nothing before the first item.
pub(crate) fn push_before(text: &mut Vec<u8>, place: usize, sign: &[u8]) -> Result<(), AllocError>
    ensures ok { OnOk result (text.new.items ≡ text.old.items ++ before place sign.now) }
    ensures err { OnErr result (BeginsWith text.new.items text.old.items) }
{
    if place == 0 {
        Ok(())
    } else {
        text.extend_from_slice(sign)
    }
}

// Adds a number at this place of a list with commas.
fn push_listed(text: &mut Vec<u8>, place: usize, number: u64) -> Result<(), AllocError>
    ensures ok { OnOk result (text.new.items ≡ text.old.items ++ entry_text place number) }
    ensures err { OnErr result (BeginsWith text.new.items text.old.items) }
{
    if place == 0 {
        push_number(text, b"", number)
    } else {
        push_number(text, b",", number)
    }
}

/// Adds page numbers, separated by commas.
pub(crate) fn push_pages(text: &mut Vec<u8>, pages: &Pages) -> Result<(), AllocError>
    ensures ok { OnOk result (text.new.items ≡ text.old.items ++ with_commas pages.now) }
    ensures err { OnErr result (BeginsWith text.new.items text.old.items) }
{
    for place in 0..pages.len() {
        push_listed(text, place, u64::from(pages.at(place)))?;
    }
    Ok(())
}

/// Adds the indices of intervals, separated by commas.
pub(crate) fn push_indices(text: &mut Vec<u8>, indices: &Indices) -> Result<(), AllocError>
    ensures ok { OnOk result (text.new.items ≡ text.old.items ++ with_commas indices.now) }
    ensures err { OnErr result (BeginsWith text.new.items text.old.items) }
{
    for place in 0..indices.len() {
        push_listed(text, place, u64::from(indices.at(place)))?;
    }
    Ok(())
}
