// Lists and texts of JSON.

ghost use Rattle.std.specs.Prelude.{◌≡◌, ◌++◌, ◌∷◌, [], OnOk, cond};
ghost use Rattle.lrc_acts_text.specs.Json.{entry_text, with_commas};
ghost use Rattle.lrc_state_text.specs.Json.{interval_name, number_or_null, numbers_text};

use lrc_acts_text::push_entries;
use lrc_text::push_number;
use lrc_time::Time;
use std::alloc::AllocError;

// Adds a number at this place of a list.
fn push_entry(text: &mut Vec<u8>, place: usize, number: u64) -> Result<(), AllocError>
    ensures { OnOk result (text.new.items ≡ text.old.items ++ entry_text place number) }
{
    if place == 0 {
        push_number(text, b"", number)
    } else {
        push_number(text, b",", number)
    }
}

fn push_all(text: &mut Vec<u8>, numbers: &[u64]) -> Result<(), AllocError>
    ensures { OnOk result (text.new.items ≡ text.old.items ++ with_commas numbers.now) }
{
    for (place, number) in numbers.iter().enumerate() {
        push_entry(text, place, *number)?;
    }
    Ok(())
}

#[tactic(auto, unfolding(crate::specs::Json::numbers_text))]
/// Adds a list of numbers.
pub(crate) fn push_numbers(text: &mut Vec<u8>, numbers: &[u64]) -> Result<(), AllocError>
    ensures { OnOk result (text.new.items ≡ text.old.items ++ numbers_text numbers.now) }
{
    text.extend_from_slice(b"[")?;
    push_all(text, numbers)?;
    text.extend_from_slice(b"]")
}

#[tactic(auto, unfolding(crate::specs::Json::numbers_text))]
/// Adds a vector time as a list.
pub(crate) fn push_time(text: &mut Vec<u8>, time: &Time) -> Result<(), AllocError>
    ensures { OnOk result (text.new.items ≡ text.old.items ++ numbers_text time.now) }
{
    text.extend_from_slice(b"[")?;
    push_entries(text, time)?;
    text.extend_from_slice(b"]")
}

#[tactic(auto, unfolding(crate::specs::Json::number_or_null))]
/// Adds the number of a node, or `null` if there is none.
pub(crate) fn push_or_null(text: &mut Vec<u8>, number: Option<u8>) -> Result<(), AllocError>
    ensures { OnOk result (text.new.items ≡ text.old.items ++ number_or_null number) }
{
    match number {
        Some(number) => push_number(text, b"", u64::from(number)),
        None => text.extend_from_slice(b"null"),
    }
}

/// Adds the name of an interval.
pub(crate) fn push_interval_name(text: &mut Vec<u8>, node: u8, index: u32) -> Result<(), AllocError>
    ensures { OnOk result (text.new.items ≡ text.old.items ++ interval_name node index) }
{
    push_number(text, b"\"", u64::from(node))?;
    push_number(text, b".", u64::from(index))?;
    text.extend_from_slice(b"\"")
}

/// Appends an item to a list if `is_shown` is true.
pub(crate) fn put_if<T: Copy>(all: &mut Vec<T>, item: T, is_shown: bool) -> Result<(), AllocError>
    ensures { OnOk result (all.new.items ≡ all.old.items ++ cond is_shown (item ∷ []) []) }
{
    if is_shown {
        all.push(item)?;
    }
    Ok(())
}
