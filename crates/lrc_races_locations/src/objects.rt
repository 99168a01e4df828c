// The lines that are printed of pairs of locations as JSON.
ghost use Rattle.std.specs.Prelude.{◌≡◌, ◌++◌, OnOk};
ghost use Rattle.lrc_races_text.specs.Objects.{place_value, side_object};
ghost use Rattle.lrc_races_text.specs.Tables.{naming_of};
ghost use Rattle.lrc_races_locations.specs.Layouts.{location_object, location_objects};

use crate::spelling::{kind_word, name, push_two, variable_of};
use lrc_json::push_quoted;
use lrc_races_text::naming::Names;
use lrc_races_trace::event::{Event, Pair};
use lrc_text::push_number;
use std::alloc::AllocError;

// Adds where an access is.
fn push_place(text: &mut Vec<u8>, names: &Names, location: Option<u32>) -> Result<(), AllocError>
    ensures { OnOk result (text.new.items
        ≡ text.old.items ++ place_value (naming_of names.now) location) }
{
    match location {
        Some(location) => push_quoted(text, name(&names.locations, location)),
        None => text.extend_from_slice(b"null"),
    }
}

// Adds the location of an access, and its kind.
fn push_side(text: &mut Vec<u8>, names: &Names, event: Event) -> Result<(), AllocError>
    ensures { OnOk result (text.new.items
        ≡ text.old.items ++ side_object (naming_of names.now) event) }
{
    push_two(text, b"{\"location\":", b"")?;
    push_place(text, names, event.location)?;
    push_two(text, b",\"kind\":\"", kind_word(event.operation))?;
    push_two(text, b"\"}", b"")?;
    Ok(())
}

// Adds the object of a pair of locations.
fn push_pair(text: &mut Vec<u8>, names: &Names, pair: Pair) -> Result<(), AllocError>
    ensures { OnOk result (text.new.items
        ≡ text.old.items ++ location_object (naming_of names.now) pair) }
{
    let variable = variable_of(pair.earlier.event.operation);
    push_two(text, b"{\"races\":{\"first\":", b"")?;
    push_side(text, names, pair.earlier.event)?;
    push_two(text, b",\"second\":", b"")?;
    push_side(text, names, pair.later.event)?;
    push_two(text, b",\"variable\":", b"")?;
    push_quoted(text, name(&names.variables, variable))?;
    push_number(text, b",\"lines\":[", pair.earlier.event.line)?;
    push_number(text, b",", pair.later.event.line)?;
    push_two(text, b"]}}\n", b"")?;
    Ok(())
}

/// Adds the objects of the pairs of locations that race.
pub fn push_location_objects(
    text: &mut Vec<u8>,
    names: &Names,
    pairs: &[Pair],
) -> Result<(), AllocError>
    ensures { OnOk result (text.new.items
        ≡ text.old.items ++ location_objects (naming_of names.now) pairs.now) }
{
    for pair in pairs {
        push_pair(text, names, *pair)?;
    }
    Ok(())
}
