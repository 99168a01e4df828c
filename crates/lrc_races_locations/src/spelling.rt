// The lines that are printed of pairs of locations.
ghost use Rattle.std.specs.Prelude.{◌≡◌, ◌++◌, OnOk};
ghost use Rattle.lrc_races_lines.specs.Table.{names_of};
ghost use Rattle.lrc_races_text.specs.Tables.{naming_of};
ghost use Rattle.lrc_races_text.specs.Spelled.{name_at, variable_word, kind_word, variable_of, side_place, side_parts, sides_parts, together};
ghost use Rattle.lrc_races_locations.specs.Spelled.{locations_line, locations_lines};

use lrc_races_lines::table::Table;
use lrc_races_text::form::Form;
use lrc_races_text::naming::Names;
use lrc_races_trace::event::{Event, Operation, Pair};
use lrc_text::push_number;
use std::alloc::AllocError;

// Adds two parts of a line.
pub(crate) fn push_two(text: &mut Vec<u8>, one: &[u8], other: &[u8]) -> Result<(), AllocError>
    ensures { OnOk result (text.new.items ≡ text.old.items ++ one.now ++ other.now) }
{
    text.extend_from_slice(one)?;
    text.extend_from_slice(other)?;
    Ok(())
}

// A name, by its number.
pub(crate) fn name(table: &Table, number: u32) -> &[u8]
    ensures { result.now ≡ name_at (names_of table.now) number }
{
    match table.name(number as usize) {
        Some(name) => name,
        None => &[],
    }
}

fn variable_word(form: Form) -> &'static [u8]
    ensures { result.now ≡ variable_word form }
{
    match form {
        Form::Std => b"",
        Form::Acts => b"word ",
    }
}

pub(crate) fn kind_word(operation: Operation) -> &'static [u8]
    ensures { result.now ≡ kind_word operation }
{
    match operation {
        Operation::Write(_) => b"write",
        _ => b"read",
    }
}

// The variable of an access.
pub(crate) fn variable_of(operation: Operation) -> u32
    ensures { result ≡ variable_of operation }
{
    match operation {
        Operation::Read(variable) => variable,
        Operation::Write(variable) => variable,
        _ => 0,
    }
}

fn side_place(names: &Names, location: Option<u32>) -> &[u8]
    ensures { result.now ≡ side_place (naming_of names.now) location }
{
    match location {
        Some(location) => name(&names.locations, location),
        None => b"-",
    }
}

// Adds the location of an access, and its kind.
fn push_side(text: &mut Vec<u8>, names: &Names, event: Event) -> Result<(), AllocError>
    ensures { OnOk result (text.new.items
        ≡ text.old.items ++ together (side_parts (naming_of names.now) event)) }
{
    push_two(text, side_place(names, event.location), b" ")?;
    push_two(text, kind_word(event.operation), b"")?;
    Ok(())
}

// Adds the locations and kinds of a pair.
fn push_sides(text: &mut Vec<u8>, names: &Names, pair: Pair) -> Result<(), AllocError>
    ensures { OnOk result (text.new.items
        ≡ text.old.items ++ together (sides_parts (naming_of names.now) pair)) }
{
    push_two(text, b"races ", b"")?;
    push_side(text, names, pair.earlier.event)?;
    push_two(text, b", ", b"")?;
    push_side(text, names, pair.later.event)?;
    Ok(())
}

// Adds the line of a pair of locations.
fn push_pair(text: &mut Vec<u8>, form: Form, names: &Names, pair: Pair) -> Result<(), AllocError>
    ensures { OnOk result (text.new.items
        ≡ text.old.items ++ locations_line form (naming_of names.now) pair) }
{
    let variable = variable_of(pair.earlier.event.operation);
    push_sides(text, names, pair)?;
    push_two(text, b": ", variable_word(form))?;
    push_two(text, name(&names.variables, variable), b"")?;
    push_number(text, b" lines ", pair.earlier.event.line)?;
    push_number(text, b", ", pair.later.event.line)?;
    push_two(text, b"\n", b"")?;
    Ok(())
}

/// Adds the lines of the pairs of locations that race.
pub fn push_locations(
    text: &mut Vec<u8>,
    form: Form,
    names: &Names,
    pairs: &[Pair],
) -> Result<(), AllocError>
    ensures { OnOk result (text.new.items
        ≡ text.old.items ++ locations_lines form (naming_of names.now) pairs.now) }
{
    for pair in pairs {
        push_pair(text, form, names, *pair)?;
    }
    Ok(())
}
