// The lines that are printed of a trace.
ghost use Rattle.std.specs.Prelude.{◌≡◌, ◌++◌, OnOk, decimal, length};
ghost use Rattle.lrc_races_lines.specs.Table.{names_of};
ghost use Rattle.lrc_races_text.specs.Tables.{naming_of};
ghost use Rattle.lrc_races_text.specs.Spelled.{name_at, thread_word, variable_word, kind_word, variable_of, place_word, place_name, side_place};
ghost use Rattle.lrc_races_text.specs.Spelled.{together, access_parts, race_line, race_lines, side_parts, sides_parts, first_parts, group_line, group_lines, reason_parts, fault_line, counts_line};

use crate::form::Form;
use crate::naming::Names;
use lrc_races_lines::table::Table;
use lrc_races_trace::event::{Event, Operation, Pair};
use lrc_races_trace::fault::{Fault, Reason};
use lrc_races_trace::group::Group;
use lrc_text::push_number;
use std::alloc::AllocError;

// Adds two parts of a line.
pub(crate) fn push_two(text: &mut Vec<u8>, one: &[u8], other: &[u8]) -> Result<(), AllocError>
    ensures { OnOk result (text.new.items ≡ text.old.items ++ one.now ++ other.now) }
{
    text.extend_from_slice(one)?;
    text.extend_from_slice(other)?;
    Ok(())
}

// A name, by its number.
pub(crate) fn name(table: &Table, number: u32) -> &[u8]
    ensures { result.now ≡ name_at (names_of table.now) number }
{
    match table.name(number as usize) {
        Some(name) => name,
        None => &[],
    }
}

// Adds a word, and behind it a name.
fn push_name(text: &mut Vec<u8>, word: &[u8], table: &Table, number: u32) -> Result<(), AllocError>
    ensures { OnOk result (text.new.items
        ≡ text.old.items ++ word.now ++ name_at (names_of table.now) number) }
{
    push_two(text, word, name(table, number))?;
    Ok(())
}

// Adds a word, and behind it how many names there are.
pub(crate) fn push_count(text: &mut Vec<u8>, word: &[u8], table: &Table) -> Result<(), AllocError>
    ensures { OnOk result (text.new.items
        ≡ text.old.items ++ word.now ++ decimal (length (names_of table.now))) }
{
    push_number(text, word, table.count() as u64)?;
    Ok(())
}

fn thread_word(form: Form) -> &'static [u8]
    ensures { result.now ≡ thread_word form }
{
    match form {
        Form::Std => b"",
        Form::Acts => b"node ",
    }
}

fn variable_word(form: Form) -> &'static [u8]
    ensures { result.now ≡ variable_word form }
{
    match form {
        Form::Std => b"",
        Form::Acts => b"word ",
    }
}

pub(crate) fn kind_word(operation: Operation) -> &'static [u8]
    ensures { result.now ≡ kind_word operation }
{
    match operation {
        Operation::Write(_) => b"write",
        _ => b"read",
    }
}

// The variable of an access.
pub(crate) fn variable_of(operation: Operation) -> u32
    ensures { result ≡ variable_of operation }
{
    match operation {
        Operation::Read(variable) => variable,
        Operation::Write(variable) => variable,
        _ => 0,
    }
}

fn place_word(location: Option<u32>) -> &'static [u8]
    ensures { result.now ≡ place_word location }
{
    match location {
        Some(_) => b" at ",
        None => b"",
    }
}

fn place_name(names: &Names, location: Option<u32>) -> &[u8]
    ensures { result.now ≡ place_name (naming_of names.now) location }
{
    match location {
        Some(location) => name(&names.locations, location),
        None => &[],
    }
}

fn side_place(names: &Names, location: Option<u32>) -> &[u8]
    ensures { result.now ≡ side_place (naming_of names.now) location }
{
    match location {
        Some(location) => name(&names.locations, location),
        None => b"-",
    }
}

// Adds an access: its line, its thread, its kind, and its location.
fn push_access(
    text: &mut Vec<u8>,
    form: Form,
    names: &Names,
    event: Event,
) -> Result<(), AllocError>
    ensures { OnOk result (text.new.items
        ≡ text.old.items ++ together (access_parts form (naming_of names.now) event)) }
{
    push_number(text, b"line ", event.line)?;
    push_two(text, b" ", thread_word(form))?;
    push_two(text, name(&names.threads, event.thread), b" ")?;
    push_two(text, kind_word(event.operation), place_word(event.location))?;
    push_two(text, place_name(names, event.location), b"")?;
    Ok(())
}

// Adds the line of a pair of accesses that is told.
fn push_pair(text: &mut Vec<u8>, form: Form, names: &Names, pair: Pair) -> Result<(), AllocError>
    ensures { OnOk result (text.new.items
        ≡ text.old.items ++ race_line form (naming_of names.now) pair) }
{
    let variable = variable_of(pair.earlier.event.operation);
    push_two(text, b"race ", variable_word(form))?;
    push_two(text, name(&names.variables, variable), b": ")?;
    push_access(text, form, names, pair.earlier.event)?;
    push_two(text, b", ", b"")?;
    push_access(text, form, names, pair.later.event)?;
    push_two(text, b"\n", b"")?;
    Ok(())
}

/// Adds the lines of the reported pairs.
pub fn push_pairs(
    text: &mut Vec<u8>,
    form: Form,
    names: &Names,
    pairs: &[Pair],
) -> Result<(), AllocError>
    ensures { OnOk result (text.new.items
        ≡ text.old.items ++ race_lines form (naming_of names.now) pairs.now) }
{
    for pair in pairs {
        push_pair(text, form, names, *pair)?;
    }
    Ok(())
}

// Adds the location of an access, and its kind.
fn push_side(text: &mut Vec<u8>, names: &Names, event: Event) -> Result<(), AllocError>
    ensures { OnOk result (text.new.items
        ≡ text.old.items ++ together (side_parts (naming_of names.now) event)) }
{
    push_two(text, side_place(names, event.location), b" ")?;
    push_two(text, kind_word(event.operation), b"")?;
    Ok(())
}

// Adds the locations and kinds of a group.
fn push_sides(text: &mut Vec<u8>, names: &Names, pair: Pair) -> Result<(), AllocError>
    ensures { OnOk result (text.new.items
        ≡ text.old.items ++ together (sides_parts (naming_of names.now) pair)) }
{
    push_two(text, b"races ", b"")?;
    push_side(text, names, pair.earlier.event)?;
    push_two(text, b", ", b"")?;
    push_side(text, names, pair.later.event)?;
    Ok(())
}

// Adds the first pair of a group.
fn push_first(text: &mut Vec<u8>, form: Form, names: &Names, pair: Pair) -> Result<(), AllocError>
    ensures { OnOk result (text.new.items
        ≡ text.old.items ++ together (first_parts form (naming_of names.now) pair)) }
{
    let variable = variable_of(pair.earlier.event.operation);
    push_two(text, b", first ", variable_word(form))?;
    push_two(text, name(&names.variables, variable), b"")?;
    push_number(text, b" lines ", pair.earlier.event.line)?;
    push_number(text, b", ", pair.later.event.line)?;
    Ok(())
}

// Adds the line of a group of pairs.
fn push_group(text: &mut Vec<u8>, form: Form, names: &Names, group: Group) -> Result<(), AllocError>
    ensures { OnOk result (text.new.items
        ≡ text.old.items ++ group_line form (naming_of names.now) group) }
{
    push_sides(text, names, group.first)?;
    push_number(text, b": ", group.count)?;
    push_first(text, form, names, group.first)?;
    push_two(text, b"\n", b"")?;
    Ok(())
}

// Adds the lines of groups.
fn push_groups(
    text: &mut Vec<u8>,
    form: Form,
    names: &Names,
    groups: &[Group],
) -> Result<(), AllocError>
    ensures { OnOk result (text.new.items
        ≡ text.old.items ++ group_lines form (naming_of names.now) groups.now) }
{
    for group in groups {
        push_group(text, form, names, *group)?;
    }
    Ok(())
}

// Adds why no program would give an event of the thread.
pub(crate) fn push_reason(
    text: &mut Vec<u8>,
    names: &Names,
    thread: u32,
    reason: Reason,
) -> Result<(), AllocError>
    ensures { OnOk result (text.new.items
        ≡ text.old.items ++ together (reason_parts (naming_of names.now) thread reason)) }
{
    match reason {
        Reason::Joined { line } => {
            push_name(text, b"thread ", &names.threads, thread)?;
            push_number(text, b" was joined at line ", line)?;
            Ok(())
        }
        Reason::Waits { barrier, line } => {
            push_name(text, b"thread ", &names.threads, thread)?;
            push_name(text, b" waits at barrier ", &names.barriers, barrier)?;
            push_number(text, b" since line ", line)?;
            Ok(())
        }
        Reason::NotArrived { barrier } => {
            push_name(text, b"thread ", &names.threads, thread)?;
            push_name(
                text,
                b" has not arrived at barrier ",
                &names.barriers,
                barrier,
            )?;
            Ok(())
        }
        Reason::Held { lock, thread, line } => {
            push_name(text, b"lock ", &names.locks, lock)?;
            push_name(text, b" is held by thread ", &names.threads, thread)?;
            push_number(text, b" since line ", line)?;
            Ok(())
        }
        Reason::NotHeld { lock } => {
            push_name(text, b"lock ", &names.locks, lock)?;
            push_name(text, b" is not held by thread ", &names.threads, thread)?;
            Ok(())
        }
        Reason::Known { thread, line } => {
            push_name(text, b"thread ", &names.threads, thread)?;
            push_number(text, b" is known since line ", line)?;
            Ok(())
        }
    }
}

// Adds the line of the first event that no program would give, if there is one.
fn push_fault(text: &mut Vec<u8>, names: &Names, fault: Option<Fault>) -> Result<(), AllocError>
    ensures { OnOk result (text.new.items
        ≡ text.old.items ++ fault_line (naming_of names.now) fault) }
{
    match fault {
        Some(fault) => {
            push_number(text, b"not well formed at line ", fault.event.line)?;
            push_two(text, b": ", b"")?;
            push_reason(text, names, fault.event.thread, fault.reason)?;
            push_two(text, b"\n", b"")?;
            Ok(())
        }
        None => Ok(()),
    }
}

// Adds the last line: how many races, events, and names of each kind.
fn push_counts(text: &mut Vec<u8>, names: &Names, races: u64, events: u64) -> Result<(), AllocError>
    ensures { OnOk result (text.new.items
        ≡ text.old.items ++ counts_line (naming_of names.now) races events) }
{
    push_number(text, b"races ", races)?;
    push_number(text, b", events ", events)?;
    push_count(text, b", threads ", &names.threads)?;
    push_count(text, b", variables ", &names.variables)?;
    push_count(text, b", locks ", &names.locks)?;
    push_count(text, b", barriers ", &names.barriers)?;
    push_two(text, b"\n", b"")?;
    Ok(())
}

/// Adds what is reported at the end of a trace: the groups, the first event that no program would give, and the last
/// line.
pub fn push_end(
    text: &mut Vec<u8>,
    form: Form,
    names: &Names,
    groups: &[Group],
    fault: Option<Fault>,
    races: u64,
    events: u64,
) -> Result<(), AllocError>
    ensures { OnOk result (text.new.items
        ≡ text.old.items ++ (group_lines form (naming_of names.now) groups.now
        ++ (fault_line (naming_of names.now) fault
        ++ counts_line (naming_of names.now) races events))) }
{
    push_groups(text, form, names, groups)?;
    push_fault(text, names, fault)?;
    push_counts(text, names, races, events)?;
    Ok(())
}
