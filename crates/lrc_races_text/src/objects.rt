// The lines that are printed of a trace as JSON.
ghost use Rattle.std.specs.Prelude.{◌≡◌, ◌++◌, OnOk};
ghost use Rattle.lrc_races_text.specs.Tables.{naming_of};
ghost use Rattle.lrc_races_text.specs.Objects.{access_object, counts_object, fault_object, group_object, group_objects, ill_object, place_value, race_object, race_objects, side_object};

use crate::naming::Names;
use crate::spelling::{kind_word, name, push_count, push_reason, push_two, variable_of};
use lrc_json::push_quoted;
use lrc_races_trace::event::{Event, Pair};
use lrc_races_trace::fault::Fault;
use lrc_races_trace::group::Group;
use lrc_text::push_number;
use std::alloc::AllocError;

// Adds where an access is.
fn push_place(text: &mut Vec<u8>, names: &Names, location: Option<u32>) -> Result<(), AllocError>
    ensures { OnOk result (text.new.items
        ≡ text.old.items ++ place_value (naming_of names.now) location) }
{
    match location {
        Some(location) => push_quoted(text, name(&names.locations, location)),
        None => text.extend_from_slice(b"null"),
    }
}

// Adds an access: its line, its thread, its kind, and where it is.
fn push_access(text: &mut Vec<u8>, names: &Names, event: Event) -> Result<(), AllocError>
    ensures { OnOk result (text.new.items
        ≡ text.old.items ++ access_object (naming_of names.now) event) }
{
    push_number(text, b"{\"line\":", event.line)?;
    push_two(text, b",\"thread\":", b"")?;
    push_quoted(text, name(&names.threads, event.thread))?;
    push_two(text, b",\"kind\":\"", kind_word(event.operation))?;
    push_two(text, b"\",\"location\":", b"")?;
    push_place(text, names, event.location)?;
    push_two(text, b"}", b"")?;
    Ok(())
}

// Adds the object of a pair that is told.
fn push_pair(text: &mut Vec<u8>, names: &Names, pair: Pair) -> Result<(), AllocError>
    ensures { OnOk result (text.new.items
        ≡ text.old.items ++ race_object (naming_of names.now) pair) }
{
    let variable = variable_of(pair.earlier.event.operation);
    push_two(text, b"{\"race\":{\"variable\":", b"")?;
    push_quoted(text, name(&names.variables, variable))?;
    push_two(text, b",\"first\":", b"")?;
    push_access(text, names, pair.earlier.event)?;
    push_two(text, b",\"second\":", b"")?;
    push_access(text, names, pair.later.event)?;
    push_two(text, b"}}\n", b"")?;
    Ok(())
}

/// Adds the objects of the reported pairs.
pub fn push_pair_objects(
    text: &mut Vec<u8>,
    names: &Names,
    pairs: &[Pair],
) -> Result<(), AllocError>
    ensures { OnOk result (text.new.items
        ≡ text.old.items ++ race_objects (naming_of names.now) pairs.now) }
{
    for pair in pairs {
        push_pair(text, names, *pair)?;
    }
    Ok(())
}

// Adds the location of an access, and its kind.
fn push_side(text: &mut Vec<u8>, names: &Names, event: Event) -> Result<(), AllocError>
    ensures { OnOk result (text.new.items
        ≡ text.old.items ++ side_object (naming_of names.now) event) }
{
    push_two(text, b"{\"location\":", b"")?;
    push_place(text, names, event.location)?;
    push_two(text, b",\"kind\":\"", kind_word(event.operation))?;
    push_two(text, b"\"}", b"")?;
    Ok(())
}

// Adds the object of a group of pairs.
fn push_group(text: &mut Vec<u8>, names: &Names, group: Group) -> Result<(), AllocError>
    ensures { OnOk result (text.new.items
        ≡ text.old.items ++ group_object (naming_of names.now) group) }
{
    let variable = variable_of(group.first.earlier.event.operation);
    push_two(text, b"{\"races\":{\"first\":", b"")?;
    push_side(text, names, group.first.earlier.event)?;
    push_two(text, b",\"second\":", b"")?;
    push_side(text, names, group.first.later.event)?;
    push_number(text, b",\"count\":", group.count)?;
    push_two(text, b",\"variable\":", b"")?;
    push_quoted(text, name(&names.variables, variable))?;
    push_number(text, b",\"lines\":[", group.first.earlier.event.line)?;
    push_number(text, b",", group.first.later.event.line)?;
    push_two(text, b"]}}\n", b"")?;
    Ok(())
}

// Adds the objects of groups.
fn push_groups(text: &mut Vec<u8>, names: &Names, groups: &[Group]) -> Result<(), AllocError>
    ensures { OnOk result (text.new.items
        ≡ text.old.items ++ group_objects (naming_of names.now) groups.now) }
{
    for group in groups {
        push_group(text, names, *group)?;
    }
    Ok(())
}

// Adds the object of an event that no program would give, with the text of its reason.
fn push_ill(text: &mut Vec<u8>, line: u64, reason: &[u8]) -> Result<(), AllocError>
    ensures { OnOk result (text.new.items ≡ text.old.items ++ ill_object line reason.now) }
{
    push_number(text, b"{\"ill\":{\"line\":", line)?;
    push_two(text, b",\"reason\":", b"")?;
    push_quoted(text, reason)?;
    push_two(text, b"}}\n", b"")?;
    Ok(())
}

// Adds the object of the first event that no program would give, if there is one.
fn push_fault(text: &mut Vec<u8>, names: &Names, fault: Option<Fault>) -> Result<(), AllocError>
    ensures { OnOk result (text.new.items
        ≡ text.old.items ++ fault_object (naming_of names.now) fault) }
{
    match fault {
        Some(fault) => {
            let mut reason = Vec::new(*text.allocator());
            push_reason(&mut reason, names, fault.event.thread, fault.reason)?;
            push_ill(text, fault.event.line, &reason)
        }
        None => Ok(()),
    }
}

// Adds the last line: how many races, events, and names of each kind.
fn push_counts(text: &mut Vec<u8>, names: &Names, races: u64, events: u64) -> Result<(), AllocError>
    ensures { OnOk result (text.new.items
        ≡ text.old.items ++ counts_object (naming_of names.now) races events) }
{
    push_number(text, b"{\"races\":", races)?;
    push_number(text, b",\"events\":", events)?;
    push_count(text, b",\"threads\":", &names.threads)?;
    push_count(text, b",\"variables\":", &names.variables)?;
    push_count(text, b",\"locks\":", &names.locks)?;
    push_count(text, b",\"barriers\":", &names.barriers)?;
    push_two(text, b"}\n", b"")?;
    Ok(())
}

/// Adds the objects of what is reported at the end of a trace: the groups, the first event that no program would give,
/// and the last line.
pub fn push_end_objects(
    text: &mut Vec<u8>,
    names: &Names,
    groups: &[Group],
    fault: Option<Fault>,
    races: u64,
    events: u64,
) -> Result<(), AllocError>
    ensures { OnOk result (text.new.items
        ≡ text.old.items ++ (group_objects (naming_of names.now) groups.now
        ++ (fault_object (naming_of names.now) fault
        ++ counts_object (naming_of names.now) races events))) }
{
    push_groups(text, names, groups)?;
    push_fault(text, names, fault)?;
    push_counts(text, names, races, events)?;
    Ok(())
}
