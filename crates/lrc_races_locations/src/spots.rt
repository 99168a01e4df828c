// The last accesses of variables, by thread, location and kind.
ghost use Rattle.std.specs.Prelude.{◌≡◌, ◌≢◌, ℕ, ◌+◌, ◌<◌, ◌↔◌, List, IsTrue, OnOk, length};
ghost use Rattle.lrc_races_trace.specs.declared.event.Event.{Event as AnyEvent};
ghost use Rattle.lrc_races_trace.specs.Trace.{Accesses, At};
ghost use Rattle.lrc_races_detector.specs.Grouping.{side_of};
ghost use Rattle.lrc_races_trace.specs.Groups.{is_write, same_kind, same_location};
ghost use Rattle.lrc_races_locations.specs.Spots.{at_one_spot, IsRow, row_of, AreRows};

use lrc_races_detector::groups::Side;
use lrc_races_trace::event::{Event, Operation, Placed};
use std::alloc::{AllocError, Global};

/// Returns the location of an access, and whether it is a write.
pub fn side_of(event: Event) -> Side
    ensures { result ≡ side_of event }
{
    Side {
        location: event.location,
        is_write: is_write(event.operation),
    }
}

fn same_location(one: Option<u32>, other: Option<u32>) -> bool
    ensures { result ≡ same_location one other }
{
    match (one, other) {
        (Some(one), Some(other)) => one == other,
        (None, None) => true,
        _ => false,
    }
}

/// Returns whether an operation writes.
pub fn is_write(operation: Operation) -> bool
    ensures { result ≡ is_write operation }
{
    match operation {
        Operation::Write(_) => true,
        _ => false,
    }
}

fn same_kind(one: bool, other: bool) -> bool
    ensures { result ≡ same_kind one other }
{
    if one { other } else { !other }
}

// Whether two accesses are of one thread, at one location and of one kind.
fn at_one_spot(one: Event, other: Event) -> bool
    ensures { result ≡ at_one_spot one other }
{
    one.thread == other.thread
        && (same_location(one.location, other.location)
            && same_kind(is_write(one.operation), is_write(other.operation)))
}

// Notes an access in the row of its variable.
fn note_in(row: &mut Vec<Placed>, placed: Placed) -> Result<(), AllocError>
    ensures { OnOk result ((events : List AnyEvent) (v : ℕ) → At events placed.position placed.event
        → Accesses placed.event v → IsRow events placed.position v row.old.items
        → IsRow events (placed.position + 1) v row.new.items) }
{
    row.retain(|spot| !at_one_spot(spot.event, placed.event));
    row.push(placed)?;
    Ok(())
}

/// Returns the row of a variable.
pub fn row_of(rows: &[Vec<Placed>], variable: usize) -> &[Placed]
    ensures { result.now ≡ row_of rows.now variable }
{
    match rows.get(variable) {
        Some(row) => row.as_slice(),
        None => &[],
    }
}

// Makes a row for the variable, where there is none.
fn reach(alloc: Global, rows: &mut Vec<Vec<Placed>>, variable: usize) -> Result<(), AllocError>
    ensures { OnOk result ((variable < length rows.new.items)
        × ((other : ℕ) → row_of rows.new.items other ≡ row_of rows.old.items other)) }
{
    while rows.len() <= variable {
        rows.push(Vec::new(alloc))?;
    }
    Ok(())
}

/// Notes an access of a variable. It fails if memory runs out, and then the rows are of no use.
pub fn note(rows: &mut Vec<Vec<Placed>>, variable: u32, placed: Placed) -> Result<(), AllocError>
    ensures { OnOk result ((events : List AnyEvent) → At events placed.position placed.event
        → Accesses placed.event variable → AreRows events placed.position rows.old.items
        → AreRows events (placed.position + 1) rows.new.items) }
{
    let alloc = *rows.allocator();
    reach(alloc, rows, variable as usize)?;
    note_in(&mut rows[variable as usize], placed)?;
    Ok(())
}
