// The events by way of which two accesses were reached, and then the two.
ghost use Rattle.std.specs.Prelude.{◌≡◌, ◌<◌, ◌≤◌, ◌⊎◌, ◌∷◌, ◌++◌, [], IfOk, OnOk, length, slice_index};
ghost use Rattle.lrc_races_witness.specs.Showing.{Shows};

use crate::past::{is_below, way_of};
use lrc_races_trace::event::Event;
use std::alloc::{AllocError, Global};

// Adds the position of an event of a thread, if so much is known of the thread in one of both vectors.
fn note(
    positions: &mut Vec<u64>,
    first: &[u64],
    second: &[u64],
    thread: u32,
    position: usize,
) -> Result<(), AllocError>
    ensures on { OnOk result ((position < slice_index first.now thread)
        ⊎ (position < slice_index second.now thread)
        → positions.new.items ≡ positions.old.items ++ position ∷ []) }
    ensures off { OnOk result (slice_index first.now thread ≤ position
        → slice_index second.now thread ≤ position
        → positions.new.items ≡ positions.old.items) }
{
    if is_below(first, thread, position) {
        positions.push(position as u64)?;
        return Ok(());
    }
    if is_below(second, thread, position) {
        positions.push(position as u64)?;
        return Ok(());
    }
    Ok(())
}

/// Returns the positions of the reordering that shows a sure race of the accesses at two positions: the events by way of
/// which one of them was reached, in the order of the trace, then the two. It fails if memory runs out.
pub fn reordering_of(
    alloc: Global,
    events: &[Event],
    earlier: usize,
    later: usize,
) -> Result<Vec<u64>, AllocError>
    requires order { earlier < later }
    requires within { later < length events.now }
    ensures { IfOk result (λ positions. Shows events.now earlier later positions.items) }
{
    let first = way_of(alloc, events, earlier)?;
    let second = way_of(alloc, events, later)?;
    let mut positions = Vec::new(alloc);
    for (position, event) in events.iter().enumerate() {
        note(
            &mut positions,
            first.as_slice(),
            second.as_slice(),
            event.thread,
            position,
        )?;
    }
    positions.push(earlier as u64)?;
    positions.push(later as u64)?;
    Ok(positions)
}
