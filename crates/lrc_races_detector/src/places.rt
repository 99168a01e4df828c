// Where the last accesses of a variable stand.
ghost use Rattle.std.specs.Prelude.{◌≡◌, ◌≤◌, ◌^◌, IfOk, OnErr, OnOk};
ghost use Rattle.lrc_races_detector.specs.Placed.{row_in, AreKept, AreOrdered, IsPlace};
ghost use Rattle.lrc_races_detector.specs.Variables.{IsNotedAt};

use crate::variables::{Last, noted};
use lrc_races_trace::event::Placed;
use std::alloc::AllocError;

/// Where the entry of a thread stands.
#[derive(Clone, Copy)]
pub struct Place {
    pub thread: u32,
    pub index: u32,
}

// Where the thread has its place, or is to have it: behind all lower threads.
fn place_of(order: &[Place], thread: u32) -> usize
    requires { AreOrdered order.now }
    ensures { IsPlace order.now thread result }
{
    order.partition_point(|place| place.thread < thread)
}

// An index as a place has it. A row has fewer than 2^32 entries, each of another thread.
fn index_of(index: usize) -> Result<u32, AllocError>
    ensures found { IfOk result (λ found. found ≡ index) }
    ensures full { OnErr result (2 ^ 32 ≤ index) }
{
    match u32::try_from(index) {
        Ok(found) => Ok(found),
        Err(_) => Err(AllocError),
    }
}

/// Notes an access among the last ones of its variable. It fails if memory runs out.
pub(crate) fn note_last(
    lasts: &mut Vec<Last>,
    order: &mut Vec<Place>,
    placed: Placed,
    is_write: bool,
) -> Result<(), AllocError>
    requires { AreKept lasts.old.items order.old.items }
    ensures kept { AreKept lasts.new.items order.new.items }
    ensures noted { OnOk result (IsNotedAt (row_in lasts.old.items order.old.items)
        (row_in lasts.new.items order.new.items) placed is_write) }
{
    let thread = placed.event.thread;
    let at = place_of(order.as_slice(), thread);
    if at < order.len() {
        let place = order[at];
        if place.thread == thread {
            let index = place.index as usize;
            let last = lasts[index];
            lasts[index] = noted(Some(last), placed, is_write);
            return Ok(());
        }
    }
    let index = index_of(lasts.len())?;
    lasts.push(noted(None, placed, is_write))?;
    order.insert(at, Place { thread, index })?;
    Ok(())
}
