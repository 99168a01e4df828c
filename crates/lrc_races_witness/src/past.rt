// What comes before an event of a trace.
ghost use Rattle.std.specs.Prelude.{◌<◌, ◌≤◌, ◌↔◌, IfOk, IsTrue, OnOk, length, slice_index};
ghost use Rattle.lrc_races_detector.specs.Detecting.{HasTaken};
ghost use Rattle.lrc_races_sure_pass.specs.Detecting.{HasTaken as HasTakenSurely};
ghost use Rattle.lrc_races_witness.specs.Past.{IsPast, IsWay};

use lrc_races_detector::detector::{Detector, receive};
use lrc_races_sure_pass::detector::SureDetector;
use lrc_races_trace::event::Event;
use std::alloc::{AllocError, Global};

// A detector of races takes the first so many events of a trace.
fn take_first(
    alloc: Global,
    detector: &mut Detector,
    events: &[Event],
    count: usize,
) -> Result<(), AllocError>
    requires within { count ≤ length events.now }
    requires fresh { HasTaken events.now 0 detector.old }
    ensures { OnOk result (HasTaken events.now count detector.new) }
{
    let mut told = Vec::new(alloc);
    for position in 0..count {
        detector.take(events[position], &mut told)?;
    }
    Ok(())
}

// A detector of sure races takes them.
fn take_first_surely(
    alloc: Global,
    detector: &mut SureDetector,
    events: &[Event],
    count: usize,
) -> Result<(), AllocError>
    requires within { count ≤ length events.now }
    requires fresh { HasTakenSurely events.now 0 detector.old }
    ensures { OnOk result (HasTakenSurely events.now count detector.new) }
{
    let mut told = Vec::new(alloc);
    for position in 0..count {
        detector.take(events[position], &mut told)?;
    }
    Ok(())
}

/// Returns whether a position is below what is known of a thread.
pub fn is_below(known: &[u64], thread: u32, position: usize) -> bool
    ensures { IsTrue result ↔ (position < slice_index known.now thread) }
{
    match known.get(thread as usize) {
        Some(value) => (position as u64) < *value,
        None => false,
    }
}

/// Returns what happens before the event at a position: for each thread a number, below which stand exactly the
/// positions of its events that happen before that event, or are it. It fails if memory runs out.
pub fn past_of(alloc: Global, events: &[Event], position: usize) -> Result<Vec<u64>, AllocError>
    requires { position < length events.now }
    ensures { IfOk result (λ known. IsPast events.now position known.items) }
{
    let mut detector = Detector::new(alloc);
    take_first(alloc, &mut detector, events, position + 1)?;
    let thread = events[position].thread;
    detector.threads.row(thread as usize).list(alloc)
}

/// Returns by way of which events the event at a position was reached: for each thread a number, below which stand
/// exactly the positions of its events by way of which that event was reached. It fails if memory runs out.
pub fn way_of(alloc: Global, events: &[Event], position: usize) -> Result<Vec<u64>, AllocError>
    requires { position < length events.now }
    ensures { IfOk result (λ known. IsWay events.now position known.items) }
{
    let mut detector = SureDetector::new(alloc);
    take_first_surely(alloc, &mut detector, events, position)?;
    let event = events[position];
    receive(
        &mut detector.threads,
        &detector.locks,
        &detector.barriers,
        event,
    )?;
    detector.threads.row(event.thread as usize).list(alloc)
}
