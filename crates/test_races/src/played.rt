// The detector, over traces whose races were found by hand and by another program.

use crate::cases::{BARRIERS, Case, FORKS, LOCKS, RACES};
use lrc_races_detector::trace::told_of;
use lrc_races_trace::event::{Event, Operation, Pair};
use std::alloc::{AllocError, Global};

fn event((line, thread, operation): (u64, u32, Operation)) -> Event {
    Event {
        thread,
        operation,
        line,
        location: None,
    }
}

fn events_of(alloc: Global, rows: &[(u64, u32, Operation)]) -> Result<Vec<Event>, AllocError> {
    rows.iter().map(|row| event(*row)).collect(alloc)
}

// Whether the pairs are of these lines.
fn are_on(told: &[Pair], lines: &[(u64, u64)]) -> bool {
    told.len() == lines.len()
        && told.iter().zip(lines).all(|(pair, (earlier, later))| {
            pair.earlier.event.line == *earlier && pair.later.event.line == *later
        })
}

fn plays(alloc: Global, case: &Case) -> Result<bool, AllocError> {
    let events = events_of(alloc, case.events)?;
    let told = told_of(alloc, events.as_slice())?;
    Ok(are_on(told.as_slice(), case.told))
}

fn all_play(alloc: Global, cases: &[Case]) -> Result<bool, AllocError> {
    for case in cases {
        if !plays(alloc, case)? {
            return Ok(false);
        }
    }
    Ok(true)
}

fn is_so(answer: Result<bool, AllocError>) -> bool {
    match answer {
        Ok(so) => so,
        Err(_) => false,
    }
}

#[test]
fn barriers_order_by_cycles(rt: HostRuntime) {
    assert!(rt; is_so(all_play(rt.alloc(), BARRIERS)));
}

#[test]
fn locks_order_releases_and_acquires(rt: HostRuntime) {
    assert!(rt; is_so(all_play(rt.alloc(), LOCKS)));
}

#[test]
fn forks_and_joins_order(rt: HostRuntime) {
    assert!(rt; is_so(all_play(rt.alloc(), FORKS)));
}

#[test]
fn the_last_racing_access_of_each_thread_is_told(rt: HostRuntime) {
    assert!(rt; is_so(all_play(rt.alloc(), RACES)));
}
