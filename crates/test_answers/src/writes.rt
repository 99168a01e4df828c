// The writes that are known at reads of runs, and which of them race.

ghost use Rattle.lrc_judge.specs.Order.{IsOrderOf};

use crate::checks::passes;
use crate::reason_runs::{
    CROSSED_TWICE, DISAGREEING, LATE_WRITE, MANY_VALUES, OLDER_VALUE, ONE_NODE, THIRD_AFTER_TWO,
    UNFOLLOWED_BOTH,
};
use lrc_judge::are_in_range;
use lrc_judge::order::{Order, happens_before};
use lrc_trace::act::Act;
use lrc_why_chains::writes::{
    Crossing, first_crossing, known_writes, last_write, last_written, unfollowed,
};
use std::alloc::{AllocError, Global};

/// What is wanted of the writes to a word at a position.
struct Row {
    name: &'static str,
    acts: &'static [Act],
    position: usize,
    word: u32,
    /// Those that are known.
    known: &'static [usize],
    /// The first two that race.
    crossing: Option<&'static [usize]>,
    /// The last that is known.
    last: Option<usize>,
    /// Those that no known write follows.
    unfollowed: &'static [usize],
    /// The last in the run, where it is not known.
    last_written: Option<usize>,
}

fn is_crossing(found: Option<Crossing>, wanted: Option<&[usize]>) -> bool {
    match found {
        Some(two) => match wanted {
            Some(positions) => positions == [two.earlier, two.later].as_slice(),
            None => false,
        },
        None => wanted.is_none(),
    }
}

fn are_told(order: &Order, writes: &[usize], row: &Row) -> bool
    requires { IsOrderOf row.now.acts.now order.now }
{
    writes == row.known
        && is_crossing(first_crossing(order, writes), row.crossing)
        && last_write(writes) == row.last
        && last_written(row.acts, order, row.position, row.word) == row.last_written
}

fn are_unfollowed(
    alloc: Global,
    order: &Order,
    writes: &[usize],
    wanted: &[usize],
) -> Result<bool, AllocError> {
    let last = unfollowed(alloc, order, writes)?;
    Ok(last.as_slice() == wanted)
}

fn is_told(alloc: Global, order: &Order, row: &Row) -> Result<bool, AllocError>
    requires { IsOrderOf row.now.acts.now order.now }
{
    let writes = known_writes(alloc, row.acts, order, row.position, row.word)?;
    if !are_told(order, writes.as_slice(), row) {
        return Ok(false);
    }
    are_unfollowed(alloc, order, writes.as_slice(), row.unfollowed)
}

fn is_met(alloc: Global, row: &Row) -> bool {
    if !are_in_range(row.acts) {
        return false;
    }
    match happens_before(alloc, row.acts) {
        Ok(order) => is_told(alloc, &order, row) == Ok(true),
        Err(_) => false,
    }
}

fn first_wrong(alloc: Global, rows: &[Row]) -> Option<&'static str> {
    for row in rows {
        if !is_met(alloc, row) {
            return Some(row.name);
        }
    }
    None
}

const WRITES: &[Row] = &[
    Row {
        name: "the earliest later write, with the earliest",
        acts: CROSSED_TWICE,
        position: 10,
        word: 0,
        known: &[0, 3, 4],
        crossing: Some(&[0, 4]),
        last: Some(4),
        unfollowed: &[3, 4],
        last_written: None,
    },
    Row {
        name: "none follows either",
        acts: UNFOLLOWED_BOTH,
        position: 6,
        word: 0,
        known: &[0, 1],
        crossing: Some(&[0, 1]),
        last: Some(1),
        unfollowed: &[0, 1],
        last_written: None,
    },
    Row {
        name: "many writes",
        acts: MANY_VALUES,
        position: 11,
        word: 0,
        known: &[0, 1, 2, 3, 4, 5, 6, 8],
        crossing: Some(&[0, 1]),
        last: Some(8),
        unfollowed: &[6, 8],
        last_written: None,
    },
    Row {
        name: "one after two that race",
        acts: THIRD_AFTER_TWO,
        position: 26,
        word: 0,
        known: &[3, 7, 19],
        crossing: Some(&[3, 7]),
        last: Some(19),
        unfollowed: &[19],
        last_written: None,
    },
    Row {
        name: "before the third",
        acts: THIRD_AFTER_TWO,
        position: 19,
        word: 0,
        known: &[3, 7],
        crossing: Some(&[3, 7]),
        last: Some(7),
        unfollowed: &[3, 7],
        last_written: None,
    },
    Row {
        name: "a write of the same node",
        acts: ONE_NODE,
        position: 2,
        word: 0,
        known: &[0, 1],
        crossing: None,
        last: Some(1),
        unfollowed: &[1],
        last_written: None,
    },
    Row {
        name: "an older value",
        acts: OLDER_VALUE,
        position: 7,
        word: 0,
        known: &[2],
        crossing: None,
        last: Some(2),
        unfollowed: &[2],
        last_written: Some(4),
    },
    Row {
        name: "known since the acquire",
        acts: LATE_WRITE,
        position: 7,
        word: 0,
        known: &[2],
        crossing: None,
        last: Some(2),
        unfollowed: &[2],
        last_written: None,
    },
    Row {
        name: "a write after the release",
        acts: LATE_WRITE,
        position: 8,
        word: 1,
        known: &[],
        crossing: None,
        last: None,
        unfollowed: &[],
        last_written: Some(4),
    },
    Row {
        name: "nothing is known",
        acts: DISAGREEING,
        position: 2,
        word: 0,
        known: &[],
        crossing: None,
        last: None,
        unfollowed: &[],
        last_written: Some(0),
    },
    Row {
        name: "another word",
        acts: DISAGREEING,
        position: 3,
        word: 1,
        known: &[],
        crossing: None,
        last: None,
        unfollowed: &[],
        last_written: Some(1),
    },
    Row {
        name: "never written",
        acts: ONE_NODE,
        position: 2,
        word: 1,
        known: &[],
        crossing: None,
        last: None,
        unfollowed: &[],
        last_written: None,
    },
    Row {
        name: "past the end",
        acts: ONE_NODE,
        position: 3,
        word: 0,
        known: &[],
        crossing: None,
        last: None,
        unfollowed: &[],
        last_written: Some(1),
    },
];

#[test]
fn what_a_read_gives(rt: HostRuntime) {
    passes(&rt, first_wrong(rt.alloc(), WRITES));
}
