// The locks held in runs, and how often nodes have departed.

use crate::checks::passes;
use crate::reason_runs::{LATE_WRITE, NO_ARRIVE, OTHER_LOCKS, TWO_BARRIERS};
use lrc_trace::act::Act;
use lrc_why_chains::held::{departs_at, held_at};
use std::alloc::Global;

/// A node and a position: the locks that it holds there, and how often it has departed before.
struct Row {
    name: &'static str,
    acts: &'static [Act],
    node: u8,
    position: usize,
    locks: &'static [usize],
    departs: usize,
}

fn are_marked(held: &[bool], locks: &[usize]) -> bool {
    for (lock, is_held) in held.iter().enumerate() {
        if *is_held != locks.contains(&lock) {
            return false;
        }
    }
    held.len() == 256
}

fn is_met(alloc: Global, row: &Row) -> bool {
    if row.position > row.acts.len()
        || departs_at(row.acts, row.node, row.position) != row.departs
    {
        return false;
    }
    match held_at(alloc, row.acts, row.node, row.position) {
        Ok(held) => are_marked(held.as_slice(), row.locks),
        Err(_) => false,
    }
}

fn first_wrong(alloc: Global, rows: &[Row]) -> Option<&'static str> {
    for row in rows {
        if !is_met(alloc, row) {
            return Some(row.name);
        }
    }
    None
}

const HELD: &[Row] = &[
    Row {
        name: "no lock after the release",
        acts: LATE_WRITE,
        node: 0,
        position: 4,
        locks: &[],
        departs: 0,
    },
    Row {
        name: "a lock since the acquire",
        acts: LATE_WRITE,
        node: 1,
        position: 8,
        locks: &[0],
        departs: 0,
    },
    Row {
        name: "not at the acquire itself",
        acts: LATE_WRITE,
        node: 1,
        position: 6,
        locks: &[],
        departs: 0,
    },
    Row {
        name: "at the release itself",
        acts: LATE_WRITE,
        node: 0,
        position: 3,
        locks: &[0],
        departs: 0,
    },
    Row {
        name: "one lock",
        acts: OTHER_LOCKS,
        node: 1,
        position: 5,
        locks: &[1],
        departs: 0,
    },
    Row {
        name: "two locks",
        acts: OTHER_LOCKS,
        node: 0,
        position: 6,
        locks: &[0, 2],
        departs: 0,
    },
    Row {
        name: "at the end of the run",
        acts: OTHER_LOCKS,
        node: 0,
        position: 10,
        locks: &[0, 2],
        departs: 0,
    },
    Row {
        name: "after one barrier",
        acts: TWO_BARRIERS,
        node: 0,
        position: 6,
        locks: &[],
        departs: 1,
    },
    Row {
        name: "after one barrier, the other node",
        acts: TWO_BARRIERS,
        node: 1,
        position: 9,
        locks: &[],
        departs: 1,
    },
    Row {
        name: "after two barriers",
        acts: TWO_BARRIERS,
        node: 1,
        position: 15,
        locks: &[],
        departs: 2,
    },
    Row {
        name: "a depart without an arrive",
        acts: NO_ARRIVE,
        node: 0,
        position: 1,
        locks: &[],
        departs: 1,
    },
    Row {
        name: "before any barrier",
        acts: NO_ARRIVE,
        node: 1,
        position: 2,
        locks: &[],
        departs: 0,
    },
];

#[test]
fn what_is_held(rt: HostRuntime) {
    passes(&rt, first_wrong(rt.alloc(), HELD));
}
