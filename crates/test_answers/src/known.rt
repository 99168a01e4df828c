// What is known of nodes in runs, and where nodes first know.

use crate::checks::passes;
use crate::reason_runs::{
    CROSSED_TWICE, DISAGREEING, EARLY_DEPART, LATE_WRITE, NO_ARRIVE, THIRD_AFTER_TWO, TWO_BARRIERS,
};
use lrc_judge::are_in_range;
use lrc_judge::order::happens_before;
use lrc_trace::act::Act;
use lrc_why_chains::known::{first_knowing, last_known};
use std::alloc::Global;

/// A node and a position: the last act of the node that is known there, and its first act that knows of the position.
struct Row {
    name: &'static str,
    acts: &'static [Act],
    node: u8,
    position: usize,
    last: Option<usize>,
    first: Option<usize>,
}

fn is_met(alloc: Global, row: &Row) -> bool {
    if !are_in_range(row.acts) {
        return false;
    }
    match happens_before(alloc, row.acts) {
        Ok(order) => {
            last_known(row.acts, &order, row.node, row.position) == row.last
                && first_knowing(row.acts, &order, row.node, row.position) == row.first
        }
        Err(_) => false,
    }
}

fn first_wrong(alloc: Global, rows: &[Row]) -> Option<&'static str> {
    for row in rows {
        if !is_met(alloc, row) {
            return Some(row.name);
        }
    }
    None
}

const KNOWN: &[Row] = &[
    Row {
        name: "the release before an acquire",
        acts: LATE_WRITE,
        node: 0,
        position: 8,
        last: Some(3),
        first: None,
    },
    Row {
        name: "a release is known from the acquire on",
        acts: LATE_WRITE,
        node: 1,
        position: 3,
        last: None,
        first: Some(6),
    },
    Row {
        name: "a write after the release is never known",
        acts: LATE_WRITE,
        node: 1,
        position: 4,
        last: None,
        first: None,
    },
    Row {
        name: "an arrive",
        acts: CROSSED_TWICE,
        node: 0,
        position: 10,
        last: Some(5),
        first: None,
    },
    Row {
        name: "an arrive of a node without locks",
        acts: CROSSED_TWICE,
        node: 2,
        position: 10,
        last: Some(7),
        first: None,
    },
    Row {
        name: "known from its depart on",
        acts: CROSSED_TWICE,
        node: 1,
        position: 7,
        last: None,
        first: Some(9),
    },
    Row {
        name: "the second of two barriers",
        acts: THIRD_AFTER_TWO,
        node: 1,
        position: 26,
        last: Some(18),
        first: None,
    },
    Row {
        name: "the second of two barriers, the other node",
        acts: THIRD_AFTER_TWO,
        node: 2,
        position: 26,
        last: Some(20),
        first: None,
    },
    Row {
        name: "behind the first of two barriers",
        acts: TWO_BARRIERS,
        node: 0,
        position: 9,
        last: Some(2),
        first: Some(12),
    },
    Row {
        name: "nothing is known",
        acts: DISAGREEING,
        node: 3,
        position: 2,
        last: None,
        first: None,
    },
    Row {
        name: "a depart before an arrive",
        acts: EARLY_DEPART,
        node: 0,
        position: 2,
        last: None,
        first: None,
    },
    Row {
        name: "a depart without an arrive",
        acts: NO_ARRIVE,
        node: 0,
        position: 2,
        last: None,
        first: None,
    },
    Row {
        name: "past the end",
        acts: NO_ARRIVE,
        node: 0,
        position: 3,
        last: None,
        first: None,
    },
];

#[test]
fn what_is_known(rt: HostRuntime) {
    passes(&rt, first_wrong(rt.alloc(), KNOWN));
}
