// Runs, beside the chains that are told in them.

use crate::checks::passes;
use lrc_trace::act::{Act, Deed};
use lrc_why_chains::chains::chain_told;
use std::alloc::Global;

/// Two positions, and the chain that is told from the one to the other.
struct Row {
    name: &'static str,
    acts: &'static [Act],
    from: usize,
    to: usize,
    wanted: Option<&'static [usize]>,
}

fn is_met(alloc: Global, row: &Row) -> bool {
    match chain_told(alloc, row.acts, row.from, row.to) {
        Ok(Some(chain)) => match row.wanted {
            Some(wanted) => chain.as_slice() == wanted,
            None => false,
        },
        Ok(None) => row.wanted.is_none(),
        Err(_) => false,
    }
}

fn first_wrong(alloc: Global, rows: &[Row]) -> Option<&'static str> {
    for row in rows {
        if !is_met(alloc, row) {
            return Some(row.name);
        }
    }
    None
}

/// Two releases of one lock lead as shortly to an acquire.
const RELEASED_TWICE: &[Act] = &[
    Act {
        node: 0,
        deed: Deed::Acquire(1),
    },
    Act {
        node: 0,
        deed: Deed::Write(0, 5),
    },
    Act {
        node: 0,
        deed: Deed::Release(1),
    },
    Act {
        node: 0,
        deed: Deed::Acquire(1),
    },
    Act {
        node: 0,
        deed: Deed::Release(1),
    },
    Act {
        node: 1,
        deed: Deed::Acquire(1),
    },
    Act {
        node: 1,
        deed: Deed::Read(0, 5),
    },
];

/// Two nodes write, and come to a barrier.
const BARRIER: &[Act] = &[
    Act {
        node: 0,
        deed: Deed::Write(0, 1),
    },
    Act {
        node: 1,
        deed: Deed::Write(0, 2),
    },
    Act {
        node: 0,
        deed: Deed::Arrive,
    },
    Act {
        node: 1,
        deed: Deed::Arrive,
    },
    Act {
        node: 0,
        deed: Deed::Depart,
    },
    Act {
        node: 1,
        deed: Deed::Depart,
    },
    Act {
        node: 0,
        deed: Deed::Read(0, 3),
    },
];

/// Two nodes lead as shortly to the last one.
const TWO_WAYS: &[Act] = &[
    Act {
        node: 0,
        deed: Deed::Write(0, 5),
    },
    Act {
        node: 0,
        deed: Deed::Release(1),
    },
    Act {
        node: 0,
        deed: Deed::Release(2),
    },
    Act {
        node: 1,
        deed: Deed::Acquire(1),
    },
    Act {
        node: 2,
        deed: Deed::Acquire(2),
    },
    Act {
        node: 2,
        deed: Deed::Release(3),
    },
    Act {
        node: 1,
        deed: Deed::Release(3),
    },
    Act {
        node: 1,
        deed: Deed::Release(4),
    },
    Act {
        node: 2,
        deed: Deed::Release(4),
    },
    Act {
        node: 3,
        deed: Deed::Acquire(3),
    },
    Act {
        node: 3,
        deed: Deed::Acquire(4),
    },
    Act {
        node: 3,
        deed: Deed::End,
    },
];

const TOLD: &[Row] = &[
    Row {
        name: "the first of two releases",
        acts: RELEASED_TWICE,
        from: 1,
        to: 5,
        wanted: Some(&[1, 2, 5]),
    },
    Row {
        name: "the second release",
        acts: RELEASED_TWICE,
        from: 4,
        to: 6,
        wanted: Some(&[4, 5, 6]),
    },
    Row {
        name: "one node",
        acts: RELEASED_TWICE,
        from: 0,
        to: 4,
        wanted: Some(&[0, 4]),
    },
    Row {
        name: "a barrier",
        acts: BARRIER,
        from: 1,
        to: 6,
        wanted: Some(&[1, 3, 4, 6]),
    },
    Row {
        name: "neither before the other",
        acts: BARRIER,
        from: 0,
        to: 1,
        wanted: None,
    },
    Row {
        name: "backwards",
        acts: BARRIER,
        from: 6,
        to: 1,
        wanted: None,
    },
    Row {
        name: "past the end",
        acts: BARRIER,
        from: 0,
        to: 7,
        wanted: None,
    },
    Row {
        name: "of two nodes the earlier acts",
        acts: TWO_WAYS,
        from: 0,
        to: 11,
        wanted: Some(&[0, 1, 3, 6, 9, 11]),
    },
];

#[test]
fn chains_are_told(rt: HostRuntime) {
    passes(&rt, first_wrong(rt.alloc(), TOLD));
}
