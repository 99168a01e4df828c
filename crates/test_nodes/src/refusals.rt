// Messages that a node doesn't expect.

use crate::checks::holds;
use crate::plays::{Outline, Play, Step, plays};
use lrc_node::NodeFault;
use lrc_trace::act::Deed;
use std::alloc::Global;

// Node 0's messages to a fresh node 1 of two, which expects none of them: a request of lock 0,
const REQUEST: &[u8] = &[
    1, 1, 0, 1, 0, 0, 0, 0, 0, 0, 0, 10, 0, 2, 0, 0, 0, 0, 0, 0, 0, 0,
];
// requests forwarded of lock 0, and of lock 1,
const FORWARD: &[u8] = &[
    1, 2, 0, 1, 0, 0, 0, 0, 0, 0, 0, 11, 0, 0, 2, 0, 0, 0, 0, 0, 0, 0, 0,
];

const FORWARD_1: &[u8] = &[
    1, 2, 0, 1, 0, 0, 0, 0, 0, 0, 0, 11, 1, 0, 2, 0, 0, 0, 0, 0, 0, 0, 0,
];
// a grant of lock 0,
const GRANT: &[u8] = &[
    1, 3, 0, 1, 0, 0, 0, 0, 0, 0, 0, 14, 0, 2, 0, 0, 0, 0, 0, 0, 0, 0, 0, 0, 0, 0,
];
// an arrival, a departure of episode 1, a Clean and a Discard,
const ARRIVE: &[u8] = &[
    1, 4, 0, 1, 0, 0, 0, 0, 0, 0, 0, 18, 0, 0, 0, 1, 0, 2, 0, 0, 0, 0, 0, 0, 0, 0, 0, 0, 0, 0,
];

const DEPART: &[u8] = &[
    1, 5, 0, 1, 0, 0, 0, 0, 0, 0, 0, 18, 0, 0, 0, 1, 0, 2, 0, 0, 0, 0, 0, 0, 0, 0, 0, 0, 0, 0,
];

const CLEAN: &[u8] = &[1, 6, 0, 1, 0, 0, 0, 0, 0, 0, 0, 4, 0, 0, 0, 1];

const DISCARD: &[u8] = &[1, 7, 0, 1, 0, 0, 0, 0, 0, 0, 0, 4, 0, 0, 0, 1];
// a request of what interval 1 changed in page 0, and empty changes of it,
const CHANGES_REQUEST: &[u8] = &[
    1, 8, 0, 1, 0, 0, 0, 0, 0, 0, 0, 10, 0, 0, 0, 0, 0, 1, 0, 0, 0, 1,
];

const CHANGES: &[u8] = &[
    1, 9, 0, 1, 0, 0, 0, 0, 0, 0, 0, 11, 0, 0, 0, 0, 0, 1, 0, 0, 0, 1, 0,
];
// a request of page 0's base copy,
const PAGE_REQUEST: &[u8] = &[1, 10, 0, 1, 0, 0, 0, 0, 0, 0, 0, 2, 0, 0];
// a request of lock 1 whose time has three entries, and one that is for node 0;
const LONG_REQUEST: &[u8] = &[
    1, 1, 0, 1, 0, 0, 0, 0, 0, 0, 0, 14, 1, 3, 0, 0, 0, 0, 0, 0, 0, 0, 0, 0, 0, 0,
];

const ASTRAY: &[u8] = &[
    1, 1, 0, 0, 0, 0, 0, 0, 0, 0, 0, 10, 1, 2, 0, 0, 0, 0, 0, 0, 0, 0,
];
// A request of lock 1, which node 1 manages. It has the number of the false messages.
const TRUE_REQUEST: &[u8] = &[
    1, 1, 0, 1, 0, 0, 0, 0, 0, 0, 0, 10, 1, 2, 0, 0, 0, 0, 0, 0, 0, 0,
];

/// A base copy of page 0: 64 zeros.
fn page_reply() -> [u8; 528] {
    let mut bytes = [0; 528];
    bytes[0] = 2;
    bytes[1] = 11;
    bytes[3] = 1;
    bytes[10] = 2;
    bytes[11] = 4;
    bytes[15] = 64;
    bytes
}

const UNEXPECTED: Outline = Err(NodeFault::Unexpected);

// A fresh node 1 refuses the false messages, and page 0 itself, which is at hand. It goes on as if they had not come, and
// refuses a departure then too; it takes the true one.
const REFUSALS: &Play = &Play {
    text: b"words 1; locks 2; [0] = 1;",
    node: 1,
    nodes: 2,
    first: 0,
    steps: &[
        Step::Takes(Some(REQUEST), UNEXPECTED),
        Step::Takes(Some(FORWARD), UNEXPECTED),
        Step::Takes(Some(FORWARD_1), UNEXPECTED),
        Step::Takes(Some(GRANT), UNEXPECTED),
        Step::Takes(Some(ARRIVE), UNEXPECTED),
        Step::Takes(Some(DEPART), UNEXPECTED),
        Step::Takes(Some(CLEAN), UNEXPECTED),
        Step::Takes(Some(DISCARD), UNEXPECTED),
        Step::Takes(Some(CHANGES_REQUEST), UNEXPECTED),
        Step::Takes(Some(CHANGES), UNEXPECTED),
        Step::Takes(Some(PAGE_REQUEST), UNEXPECTED),
        Step::Takes(Some(LONG_REQUEST), UNEXPECTED),
        Step::Takes(Some(ASTRAY), UNEXPECTED),
        Step::Takes(None, UNEXPECTED),
        Step::Runs(Ok((Some((1, Deed::Write(0, 1))), 0))),
        Step::Takes(Some(DEPART), UNEXPECTED),
        Step::Takes(Some(TRUE_REQUEST), Ok((None, 1))),
        Step::Runs(Ok((Some((1, Deed::End)), 0))),
    ],
};

/// Whether the node refuses all of them.
fn refuses_each(alloc: Global) -> bool {
    match Vec::from_slice(alloc, &page_reply()) {
        Ok(mut at_hand) => plays(alloc, &mut at_hand, REFUSALS),
        Err(_) => false,
    }
}

#[test]
fn false_messages_change_nothing(rt: HostRuntime) {
    holds(&rt, "a fresh node", refuses_each(rt.alloc()));
}
