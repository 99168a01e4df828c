// Nodes: a lock that goes from one to the other, a repeat, the end of a text, and numbers that are used up.

use crate::checks::holds;
use crate::plays::{Play, Step, plays, plays_alone};
use lrc_node::{End, NodeFault};
use lrc_trace::act::Deed;
use std::alloc::Global;

// Node 0 writes under lock 0, and once more after it; node 1 takes the lock after it.
const ONE_LOCK: &[u8] = b"words 2; locks 1;
    if me == 0 { acquire 0; [0] = 1; release 0; [1] = 2; } else { acquire 0; x = [0]; release 0; print x; }";

// Node 0 hands lock 0 to node 1, at time 2,0: its interval 1 wrote nothing, its interval 2 page 0.
const GRANT: [u8; 52] = [
    2, 3, 0, 1, 0, 0, 0, 0, 0, 0, 0, 40, 0, 2, 0, 0, 0, 2, 0, 0, 0, 0, 0, 0, 0, 2, 0, 2, 0, 0, 0,
    1, 0, 0, 0, 0, 0, 0, 0, 2, 0, 0, 0, 2, 0, 0, 0, 0, 0, 1, 0, 0,
];

// Node 1 asks for the lock.
const ASKING: &Play = &Play {
    text: ONE_LOCK,
    node: 1,
    nodes: 2,
    first: 0,
    steps: &[Step::Often(1), Step::Runs(Ok((None, 1)))],
};

// Node 0, after its write behind its release, is asked, forwards the request to itself, and grants.
const GRANTING: &Play = &Play {
    text: ONE_LOCK,
    node: 0,
    nodes: 2,
    first: 0,
    steps: &[
        Step::Often(5),
        Step::Takes(None, Ok((None, 1))),
        Step::Takes(None, Ok((None, 1))),
    ],
};

// Node 1, having asked, takes the grant and a repeat of it, and asks for the page.
const GRANTED: &Play = &Play {
    text: ONE_LOCK,
    node: 1,
    nodes: 2,
    first: 0,
    steps: &[
        Step::Often(2),
        Step::Takes(Some(&GRANT), Ok((Some((1, Deed::Acquire(0))), 0))),
        Step::Takes(Some(&GRANT), Ok((None, 0))),
        Step::Runs(Ok((None, 1))),
    ],
};

/// Whether node 1's request has node 0 send just the bytes of the grant.
fn is_granted(alloc: Global) -> bool {
    let mut at_hand = Vec::new(alloc);
    plays(alloc, &mut at_hand, ASKING)
        && plays(alloc, &mut at_hand, GRANTING)
        && at_hand.as_slice() == &GRANT[..]
}

const ONE_WORD: &Play = &Play {
    text: b"words 1; locks 0; [0] = 1;",
    node: 0,
    nodes: 1,
    first: 0,
    steps: &[
        Step::Runs(Ok((Some((0, Deed::Write(0, 1))), 0))),
        Step::Runs(Ok((Some((0, Deed::End)), 0))),
        Step::Runs(Err(NodeFault::NotReady)),
        Step::Runs(Err(NodeFault::NotReady)),
        Step::Stands(false, End::Ended),
    ],
};

// The node's first message has the largest number there is. It answers with a second one, to itself too.
const ONE_BARRIER: &Play = &Play {
    text: b"words 1; locks 0; barrier;",
    node: 0,
    nodes: 1,
    first: 4_294_967_295,
    steps: &[
        Step::Runs(Ok((Some((0, Deed::Arrive)), 1))),
        Step::Takes(None, Err(NodeFault::Worn)),
        Step::Takes(None, Err(NodeFault::Failed)),
        Step::Runs(Err(NodeFault::Failed)),
        Step::Stands(false, End::Unfinished),
    ],
};

// Node 0 lets two nodes depart from the first barrier, at time 1,1: its interval 1 wrote nothing. Then it asks for what
// node 1's interval 1 changed in page 0.
const DEPARTURE: [u8; 42] = [
    2, 5, 0, 1, 0, 0, 0, 0, 0, 0, 0, 30, 0, 0, 0, 1, 0, 2, 0, 0, 0, 1, 0, 0, 0, 1, 0, 0, 0, 1, 0,
    2, 0, 0, 0, 1, 0, 0, 0, 0, 0, 0,
];

const CHANGES_REQUEST: [u8; 22] = [
    2, 8, 0, 1, 0, 0, 0, 1, 0, 0, 0, 10, 0, 0, 0, 0, 0, 1, 0, 0, 0, 1,
];

// Node 1's arrival has the largest number there is, so once it has come to its end it can't answer.
const ENDED: &Play = &Play {
    text: b"words 1; locks 0; if me == 1 { [0] = 5; } barrier;",
    node: 1,
    nodes: 2,
    first: 4_294_967_295,
    steps: &[
        Step::Often(2),
        Step::Runs(Ok((Some((1, Deed::Arrive)), 1))),
        Step::Takes(Some(&DEPARTURE), Ok((Some((1, Deed::Depart)), 0))),
        Step::Runs(Ok((Some((1, Deed::End)), 0))),
        Step::Stands(false, End::Ended),
        Step::Takes(Some(&CHANGES_REQUEST), Err(NodeFault::Worn)),
        Step::Takes(Some(&CHANGES_REQUEST), Err(NodeFault::Failed)),
        Step::Stands(false, End::Ended),
    ],
};

const ROWS: &[(&str, &Play)] = &[
    ("a repeat of a grant is taken once", GRANTED),
    ("a node at its end is not ready", ONE_WORD),
    ("a node fails where numbers are used up", ONE_BARRIER),
    ("a node that fails at its end has ended", ENDED),
];

#[test]
fn nodes_are_as_worked(rt: HostRuntime) {
    holds(
        &rt,
        "a grant has the time of the release",
        is_granted(rt.alloc()),
    );
    for (name, play) in ROWS {
        holds(&rt, name, plays_alone(rt.alloc(), play));
    }
}
