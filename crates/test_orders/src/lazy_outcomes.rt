// Outcomes of lazy runs: those of stored programs, as they are listed.

use crate::checks::passes;
use lrc_lang::parse;
use lrc_lazy_search::search::lazy_outcomes;
use lrc_orders::outcomes::Outcome;
use lrc_trace::act::{Act, Deed};
use std::alloc::{AllocError, Global};

/// A program, how many nodes run it, and the outcomes of its lazy runs.
struct Row {
    name: &'static str,
    text: &'static [u8],
    nodes: u32,
    outcomes: &'static [&'static [u8]],
}

/// What a note says, behind `node N `.
fn note_said(alloc: Global, said: &mut Vec<u8>, act: Act) -> Result<(), AllocError> {
    let text = match act.deed {
        Deed::Print(value) => format!(in alloc; "node {} prints {value}", act.node)?,
        Deed::Trap(cause) => format!(in alloc; "node {} trapped {}", act.node, cause as u8)?,
        _ => format!(in alloc; "node {} ended", act.node)?,
    };
    said.extend_from_slice(text.as_bytes())?;
    said.extend_from_slice(b" / ")?;
    Ok(())
}

/// What an outcome says of a node.
fn node_said(
    alloc: Global,
    said: &mut Vec<u8>,
    notes: &[Act],
    node: u32,
) -> Result<(), AllocError> {
    let mut over = false;
    for act in notes {
        if u32::from(act.node) == node {
            note_said(alloc, said, *act)?;
            over = over || !matches!(act.deed, Deed::Print(_));
        }
    }
    if !over {
        let text = format!(in alloc; "node {node} unfinished / ")?;
        said.extend_from_slice(text.as_bytes())?;
    }
    Ok(())
}

/// What an outcome says.
fn outcome_said(alloc: Global, outcome: &Outcome, nodes: u32) -> Result<Vec<u8>, AllocError> {
    let mut said = Vec::new(alloc);
    for node in 0..nodes {
        node_said(alloc, &mut said, &outcome.notes, node)?;
    }
    Ok(said)
}

/// Whether an outcome is one of those that are listed; a listed line ends without the last ` / `.
fn is_listed(alloc: Global, outcome: &Outcome, row: &Row) -> bool {
    match outcome_said(alloc, outcome, row.nodes) {
        Ok(said) => row.outcomes.iter().any(|line| line.len() + 3 == said.len()
            && said.starts_with(line)),
        Err(_) => false,
    }
}

/// Whether the outcomes of the lazy runs are the listed ones.
fn is_right(alloc: Global, row: &Row) -> bool {
    let Ok(program) = parse(alloc, row.text) else {
        return false;
    };
    match lazy_outcomes(alloc, &program, row.nodes, 20_000) {
        Ok(found) => {
            found.len() == row.outcomes.len()
                && found
                    .as_slice()
                    .iter()
                    .all(|outcome| is_listed(alloc, outcome, row))
        }
        Err(_) => false,
    }
}

const BARRIER_LOOP: &[Row] = &[Row {
    name: "barrier_loop",
    text: b"words 4; locks 0; while i < 3 { x = [1 - me + 2 * (i % 2)]; [me + 2 * (1 - i % 2)] = x + 1; barrier; i = i + 1; } print x;",
    nodes: 2,
    outcomes: &[b"node 0 prints 2 / node 0 ended / node 1 prints 2 / node 1 ended"],
}];

#[test]
fn barrier_loop(rt: HostRuntime) {
    passes(&rt, first_wrong(rt.alloc(), BARRIER_LOOP));
}

const BARRIERS_WITHOUT_END: &[Row] = &[
    Row {
        name: "barriers_without_end of 2 nodes",
        text: b"words 2; locks 0; while 1 { x = [me]; [me] = 1 - x; barrier; }",
        nodes: 2,
        outcomes: &[],
    },
    Row {
        name: "barriers_without_end of 3 nodes",
        text: b"words 3; locks 0; while 1 { x = [me]; [me] = 1 - x; barrier; }",
        nodes: 3,
        outcomes: &[],
    },
    Row {
        name: "barriers_without_end under a lock",
        text: b"words 1; locks 1; while 1 { acquire 0; x = [0]; [0] = 1 - x; release 0; barrier; }",
        nodes: 3,
        outcomes: &[],
    },
    Row {
        name: "barriers_without_end with a race",
        text: b"words 1; locks 0; while 1 { x = [0]; [0] = 1 - x; barrier; }",
        nodes: 3,
        outcomes: &[],
    },
    Row {
        name: "barriers_without_end between neighbours",
        text: b"words 2; locks 0; while 1 { x = [1 - me]; barrier; [me] = 1 - x; barrier; }",
        nodes: 2,
        outcomes: &[],
    },
];

#[test]
fn barriers_without_end(rt: HostRuntime) {
    passes(&rt, first_wrong(rt.alloc(), BARRIERS_WITHOUT_END));
}

const COUNTER: &[Row] = &[Row {
    name: "counter",
    text: b"words 1; locks 1; acquire 0; x = [0]; [0] = x + 1; release 0; print x;",
    nodes: 3,
    outcomes: &[
        b"node 0 prints 0 / node 0 ended / node 1 prints 1 / node 1 ended / node 2 prints 2 / node 2 ended",
        b"node 0 prints 0 / node 0 ended / node 1 prints 2 / node 1 ended / node 2 prints 1 / node 2 ended",
        b"node 0 prints 1 / node 0 ended / node 1 prints 0 / node 1 ended / node 2 prints 2 / node 2 ended",
        b"node 0 prints 1 / node 0 ended / node 1 prints 2 / node 1 ended / node 2 prints 0 / node 2 ended",
        b"node 0 prints 2 / node 0 ended / node 1 prints 0 / node 1 ended / node 2 prints 1 / node 2 ended",
        b"node 0 prints 2 / node 0 ended / node 1 prints 1 / node 1 ended / node 2 prints 0 / node 2 ended",
    ],
}];

#[test]
fn counter(rt: HostRuntime) {
    passes(&rt, first_wrong(rt.alloc(), COUNTER));
}

const COUNTS_ALONE: &[Row] = &[Row {
    name: "counts_alone",
    text: b"words 2; locks 0; go = 1; while go { x = [me]; if x == 30 { go = 0; } [me] = x + 1; } print x;",
    nodes: 2,
    outcomes: &[b"node 0 prints 30 / node 0 ended / node 1 prints 30 / node 1 ended"],
}];

#[test]
fn counts_alone(rt: HostRuntime) {
    passes(&rt, first_wrong(rt.alloc(), COUNTS_ALONE));
}

const DEADLOCK: &[Row] = &[Row {
    name: "deadlock",
    text: b"words 2; locks 2; acquire me; acquire 1 - me; x = [0]; [0] = x + 1; release 1 - me; release me; print x;",
    nodes: 2,
    outcomes: &[
        b"node 0 prints 0 / node 0 ended / node 1 prints 1 / node 1 ended",
        b"node 0 prints 1 / node 0 ended / node 1 prints 0 / node 1 ended",
        b"node 0 unfinished / node 1 unfinished",
    ],
}];

#[test]
fn deadlock(rt: HostRuntime) {
    passes(&rt, first_wrong(rt.alloc(), DEADLOCK));
}

const DEKKER: &[Row] = &[Row {
    name: "dekker",
    text: b"words 3; locks 0; [me] = 1; f = [1 - me]; if f == 0 { x = [2]; [2] = x + 1; print x; }",
    nodes: 2,
    outcomes: &[b"node 0 prints 0 / node 0 ended / node 1 prints 0 / node 1 ended"],
}];

#[test]
fn dekker(rt: HostRuntime) {
    passes(&rt, first_wrong(rt.alloc(), DEKKER));
}

const GOES_ON_FOR_EVER: &[Row] = &[
    Row {
        name: "goes_on_for_ever and prints",
        text: b"words 1; locks 0; while 1 { print 1; }",
        nodes: 2,
        outcomes: &[],
    },
    Row {
        name: "goes_on_for_ever and prints what it reads",
        text: b"words 1; locks 1; if me == 0 { acquire 0; [0] = 7; release 0; } if me == 1 { while 1 { x = [0]; print x; } }",
        nodes: 2,
        outcomes: &[],
    },
    Row {
        name: "goes_on_for_ever after a long turn",
        text: b"words 1; locks 0; while 1 { i = (i + 1) % 1000; [0] = 1; }",
        nodes: 2,
        outcomes: &[],
    },
    Row {
        name: "goes_on_for_ever where it learned of a write",
        text: b"words 1; locks 1; acquire 0; x = [0]; if me == 0 { [0] = 1; } release 0; while x { print x; } print x;",
        nodes: 2,
        outcomes: &[b"node 0 prints 0 / node 0 ended / node 1 prints 0 / node 1 ended"],
    },
];

#[test]
fn goes_on_for_ever(rt: HostRuntime) {
    passes(&rt, first_wrong(rt.alloc(), GOES_ON_FOR_EVER));
}

const IRIW_LOCKS: &[Row] = &[Row {
    name: "iriw_locks",
    text: b"words 2; locks 2; if me < 2 { acquire me; [me] = 1; release me; } else { acquire me - 2; x = [me - 2]; release me - 2; acquire 3 - me; y = [3 - me]; release 3 - me; print x; print y; }",
    nodes: 4,
    outcomes: &[
        b"node 0 ended / node 1 ended / node 2 prints 0 / node 2 prints 0 / node 2 ended / node 3 prints 0 / node 3 prints 0 / node 3 ended",
        b"node 0 ended / node 1 ended / node 2 prints 0 / node 2 prints 0 / node 2 ended / node 3 prints 0 / node 3 prints 1 / node 3 ended",
        b"node 0 ended / node 1 ended / node 2 prints 0 / node 2 prints 0 / node 2 ended / node 3 prints 1 / node 3 prints 0 / node 3 ended",
        b"node 0 ended / node 1 ended / node 2 prints 0 / node 2 prints 0 / node 2 ended / node 3 prints 1 / node 3 prints 1 / node 3 ended",
        b"node 0 ended / node 1 ended / node 2 prints 0 / node 2 prints 1 / node 2 ended / node 3 prints 0 / node 3 prints 0 / node 3 ended",
        b"node 0 ended / node 1 ended / node 2 prints 0 / node 2 prints 1 / node 2 ended / node 3 prints 0 / node 3 prints 1 / node 3 ended",
        b"node 0 ended / node 1 ended / node 2 prints 0 / node 2 prints 1 / node 2 ended / node 3 prints 1 / node 3 prints 0 / node 3 ended",
        b"node 0 ended / node 1 ended / node 2 prints 0 / node 2 prints 1 / node 2 ended / node 3 prints 1 / node 3 prints 1 / node 3 ended",
        b"node 0 ended / node 1 ended / node 2 prints 1 / node 2 prints 0 / node 2 ended / node 3 prints 0 / node 3 prints 0 / node 3 ended",
        b"node 0 ended / node 1 ended / node 2 prints 1 / node 2 prints 0 / node 2 ended / node 3 prints 0 / node 3 prints 1 / node 3 ended",
        b"node 0 ended / node 1 ended / node 2 prints 1 / node 2 prints 0 / node 2 ended / node 3 prints 1 / node 3 prints 1 / node 3 ended",
        b"node 0 ended / node 1 ended / node 2 prints 1 / node 2 prints 1 / node 2 ended / node 3 prints 0 / node 3 prints 0 / node 3 ended",
        b"node 0 ended / node 1 ended / node 2 prints 1 / node 2 prints 1 / node 2 ended / node 3 prints 0 / node 3 prints 1 / node 3 ended",
        b"node 0 ended / node 1 ended / node 2 prints 1 / node 2 prints 1 / node 2 ended / node 3 prints 1 / node 3 prints 0 / node 3 ended",
        b"node 0 ended / node 1 ended / node 2 prints 1 / node 2 prints 1 / node 2 ended / node 3 prints 1 / node 3 prints 1 / node 3 ended",
    ],
}];

#[test]
fn iriw_locks(rt: HostRuntime) {
    passes(&rt, first_wrong(rt.alloc(), IRIW_LOCKS));
}

const IRIW_ONE_SIDE: &[Row] = &[Row {
    name: "iriw_one_side",
    text: b"words 2; locks 2; if me < 2 { acquire me; [me] = 1; release me; } else { x = [me - 2]; y = [3 - me]; print x; print y; }",
    nodes: 4,
    outcomes: &[
        b"node 0 ended / node 1 ended / node 2 prints 0 / node 2 prints 0 / node 2 ended / node 3 prints 0 / node 3 prints 0 / node 3 ended",
    ],
}];

#[test]
fn iriw_one_side(rt: HostRuntime) {
    passes(&rt, first_wrong(rt.alloc(), IRIW_ONE_SIDE));
}

const IRIW: &[Row] = &[Row {
    name: "iriw",
    text: b"words 2; locks 0; if me < 2 { [me] = 1; } else { x = [me - 2]; y = [3 - me]; print x; print y; }",
    nodes: 4,
    outcomes: &[
        b"node 0 ended / node 1 ended / node 2 prints 0 / node 2 prints 0 / node 2 ended / node 3 prints 0 / node 3 prints 0 / node 3 ended",
    ],
}];

#[test]
fn iriw(rt: HostRuntime) {
    passes(&rt, first_wrong(rt.alloc(), IRIW));
}

const LOCK_ORDER: &[Row] = &[Row {
    name: "lock_order",
    text: b"words 1; locks 1; if me < 2 { [0] = me + 1; acquire 0; release 0; } if me == 2 { acquire 0; release 0; x = [0]; print x; }",
    nodes: 3,
    outcomes: &[
        b"node 0 ended / node 1 ended / node 2 prints 0 / node 2 ended",
        b"node 0 ended / node 1 ended / node 2 prints 1 / node 2 ended",
        b"node 0 ended / node 1 ended / node 2 prints 2 / node 2 ended",
    ],
}];

#[test]
fn lock_order(rt: HostRuntime) {
    passes(&rt, first_wrong(rt.alloc(), LOCK_ORDER));
}

const LOST_UPDATE_LOCK: &[Row] = &[Row {
    name: "lost_update_lock",
    text: b"words 1; locks 1; acquire 0; x = [0]; [0] = x + 1; release 0; barrier; y = [0]; print y;",
    nodes: 2,
    outcomes: &[b"node 0 prints 2 / node 0 ended / node 1 prints 2 / node 1 ended"],
}];

#[test]
fn lost_update_lock(rt: HostRuntime) {
    passes(&rt, first_wrong(rt.alloc(), LOST_UPDATE_LOCK));
}

const LOST_UPDATE: &[Row] = &[Row {
    name: "lost_update",
    text: b"words 1; locks 0; x = [0]; [0] = x + 1; barrier; y = [0]; print y;",
    nodes: 2,
    outcomes: &[
        b"node 0 prints 0 / node 0 ended / node 1 prints 0 / node 1 ended",
        b"node 0 prints 0 / node 0 ended / node 1 prints 1 / node 1 ended",
        b"node 0 prints 1 / node 0 ended / node 1 prints 0 / node 1 ended",
        b"node 0 prints 1 / node 0 ended / node 1 prints 1 / node 1 ended",
    ],
}];

#[test]
fn lost_update(rt: HostRuntime) {
    passes(&rt, first_wrong(rt.alloc(), LOST_UPDATE));
}

const MANY_VALUES: &[Row] = &[Row {
    name: "many_values",
    text: b"words 1024; locks 0; while i < 300 { [me * 300 + i] = i + me; i = i + 1; } barrier; x = [299]; y = [599]; print x; print y;",
    nodes: 3,
    outcomes: &[
        b"node 0 prints 299 / node 0 prints 300 / node 0 ended / node 1 prints 299 / node 1 prints 300 / node 1 ended / node 2 prints 299 / node 2 prints 300 / node 2 ended",
    ],
}];

#[test]
fn many_values(rt: HostRuntime) {
    passes(&rt, first_wrong(rt.alloc(), MANY_VALUES));
}

const MESSAGE_LATE: &[Row] = &[Row {
    name: "message_late",
    text: b"words 2; locks 1; if me == 0 { acquire 0; [1] = 1; release 0; [0] = 7; } else { acquire 0; f = [1]; release 0; x = [0]; print f; print x; }",
    nodes: 2,
    outcomes: &[
        b"node 0 ended / node 1 prints 0 / node 1 prints 0 / node 1 ended",
        b"node 0 ended / node 1 prints 1 / node 1 prints 0 / node 1 ended",
    ],
}];

#[test]
fn message_late(rt: HostRuntime) {
    passes(&rt, first_wrong(rt.alloc(), MESSAGE_LATE));
}

const MESSAGE_LOCK: &[Row] = &[Row {
    name: "message_lock",
    text: b"words 2; locks 1; if me == 0 { [0] = 7; acquire 0; [1] = 1; release 0; } else { acquire 0; f = [1]; release 0; if f == 1 { x = [0]; print x; } }",
    nodes: 2,
    outcomes: &[
        b"node 0 ended / node 1 ended",
        b"node 0 ended / node 1 prints 7 / node 1 ended",
    ],
}];

#[test]
fn message_lock(rt: HostRuntime) {
    passes(&rt, first_wrong(rt.alloc(), MESSAGE_LOCK));
}

const MESSAGE: &[Row] = &[Row {
    name: "message",
    text: b"words 2; locks 0; if me == 0 { [0] = 7; [1] = 1; } else { f = [1]; x = [0]; print f; print x; }",
    nodes: 2,
    outcomes: &[b"node 0 ended / node 1 prints 0 / node 1 prints 0 / node 1 ended"],
}];

#[test]
fn message(rt: HostRuntime) {
    passes(&rt, first_wrong(rt.alloc(), MESSAGE));
}

const NO_RUN_ENDS: &[Row] = &[Row {
    name: "no_run_ends",
    text: b"words 1; locks 1; while f == 0 { acquire 0; f = [0]; release 0; } print f;",
    nodes: 2,
    outcomes: &[],
}];

#[test]
fn no_run_ends(rt: HostRuntime) {
    passes(&rt, first_wrong(rt.alloc(), NO_RUN_ENDS));
}

const OLDER_RELEASE: &[Row] = &[Row {
    name: "older_release",
    text: b"words 1; locks 1; if me == 0 { [0] = 4; acquire 0; release 0; } else { acquire 0; release 0; x = [0]; print x; }",
    nodes: 2,
    outcomes: &[
        b"node 0 ended / node 1 prints 0 / node 1 ended",
        b"node 0 ended / node 1 prints 4 / node 1 ended",
    ],
}];

#[test]
fn older_release(rt: HostRuntime) {
    passes(&rt, first_wrong(rt.alloc(), OLDER_RELEASE));
}

const ONE_RUN_ENDS: &[Row] = &[Row {
    name: "one_run_ends",
    text: b"words 1; locks 0; [0] = me + 1; barrier; x = [0]; while x == 0 { }",
    nodes: 2,
    outcomes: &[b"node 0 ended / node 1 ended"],
}];

#[test]
fn one_run_ends(rt: HostRuntime) {
    passes(&rt, first_wrong(rt.alloc(), ONE_RUN_ENDS));
}

const OTHER_WORDS: &[Row] = &[Row {
    name: "other_words",
    text: b"words 2; locks 1; if me == 2 { [1] = 9; } if me < 2 { acquire 0; x = [0]; [0] = x + 1; release 0; y = [1]; print x; print y; }",
    nodes: 3,
    outcomes: &[
        b"node 0 prints 0 / node 0 prints 0 / node 0 ended / node 1 prints 1 / node 1 prints 0 / node 1 ended / node 2 ended",
        b"node 0 prints 1 / node 0 prints 0 / node 0 ended / node 1 prints 0 / node 1 prints 0 / node 1 ended / node 2 ended",
    ],
}];

#[test]
fn other_words(rt: HostRuntime) {
    passes(&rt, first_wrong(rt.alloc(), OTHER_WORDS));
}

const OVERWRITTEN_UNORDERED: &[Row] = &[Row {
    name: "overwritten_unordered",
    text: b"words 1; locks 0; if me == 0 { [0] = 1; [0] = 2; } else { [0] = 3; } barrier; if me == 0 { x = [0]; print x; }",
    nodes: 2,
    outcomes: &[
        b"node 0 prints 0 / node 0 ended / node 1 ended",
        b"node 0 prints 1 / node 0 ended / node 1 ended",
        b"node 0 prints 2 / node 0 ended / node 1 ended",
        b"node 0 prints 3 / node 0 ended / node 1 ended",
    ],
}];

#[test]
fn overwritten_unordered(rt: HostRuntime) {
    passes(&rt, first_wrong(rt.alloc(), OVERWRITTEN_UNORDERED));
}

const OVERWRITTEN: &[Row] = &[Row {
    name: "overwritten",
    text: b"words 1; locks 0; if me == 0 { [0] = 1; [0] = 2; } barrier; if me == 1 { [0] = 3; } barrier; x = [0]; print x;",
    nodes: 2,
    outcomes: &[b"node 0 prints 3 / node 0 ended / node 1 prints 3 / node 1 ended"],
}];

#[test]
fn overwritten(rt: HostRuntime) {
    passes(&rt, first_wrong(rt.alloc(), OVERWRITTEN));
}

const PETERSON: &[Row] = &[Row {
    name: "peterson",
    text: b"words 4; locks 0; [me] = 1; [2] = 1 - me; f = 1; t = 1 - me; while f + (t == 1 - me) == 2 { f = [1 - me]; t = [2]; } x = [3]; [3] = x + 1; [me] = 0; print x;",
    nodes: 2,
    outcomes: &[b"node 0 prints 0 / node 0 ended / node 1 prints 0 / node 1 ended"],
}];

#[test]
fn peterson(rt: HostRuntime) {
    passes(&rt, first_wrong(rt.alloc(), PETERSON));
}

const RELEASE_IN_BETWEEN: &[Row] = &[Row {
    name: "release_in_between",
    text: b"words 1; locks 1; if me == 0 { acquire 0; release 0; [0] = 1; acquire 0; release 0; } else { acquire 0; release 0; x = [0]; print x; }",
    nodes: 2,
    outcomes: &[
        b"node 0 ended / node 1 prints 0 / node 1 ended",
        b"node 0 ended / node 1 prints 1 / node 1 ended",
    ],
}];

#[test]
fn release_in_between(rt: HostRuntime) {
    passes(&rt, first_wrong(rt.alloc(), RELEASE_IN_BETWEEN));
}

const SPIN_BARE: &[Row] = &[Row {
    name: "spin_bare",
    text: b"words 1; locks 0; if me == 0 { [0] = 1; } else { while f == 0 { f = [0]; } print f; }",
    nodes: 2,
    outcomes: &[],
}];

#[test]
fn spin_bare(rt: HostRuntime) {
    passes(&rt, first_wrong(rt.alloc(), SPIN_BARE));
}

const SPIN_LOCK: &[Row] = &[Row {
    name: "spin_lock",
    text: b"words 1; locks 1; if me == 0 { acquire 0; [0] = 1; release 0; } else { while f == 0 { acquire 0; f = [0]; release 0; } print f; }",
    nodes: 2,
    outcomes: &[b"node 0 ended / node 1 prints 1 / node 1 ended"],
}];

#[test]
fn spin_lock(rt: HostRuntime) {
    passes(&rt, first_wrong(rt.alloc(), SPIN_LOCK));
}

const SPIN_VALUES: &[Row] = &[Row {
    name: "spin_values",
    text: b"words 1; locks 0; [0] = me + 1; barrier; while x != 2 { x = [0]; } print me;",
    nodes: 2,
    outcomes: &[b"node 0 prints 0 / node 0 ended / node 1 prints 1 / node 1 ended"],
}];

#[test]
fn spin_values(rt: HostRuntime) {
    passes(&rt, first_wrong(rt.alloc(), SPIN_VALUES));
}

const SPIN_WRITES: &[Row] = &[Row {
    name: "spin_writes",
    text: b"words 1; locks 0; if me == 0 { while 1 { [0] = 1; x = [0]; } } print x;",
    nodes: 2,
    outcomes: &[],
}];

#[test]
fn spin_writes(rt: HostRuntime) {
    passes(&rt, first_wrong(rt.alloc(), SPIN_WRITES));
}

const STORE_BUFFER: &[Row] = &[Row {
    name: "store_buffer",
    text: b"words 2; locks 0; [me] = 1; x = [1 - me]; print x;",
    nodes: 2,
    outcomes: &[b"node 0 prints 0 / node 0 ended / node 1 prints 0 / node 1 ended"],
}];

#[test]
fn store_buffer(rt: HostRuntime) {
    passes(&rt, first_wrong(rt.alloc(), STORE_BUFFER));
}

const STUCK_BARRIER: &[Row] = &[Row {
    name: "stuck_barrier",
    text: b"words 1; locks 0; [0] = me + 1; barrier; x = [0]; if x > 0 { barrier; } print x;",
    nodes: 2,
    outcomes: &[
        b"node 0 prints 0 / node 0 ended / node 1 prints 0 / node 1 ended",
        b"node 0 prints 0 / node 0 ended / node 1 unfinished",
        b"node 0 prints 1 / node 0 ended / node 1 prints 1 / node 1 ended",
        b"node 0 prints 1 / node 0 ended / node 1 prints 2 / node 1 ended",
        b"node 0 prints 2 / node 0 ended / node 1 prints 1 / node 1 ended",
        b"node 0 prints 2 / node 0 ended / node 1 prints 2 / node 1 ended",
        b"node 0 unfinished / node 1 prints 0 / node 1 ended",
    ],
}];

#[test]
fn stuck_barrier(rt: HostRuntime) {
    passes(&rt, first_wrong(rt.alloc(), STUCK_BARRIER));
}

const THIRD_NODE: &[Row] = &[Row {
    name: "third_node",
    text: b"words 1; locks 2; if me == 0 { [0] = 6; acquire 0; release 0; } if me == 1 { acquire 0; release 0; acquire 1; release 1; } if me == 2 { acquire 1; release 1; x = [0]; print x; }",
    nodes: 3,
    outcomes: &[
        b"node 0 ended / node 1 ended / node 2 prints 0 / node 2 ended",
        b"node 0 ended / node 1 ended / node 2 prints 6 / node 2 ended",
    ],
}];

#[test]
fn third_node(rt: HostRuntime) {
    passes(&rt, first_wrong(rt.alloc(), THIRD_NODE));
}

const TRAP_HOLDS: &[Row] = &[Row {
    name: "trap_holds",
    text: b"words 1; locks 1; acquire 0; x = [1 + me]; release 0;",
    nodes: 2,
    outcomes: &[
        b"node 0 trapped 2 / node 1 unfinished",
        b"node 0 unfinished / node 1 trapped 2",
    ],
}];

#[test]
fn trap_holds(rt: HostRuntime) {
    passes(&rt, first_wrong(rt.alloc(), TRAP_HOLDS));
}

const TRAP: &[Row] = &[Row {
    name: "trap",
    text: b"words 2; locks 0; [me] = 1; x = [1 - me]; if x == 0 { y = 1 / x; }",
    nodes: 2,
    outcomes: &[b"node 0 trapped 1 / node 1 trapped 1"],
}];

#[test]
fn trap(rt: HostRuntime) {
    passes(&rt, first_wrong(rt.alloc(), TRAP));
}

const UNORDERED_ON_TOP: &[Row] = &[Row {
    name: "unordered_on_top",
    text: b"words 1; locks 0; [0] = me + 1; barrier; if me == 0 { [0] = 5; } barrier; if me == 1 { x = [0]; print x; }",
    nodes: 2,
    outcomes: &[
        b"node 0 ended / node 1 prints 0 / node 1 ended",
        b"node 0 ended / node 1 prints 1 / node 1 ended",
        b"node 0 ended / node 1 prints 2 / node 1 ended",
        b"node 0 ended / node 1 prints 5 / node 1 ended",
    ],
}];

#[test]
fn unordered_on_top(rt: HostRuntime) {
    passes(&rt, first_wrong(rt.alloc(), UNORDERED_ON_TOP));
}

const UNORDERED_SAME_VALUE: &[Row] = &[Row {
    name: "unordered_same_value",
    text: b"words 1; locks 0; [0] = 5; barrier; if me == 0 { x = [0]; print x; }",
    nodes: 2,
    outcomes: &[
        b"node 0 prints 0 / node 0 ended / node 1 ended",
        b"node 0 prints 5 / node 0 ended / node 1 ended",
    ],
}];

#[test]
fn unordered_same_value(rt: HostRuntime) {
    passes(&rt, first_wrong(rt.alloc(), UNORDERED_SAME_VALUE));
}

const UNORDERED_TWICE: &[Row] = &[Row {
    name: "unordered_twice",
    text: b"words 1; locks 0; [0] = me + 1; barrier; if me == 0 { x = [0]; y = [0]; print x; print y; }",
    nodes: 2,
    outcomes: &[
        b"node 0 prints 0 / node 0 prints 0 / node 0 ended / node 1 ended",
        b"node 0 prints 0 / node 0 prints 1 / node 0 ended / node 1 ended",
        b"node 0 prints 0 / node 0 prints 2 / node 0 ended / node 1 ended",
        b"node 0 prints 1 / node 0 prints 0 / node 0 ended / node 1 ended",
        b"node 0 prints 1 / node 0 prints 1 / node 0 ended / node 1 ended",
        b"node 0 prints 1 / node 0 prints 2 / node 0 ended / node 1 ended",
        b"node 0 prints 2 / node 0 prints 0 / node 0 ended / node 1 ended",
        b"node 0 prints 2 / node 0 prints 1 / node 0 ended / node 1 ended",
        b"node 0 prints 2 / node 0 prints 2 / node 0 ended / node 1 ended",
    ],
}];

#[test]
fn unordered_twice(rt: HostRuntime) {
    passes(&rt, first_wrong(rt.alloc(), UNORDERED_TWICE));
}

const UNORDERED_ZERO: &[Row] = &[Row {
    name: "unordered_zero",
    text: b"words 1; locks 0; [0] = 0; barrier; x = [0]; print x;",
    nodes: 2,
    outcomes: &[b"node 0 prints 0 / node 0 ended / node 1 prints 0 / node 1 ended"],
}];

#[test]
fn unordered_zero(rt: HostRuntime) {
    passes(&rt, first_wrong(rt.alloc(), UNORDERED_ZERO));
}

const UNORDERED: &[Row] = &[Row {
    name: "unordered",
    text: b"words 1; locks 0; [0] = me + 1; barrier; x = [0]; print x;",
    nodes: 2,
    outcomes: &[
        b"node 0 prints 0 / node 0 ended / node 1 prints 0 / node 1 ended",
        b"node 0 prints 0 / node 0 ended / node 1 prints 1 / node 1 ended",
        b"node 0 prints 0 / node 0 ended / node 1 prints 2 / node 1 ended",
        b"node 0 prints 1 / node 0 ended / node 1 prints 0 / node 1 ended",
        b"node 0 prints 1 / node 0 ended / node 1 prints 1 / node 1 ended",
        b"node 0 prints 1 / node 0 ended / node 1 prints 2 / node 1 ended",
        b"node 0 prints 2 / node 0 ended / node 1 prints 0 / node 1 ended",
        b"node 0 prints 2 / node 0 ended / node 1 prints 1 / node 1 ended",
        b"node 0 prints 2 / node 0 ended / node 1 prints 2 / node 1 ended",
    ],
}];

#[test]
fn unordered(rt: HostRuntime) {
    passes(&rt, first_wrong(rt.alloc(), UNORDERED));
}

const WORDS_APART: &[Row] = &[Row {
    name: "words_apart",
    text: b"words 28; locks 2; if me == 0 { acquire 0; [18] = 1; [27] = 1; release 0; [18] = 2; } else { [9] = 2; acquire 1; release 1; acquire 0; x = [27]; release 0; print x; }",
    nodes: 2,
    outcomes: &[
        b"node 0 ended / node 1 prints 0 / node 1 ended",
        b"node 0 ended / node 1 prints 1 / node 1 ended",
    ],
}];

#[test]
fn words_apart(rt: HostRuntime) {
    passes(&rt, first_wrong(rt.alloc(), WORDS_APART));
}

fn first_wrong(alloc: Global, rows: &[Row]) -> Option<&'static str> {
    for row in rows {
        if !is_right(alloc, row) {
            return Some(row.name);
        }
    }
    None
}
