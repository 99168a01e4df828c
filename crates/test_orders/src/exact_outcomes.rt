// Outcomes of exact runs: those of stored programs, as they are listed.

use crate::checks::passes;
use lrc_exact_judge::first::first_inexact;
use lrc_exact_judge::layout::Layout;
use lrc_exact_search::search::{ExactOutcomes, exact_outcomes};
use lrc_lang::parse;
use lrc_orders::outcomes::Outcome;
use lrc_orders::search::ExploreFault;
use lrc_trace::act::{Act, Deed};
use std::alloc::{AllocError, Global};

/// A program, how many nodes run it, how the memory is laid out, and the outcomes of its exact runs.
struct Row {
    name: &'static str,
    text: &'static [u8],
    nodes: u8,
    page_words: u32,
    collect: u32,
    outcomes: &'static [&'static [u8]],
}

/// What a note says, behind `node N `.
fn note_said(alloc: Global, said: &mut Vec<u8>, act: Act) -> Result<(), AllocError> {
    let text = match act.deed {
        Deed::Print(value) => format!(in alloc; "node {} prints {value}", act.node)?,
        Deed::Trap(cause) => format!(in alloc; "node {} trapped {}", act.node, cause as u8)?,
        _ => format!(in alloc; "node {} ended", act.node)?,
    };
    said.extend_from_slice(text.as_bytes())?;
    said.extend_from_slice(b" / ")?;
    Ok(())
}

/// What an outcome says of a node.
fn node_said(alloc: Global, said: &mut Vec<u8>, notes: &[Act], node: u8) -> Result<(), AllocError> {
    let mut over = false;
    for act in notes {
        if act.node == node {
            note_said(alloc, said, *act)?;
            over = over || !matches!(act.deed, Deed::Print(_));
        }
    }
    if !over {
        let text = format!(in alloc; "node {node} unfinished / ")?;
        said.extend_from_slice(text.as_bytes())?;
    }
    Ok(())
}

/// What an outcome says.
fn outcome_said(alloc: Global, outcome: &Outcome, nodes: u8) -> Result<Vec<u8>, AllocError> {
    let mut said = Vec::new(alloc);
    for node in 0..nodes {
        node_said(alloc, &mut said, &outcome.notes, node)?;
    }
    Ok(said)
}

/// Whether an outcome is one of those that are listed; a listed line ends without the last ` / `.
fn is_listed(alloc: Global, outcome: &Outcome, row: &Row) -> bool {
    match outcome_said(alloc, outcome, row.nodes) {
        Ok(said) => row.outcomes.iter().any(|line| line.len() + 3 == said.len()
            && said.starts_with(line)),
        Err(_) => false,
    }
}

/// The layout of a row.
fn layout_of(row: &Row) -> Option<Layout> {
    if row.nodes < 1 || row.nodes > 16 || row.page_words < 1 {
        return None;
    }
    Some(Layout {
        nodes: row.nodes,
        page_words: row.page_words,
        collect: row.collect,
    })
}

/// Whether the judge says of the acts of each run that they read exactly.
fn are_exact(alloc: Global, found: &ExactOutcomes, layout: Layout) -> bool {
    found
        .runs
        .iter()
        .all(|run| is_exact(alloc, &run.acts, layout))
}

/// Whether it says so of these acts.
fn is_exact(alloc: Global, acts: &[Act], layout: Layout) -> bool {
    acts.iter().all(|act| act.node < layout.nodes)
        && matches!(first_inexact(alloc, acts, layout), Ok(None))
}

/// Whether the outcomes of the exact runs are the listed ones.
fn is_right(alloc: Global, row: &Row) -> bool {
    let Ok(program) = parse(alloc, row.text) else {
        return false;
    };
    let Some(layout) = layout_of(row) else {
        return false;
    };
    match exact_outcomes(alloc, &program, layout, 2_000) {
        Ok(found) => {
            found.outcomes.len() == row.outcomes.len()
                && found
                    .outcomes
                    .as_slice()
                    .iter()
                    .all(|outcome| is_listed(alloc, outcome, row))
                && are_exact(alloc, &found, layout)
        }
        Err(_) => false,
    }
}

/// The name of the first row that is not right.
fn first_wrong(alloc: Global, rows: &[Row]) -> Option<&'static str> {
    for row in rows {
        if !is_right(alloc, row) {
            return Some(row.name);
        }
    }
    None
}

/// Whether the search gives up on a program of three nodes because it may meet no more than so many runs.
fn gives_up(alloc: Global, text: &[u8], nodes: u8, most: usize) -> bool {
    let Ok(program) = parse(alloc, text) else {
        return false;
    };
    if nodes < 1 || nodes > 16 {
        return false;
    }
    let layout = Layout {
        nodes,
        page_words: 64,
        collect: 0,
    };
    matches!(
        exact_outcomes(alloc, &program, layout, most),
        Err(ExploreFault::TooMany)
    )
}

const COUNTER: &[u8] = b"words 1; locks 1; acquire 0; x = [0]; [0] = x + 1; release 0; print x;";

const COUNTS_ALONE: &[u8] = b"words 1; locks 0; while 1 { x = [0]; [0] = x + 1; }";

#[test]
fn more_runs_than_may_be(rt: HostRuntime) {
    let wrong = if gives_up(rt.alloc(), COUNTER, 3, 5) {
        None
    } else {
        Some("counter")
    };
    passes(&rt, wrong);
}

#[test]
fn counts_alone(rt: HostRuntime) {
    let wrong = if gives_up(rt.alloc(), COUNTS_ALONE, 1, 1000) {
        None
    } else {
        Some("counts_alone")
    };
    passes(&rt, wrong);
}

const COLLECTIONS: &[Row] = &[
    Row {
        name: "absent_twice",
        text: b"words 1; locks 0; [0] = me; barrier; if me == 1 { [0] = 7; } barrier; if me == 2 { x = [0]; print x; [0] = 9; } barrier; y = [0]; print y;",
        nodes: 3,
        page_words: 64,
        collect: 1,
        outcomes: &[
            b"node 0 prints 9 / node 0 ended / node 1 prints 9 / node 1 ended / node 2 prints 7 / node 2 prints 9 / node 2 ended",
        ],
    },
    Row {
        name: "coherence_3_collect",
        text: b"words 1; locks 0; [0] = me + 1; barrier; x = [0]; y = [0]; print x; print y;",
        nodes: 3,
        page_words: 64,
        collect: 1,
        outcomes: &[
            b"node 0 prints 3 / node 0 prints 3 / node 0 ended / node 1 prints 3 / node 1 prints 3 / node 1 ended / node 2 prints 3 / node 2 prints 3 / node 2 ended",
        ],
    },
    Row {
        name: "coherence_collect_not_yet",
        text: b"words 1; locks 0; [0] = me + 1; barrier; x = [0]; y = [0]; print x; print y;",
        nodes: 2,
        page_words: 64,
        collect: 3,
        outcomes: &[
            b"node 0 prints 2 / node 0 prints 2 / node 0 ended / node 1 prints 1 / node 1 prints 1 / node 1 ended",
        ],
    },
    Row {
        name: "coherence_collect",
        text: b"words 1; locks 0; [0] = me + 1; barrier; x = [0]; y = [0]; print x; print y;",
        nodes: 2,
        page_words: 64,
        collect: 1,
        outcomes: &[
            b"node 0 prints 2 / node 0 prints 2 / node 0 ended / node 1 prints 2 / node 1 prints 2 / node 1 ended",
        ],
    },
    Row {
        name: "collect_by_one_not",
        text: b"words 1; locks 1; if me == 0 { acquire 0; release 0; acquire 0; release 0; } [0] = me + 1; barrier; x = [0]; print x;",
        nodes: 2,
        page_words: 64,
        collect: 6,
        outcomes: &[b"node 0 prints 2 / node 0 ended / node 1 prints 1 / node 1 ended"],
    },
    Row {
        name: "collect_by_one",
        text: b"words 1; locks 1; if me == 0 { acquire 0; release 0; acquire 0; release 0; } [0] = me + 1; barrier; x = [0]; print x;",
        nodes: 2,
        page_words: 64,
        collect: 5,
        outcomes: &[b"node 0 prints 2 / node 0 ended / node 1 prints 2 / node 1 ended"],
    },
    Row {
        name: "collect_in_a_loop",
        text: b"words 2; locks 0; while k < 4 { x = [0]; [0] = x + me + 1; barrier; k = k + 1; } x = [0]; print x;",
        nodes: 2,
        page_words: 64,
        collect: 4,
        outcomes: &[b"node 0 prints 7 / node 0 ended / node 1 prints 6 / node 1 ended"],
    },
    Row {
        name: "false_sharing_collect",
        text: b"words 64; locks 0; x = [me]; [me] = x + me + 1; barrier; y = [nodes - 1 - me]; print y;",
        nodes: 4,
        page_words: 64,
        collect: 1,
        outcomes: &[
            b"node 0 prints 4 / node 0 ended / node 1 prints 3 / node 1 ended / node 2 prints 2 / node 2 ended / node 3 prints 1 / node 3 ended",
        ],
    },
    Row {
        name: "keepers_0",
        text: b"words 128; locks 0; if me == 1 { [0] = 1; [64] = 1; } if me == 2 { [0] = 2; } barrier; if me == 0 { [64] = 5; } if me == 2 { [64] = 6; } barrier; x = [0]; y = [64]; print x; print y;",
        nodes: 3,
        page_words: 64,
        collect: 0,
        outcomes: &[
            b"node 0 prints 2 / node 0 prints 6 / node 0 ended / node 1 prints 2 / node 1 prints 6 / node 1 ended / node 2 prints 1 / node 2 prints 5 / node 2 ended",
        ],
    },
    Row {
        name: "keepers_1",
        text: b"words 128; locks 0; if me == 1 { [0] = 1; [64] = 1; } if me == 2 { [0] = 2; } barrier; if me == 0 { [64] = 5; } if me == 2 { [64] = 6; } barrier; x = [0]; y = [64]; print x; print y;",
        nodes: 3,
        page_words: 64,
        collect: 1,
        outcomes: &[
            b"node 0 prints 2 / node 0 prints 6 / node 0 ended / node 1 prints 2 / node 1 prints 6 / node 1 ended / node 2 prints 2 / node 2 prints 6 / node 2 ended",
        ],
    },
    Row {
        name: "keepers_3",
        text: b"words 128; locks 0; if me == 1 { [0] = 1; [64] = 1; } if me == 2 { [0] = 2; } barrier; if me == 0 { [64] = 5; } if me == 2 { [64] = 6; } barrier; x = [0]; y = [64]; print x; print y;",
        nodes: 3,
        page_words: 64,
        collect: 3,
        outcomes: &[
            b"node 0 prints 2 / node 0 prints 6 / node 0 ended / node 1 prints 2 / node 1 prints 6 / node 1 ended / node 2 prints 2 / node 2 prints 6 / node 2 ended",
        ],
    },
    Row {
        name: "keepers_4",
        text: b"words 128; locks 0; if me == 1 { [0] = 1; [64] = 1; } if me == 2 { [0] = 2; } barrier; if me == 0 { [64] = 5; } if me == 2 { [64] = 6; } barrier; x = [0]; y = [64]; print x; print y;",
        nodes: 3,
        page_words: 64,
        collect: 4,
        outcomes: &[
            b"node 0 prints 2 / node 0 prints 6 / node 0 ended / node 1 prints 2 / node 1 prints 6 / node 1 ended / node 2 prints 2 / node 2 prints 6 / node 2 ended",
        ],
    },
    Row {
        name: "keepers_6",
        text: b"words 128; locks 0; if me == 1 { [0] = 1; [64] = 1; } if me == 2 { [0] = 2; } barrier; if me == 0 { [64] = 5; } if me == 2 { [64] = 6; } barrier; x = [0]; y = [64]; print x; print y;",
        nodes: 3,
        page_words: 64,
        collect: 6,
        outcomes: &[
            b"node 0 prints 2 / node 0 prints 6 / node 0 ended / node 1 prints 2 / node 1 prints 6 / node 1 ended / node 2 prints 1 / node 2 prints 5 / node 2 ended",
        ],
    },
    Row {
        name: "keepers_7",
        text: b"words 128; locks 0; if me == 1 { [0] = 1; [64] = 1; } if me == 2 { [0] = 2; } barrier; if me == 0 { [64] = 5; } if me == 2 { [64] = 6; } barrier; x = [0]; y = [64]; print x; print y;",
        nodes: 3,
        page_words: 64,
        collect: 7,
        outcomes: &[
            b"node 0 prints 2 / node 0 prints 6 / node 0 ended / node 1 prints 2 / node 1 prints 6 / node 1 ended / node 2 prints 1 / node 2 prints 5 / node 2 ended",
        ],
    },
    Row {
        name: "silent_stale_collect",
        text: b"words 1; locks 0; if me == 0 { [0] = 9; [0] = 0; } if me == 1 { [0] = 3; } barrier; x = [0]; print x;",
        nodes: 2,
        page_words: 64,
        collect: 1,
        outcomes: &[b"node 0 prints 3 / node 0 ended / node 1 prints 3 / node 1 ended"],
    },
    Row {
        name: "silent_stale",
        text: b"words 1; locks 0; if me == 0 { [0] = 9; [0] = 0; } if me == 1 { [0] = 3; } barrier; x = [0]; print x;",
        nodes: 2,
        page_words: 64,
        collect: 0,
        outcomes: &[b"node 0 prints 3 / node 0 ended / node 1 prints 3 / node 1 ended"],
    },
];

#[test]
fn collections(rt: HostRuntime) {
    passes(&rt, first_wrong(rt.alloc(), COLLECTIONS));
}

const BARRIERS: &[Row] = &[
    Row {
        name: "barrier_loop",
        text: b"words 1; locks 0; while x < 5 { if me == 0 { [0] = x + 1; } barrier; x = [0]; } print x;",
        nodes: 2,
        page_words: 64,
        collect: 0,
        outcomes: &[b"node 0 prints 5 / node 0 ended / node 1 prints 5 / node 1 ended"],
    },
    Row {
        name: "barrier_missing",
        text: b"words 1; locks 1; acquire 0; x = [0]; [0] = x + 1; release 0; if x < 2 { barrier; } print x;",
        nodes: 3,
        page_words: 64,
        collect: 0,
        outcomes: &[
            b"node 0 prints 2 / node 0 ended / node 1 unfinished / node 2 unfinished",
            b"node 0 unfinished / node 1 prints 2 / node 1 ended / node 2 unfinished",
            b"node 0 unfinished / node 1 unfinished / node 2 prints 2 / node 2 ended",
        ],
    },
    Row {
        name: "coherence_256",
        text: b"words 1; locks 0; [0] = me + 1; barrier; x = [0]; y = [0]; print x; print y;",
        nodes: 2,
        page_words: 256,
        collect: 0,
        outcomes: &[
            b"node 0 prints 2 / node 0 prints 2 / node 0 ended / node 1 prints 1 / node 1 prints 1 / node 1 ended",
        ],
    },
    Row {
        name: "coherence_3",
        text: b"words 1; locks 0; [0] = me + 1; barrier; x = [0]; y = [0]; print x; print y;",
        nodes: 3,
        page_words: 64,
        collect: 0,
        outcomes: &[
            b"node 0 prints 3 / node 0 prints 3 / node 0 ended / node 1 prints 3 / node 1 prints 3 / node 1 ended / node 2 prints 2 / node 2 prints 2 / node 2 ended",
        ],
    },
    Row {
        name: "coherence",
        text: b"words 1; locks 0; [0] = me + 1; barrier; x = [0]; y = [0]; print x; print y;",
        nodes: 2,
        page_words: 64,
        collect: 0,
        outcomes: &[
            b"node 0 prints 2 / node 0 prints 2 / node 0 ended / node 1 prints 1 / node 1 prints 1 / node 1 ended",
        ],
    },
    Row {
        name: "false_sharing",
        text: b"words 64; locks 0; x = [me]; [me] = x + me + 1; barrier; y = [nodes - 1 - me]; print y;",
        nodes: 4,
        page_words: 64,
        collect: 0,
        outcomes: &[
            b"node 0 prints 4 / node 0 ended / node 1 prints 3 / node 1 ended / node 2 prints 2 / node 2 ended / node 3 prints 1 / node 3 ended",
        ],
    },
    Row {
        name: "lost_update",
        text: b"words 1; locks 0; x = [0]; [0] = x + 1; barrier; y = [0]; print y;",
        nodes: 3,
        page_words: 64,
        collect: 0,
        outcomes: &[
            b"node 0 prints 1 / node 0 ended / node 1 prints 1 / node 1 ended / node 2 prints 1 / node 2 ended",
        ],
    },
    Row {
        name: "silent_own_value",
        text: b"words 1; locks 1; acquire 0; [0] = 4; release 0; if me == 0 { [0] = 1; } barrier; x = [0]; print x;",
        nodes: 2,
        page_words: 64,
        collect: 0,
        outcomes: &[b"node 0 prints 1 / node 0 ended / node 1 prints 1 / node 1 ended"],
    },
    Row {
        name: "weights_knowledge",
        text: b"words 2; locks 1; if me == 0 { acquire 0; [1] = 1; release 0; acquire 0; release 0; } if me == 1 { acquire 0; x = [1]; release 0; [0] = 7; print x; } if me == 2 { [0] = 8; } barrier; if me == 3 { y = [0]; print y; }",
        nodes: 4,
        page_words: 64,
        collect: 0,
        outcomes: &[
            b"node 0 ended / node 1 prints 0 / node 1 ended / node 2 ended / node 3 prints 7 / node 3 ended",
            b"node 0 ended / node 1 prints 1 / node 1 ended / node 2 ended / node 3 prints 7 / node 3 ended",
        ],
    },
    Row {
        name: "weights_other",
        text: b"words 2; locks 2; if me == 0 { [0] = 1; } if me == 1 { acquire 1; release 1; [0] = 2; } barrier; if me == 2 { x = [0]; print x; }",
        nodes: 3,
        page_words: 64,
        collect: 0,
        outcomes: &[b"node 0 ended / node 1 ended / node 2 prints 2 / node 2 ended"],
    },
    Row {
        name: "weights",
        text: b"words 2; locks 2; if me == 0 { acquire 1; release 1; acquire 1; release 1; [0] = 1; } if me == 1 { [0] = 2; } barrier; if me == 2 { x = [0]; print x; }",
        nodes: 3,
        page_words: 64,
        collect: 0,
        outcomes: &[b"node 0 ended / node 1 ended / node 2 prints 1 / node 2 ended"],
    },
];

#[test]
fn barriers(rt: HostRuntime) {
    passes(&rt, first_wrong(rt.alloc(), BARRIERS));
}

const PAGES: &[Row] = &[
    Row {
        name: "page_256",
        text: b"words 65; locks 2; if me == 0 { acquire 0; release 0; acquire 0; release 0; [64] = 1; [0] = 1; acquire 0; release 0; } if me == 1 { [0] = 2; acquire 1; release 1; } if me == 2 { acquire 0; z = [64]; release 0; acquire 1; x = [0]; release 1; print z; print x; }",
        nodes: 3,
        page_words: 256,
        collect: 0,
        outcomes: &[
            b"node 0 ended / node 1 ended / node 2 prints 0 / node 2 prints 0 / node 2 ended",
            b"node 0 ended / node 1 ended / node 2 prints 0 / node 2 prints 2 / node 2 ended",
            b"node 0 ended / node 1 ended / node 2 prints 1 / node 2 prints 1 / node 2 ended",
            b"node 0 ended / node 1 ended / node 2 prints 1 / node 2 prints 2 / node 2 ended",
        ],
    },
    Row {
        name: "page_64",
        text: b"words 65; locks 2; if me == 0 { acquire 0; release 0; acquire 0; release 0; [64] = 1; [0] = 1; acquire 0; release 0; } if me == 1 { [0] = 2; acquire 1; release 1; } if me == 2 { acquire 0; z = [64]; release 0; acquire 1; x = [0]; release 1; print z; print x; }",
        nodes: 3,
        page_words: 64,
        collect: 0,
        outcomes: &[
            b"node 0 ended / node 1 ended / node 2 prints 0 / node 2 prints 0 / node 2 ended",
            b"node 0 ended / node 1 ended / node 2 prints 0 / node 2 prints 2 / node 2 ended",
            b"node 0 ended / node 1 ended / node 2 prints 1 / node 2 prints 1 / node 2 ended",
        ],
    },
    Row {
        name: "page_same_word",
        text: b"words 65; locks 2; if me == 0 { acquire 0; release 0; acquire 0; release 0; [64] = 1; [0] = 1; acquire 0; release 0; } if me == 1 { [0] = 2; acquire 1; release 1; } if me == 2 { acquire 0; z = [0]; release 0; acquire 1; x = [0]; release 1; print z; print x; }",
        nodes: 3,
        page_words: 64,
        collect: 0,
        outcomes: &[
            b"node 0 ended / node 1 ended / node 2 prints 0 / node 2 prints 0 / node 2 ended",
            b"node 0 ended / node 1 ended / node 2 prints 0 / node 2 prints 2 / node 2 ended",
            b"node 0 ended / node 1 ended / node 2 prints 1 / node 2 prints 1 / node 2 ended",
            b"node 0 ended / node 1 ended / node 2 prints 1 / node 2 prints 2 / node 2 ended",
        ],
    },
];

#[test]
fn pages(rt: HostRuntime) {
    passes(&rt, first_wrong(rt.alloc(), PAGES));
}

const SILENT_WRITES: &[Row] = &[
    Row {
        name: "silent_away_and_back",
        text: b"words 1; locks 1; if me == 0 { acquire 0; [0] = 9; [0] = 0; release 0; } if me == 1 { [0] = 3; acquire 0; x = [0]; release 0; print x; }",
        nodes: 2,
        page_words: 64,
        collect: 0,
        outcomes: &[b"node 0 ended / node 1 prints 3 / node 1 ended"],
    },
    Row {
        name: "silent",
        text: b"words 1; locks 1; if me == 0 { acquire 0; [0] = 5; release 0; } if me == 1 { acquire 0; [0] = 5; release 0; } if me == 2 { [0] = 6; acquire 0; x = [0]; release 0; print x; }",
        nodes: 3,
        page_words: 64,
        collect: 0,
        outcomes: &[
            b"node 0 ended / node 1 ended / node 2 prints 5 / node 2 ended",
            b"node 0 ended / node 1 ended / node 2 prints 6 / node 2 ended",
        ],
    },
];

#[test]
fn silent_writes(rt: HostRuntime) {
    passes(&rt, first_wrong(rt.alloc(), SILENT_WRITES));
}

const RACES: &[Row] = &[
    Row {
        name: "all_write_2",
        text: b"words 1; locks 0; [0] = me + 1; barrier; x = [0]; print x;",
        nodes: 2,
        page_words: 64,
        collect: 0,
        outcomes: &[b"node 0 prints 2 / node 0 ended / node 1 prints 1 / node 1 ended"],
    },
    Row {
        name: "all_write_2_collect",
        text: b"words 1; locks 0; [0] = me + 1; barrier; x = [0]; print x;",
        nodes: 2,
        page_words: 64,
        collect: 1,
        outcomes: &[b"node 0 prints 2 / node 0 ended / node 1 prints 2 / node 1 ended"],
    },
    Row {
        name: "all_write_3",
        text: b"words 1; locks 0; [0] = me + 1; barrier; x = [0]; print x;",
        nodes: 3,
        page_words: 64,
        collect: 0,
        outcomes: &[
            b"node 0 prints 3 / node 0 ended / node 1 prints 3 / node 1 ended / node 2 prints 2 / node 2 ended",
        ],
    },
    Row {
        name: "all_write_3_collect",
        text: b"words 1; locks 0; [0] = me + 1; barrier; x = [0]; print x;",
        nodes: 3,
        page_words: 64,
        collect: 1,
        outcomes: &[
            b"node 0 prints 3 / node 0 ended / node 1 prints 3 / node 1 ended / node 2 prints 3 / node 2 ended",
        ],
    },
    Row {
        name: "away_and_back",
        text: b"words 1; locks 0; if me == 0 { [0] = 9; [0] = 0; } if me == 1 { [0] = 3; } barrier; x = [0]; print x;",
        nodes: 2,
        page_words: 64,
        collect: 0,
        outcomes: &[b"node 0 prints 3 / node 0 ended / node 1 prints 3 / node 1 ended"],
    },
    Row {
        name: "away_and_back_collect",
        text: b"words 1; locks 0; if me == 0 { [0] = 9; [0] = 0; } if me == 1 { [0] = 3; } barrier; x = [0]; print x;",
        nodes: 2,
        page_words: 64,
        collect: 1,
        outcomes: &[b"node 0 prints 3 / node 0 ended / node 1 prints 3 / node 1 ended"],
    },
    Row {
        name: "load_buffering",
        text: b"words 2; locks 0; x = [me]; [1 - me] = 1; print x;",
        nodes: 2,
        page_words: 64,
        collect: 0,
        outcomes: &[b"node 0 prints 0 / node 0 ended / node 1 prints 0 / node 1 ended"],
    },
    Row {
        name: "message_by_flag",
        text: b"words 2; locks 0; if me == 0 { [0] = 1; [1] = 1; } if me == 1 { y = [1]; x = [0]; print y; print x; }",
        nodes: 2,
        page_words: 64,
        collect: 0,
        outcomes: &[b"node 0 ended / node 1 prints 0 / node 1 prints 0 / node 1 ended"],
    },
    Row {
        name: "spin_flag",
        text: b"words 1; locks 0; if me == 0 { [0] = 1; } else { while x == 0 { x = [0]; } print x; }",
        nodes: 2,
        page_words: 64,
        collect: 0,
        outcomes: &[],
    },
];

#[test]
fn races(rt: HostRuntime) {
    passes(&rt, first_wrong(rt.alloc(), RACES));
}

const LOCKS: &[Row] = &[
    Row {
        name: "bank_deadlock",
        text: b"words 2; locks 2; acquire me; acquire 1 - me; x = [me]; [1 - me] = x + 1; release 1 - me; release me; print x;",
        nodes: 2,
        page_words: 64,
        collect: 0,
        outcomes: &[
            b"node 0 prints 0 / node 0 ended / node 1 prints 1 / node 1 ended",
            b"node 0 prints 1 / node 0 ended / node 1 prints 0 / node 1 ended",
            b"node 0 unfinished / node 1 unfinished",
        ],
    },
    Row {
        name: "counter",
        text: b"words 1; locks 1; acquire 0; x = [0]; [0] = x + 1; release 0; print x;",
        nodes: 3,
        page_words: 64,
        collect: 0,
        outcomes: &[
            b"node 0 prints 0 / node 0 ended / node 1 prints 1 / node 1 ended / node 2 prints 2 / node 2 ended",
            b"node 0 prints 0 / node 0 ended / node 1 prints 2 / node 1 ended / node 2 prints 1 / node 2 ended",
            b"node 0 prints 1 / node 0 ended / node 1 prints 0 / node 1 ended / node 2 prints 2 / node 2 ended",
            b"node 0 prints 1 / node 0 ended / node 1 prints 2 / node 1 ended / node 2 prints 0 / node 2 ended",
            b"node 0 prints 2 / node 0 ended / node 1 prints 0 / node 1 ended / node 2 prints 1 / node 2 ended",
            b"node 0 prints 2 / node 0 ended / node 1 prints 1 / node 1 ended / node 2 prints 0 / node 2 ended",
        ],
    },
    Row {
        name: "iriw",
        text: b"words 2; locks 0; if me == 0 { [0] = 1; } if me == 1 { [1] = 1; } if me == 2 { x = [0]; y = [1]; print x; print y; } if me == 3 { y = [1]; x = [0]; print y; print x; }",
        nodes: 4,
        page_words: 64,
        collect: 0,
        outcomes: &[
            b"node 0 ended / node 1 ended / node 2 prints 0 / node 2 prints 0 / node 2 ended / node 3 prints 0 / node 3 prints 0 / node 3 ended",
        ],
    },
    Row {
        name: "no_words_used",
        text: b"words 1; locks 0; print me;",
        nodes: 2,
        page_words: 64,
        collect: 0,
        outcomes: &[b"node 0 prints 0 / node 0 ended / node 1 prints 1 / node 1 ended"],
    },
    Row {
        name: "open_interval",
        text: b"words 2; locks 1; if me == 0 { acquire 0; [0] = 1; [1] = 1; release 0; } if me == 1 { [0] = 7; acquire 0; x = [0]; y = [1]; release 0; print x; print y; }",
        nodes: 2,
        page_words: 64,
        collect: 0,
        outcomes: &[
            b"node 0 ended / node 1 prints 1 / node 1 prints 1 / node 1 ended",
            b"node 0 ended / node 1 prints 7 / node 1 prints 0 / node 1 ended",
        ],
    },
    Row {
        name: "orders_of_a_lock",
        text: b"words 1; locks 2; if me == 0 { [0] = 1; acquire 0; release 0; } if me == 1 { acquire 0; release 0; acquire 1; acquire 0; release 0; release 1; [0] = 2; acquire 0; release 0; } if me == 2 { acquire 0; x = [0]; release 0; acquire 0; y = [0]; release 0; print x; print y; }",
        nodes: 3,
        page_words: 64,
        collect: 0,
        outcomes: &[
            b"node 0 ended / node 1 ended / node 2 prints 0 / node 2 prints 0 / node 2 ended",
            b"node 0 ended / node 1 ended / node 2 prints 0 / node 2 prints 1 / node 2 ended",
            b"node 0 ended / node 1 ended / node 2 prints 0 / node 2 prints 2 / node 2 ended",
            b"node 0 ended / node 1 ended / node 2 prints 1 / node 2 prints 1 / node 2 ended",
            b"node 0 ended / node 1 ended / node 2 prints 1 / node 2 prints 2 / node 2 ended",
            b"node 0 ended / node 1 ended / node 2 prints 2 / node 2 prints 1 / node 2 ended",
            b"node 0 ended / node 1 ended / node 2 prints 2 / node 2 prints 2 / node 2 ended",
        ],
    },
    Row {
        name: "own_write_last",
        text: b"words 2; locks 2; if me == 0 { [0] = 1; acquire 0; release 0; } if me == 1 { acquire 1; release 1; acquire 1; release 1; [0] = 2; acquire 0; x = [0]; release 0; print x; }",
        nodes: 2,
        page_words: 64,
        collect: 0,
        outcomes: &[
            b"node 0 ended / node 1 prints 1 / node 1 ended",
            b"node 0 ended / node 1 prints 2 / node 1 ended",
        ],
    },
    Row {
        name: "released_knowledge",
        text: b"words 2; locks 2; if me == 0 { acquire 0; release 0; [0] = 1; acquire 1; release 1; } if me == 1 { acquire 1; release 1; x = [0]; acquire 0; release 0; y = [0]; print x; print y; } if me == 2 { acquire 0; z = [0]; release 0; print z; }",
        nodes: 3,
        page_words: 64,
        collect: 0,
        outcomes: &[
            b"node 0 ended / node 1 prints 0 / node 1 prints 0 / node 1 ended / node 2 prints 0 / node 2 ended",
            b"node 0 ended / node 1 prints 1 / node 1 prints 1 / node 1 ended / node 2 prints 0 / node 2 ended",
            b"node 0 ended / node 1 prints 1 / node 1 prints 1 / node 1 ended / node 2 prints 1 / node 2 ended",
        ],
    },
    Row {
        name: "steady_between",
        text: b"words 3; locks 1; if me == 0 { [0] = 1; acquire 0; release 0; [0] = 2; acquire 0; release 0; } if me == 1 { acquire 0; x = [0]; release 0; [1] = 1; y = [0]; acquire 0; z = [0]; release 0; print x; print y; print z; }",
        nodes: 2,
        page_words: 64,
        collect: 0,
        outcomes: &[
            b"node 0 ended / node 1 prints 0 / node 1 prints 0 / node 1 prints 0 / node 1 ended",
            b"node 0 ended / node 1 prints 0 / node 1 prints 0 / node 1 prints 1 / node 1 ended",
            b"node 0 ended / node 1 prints 0 / node 1 prints 0 / node 1 prints 2 / node 1 ended",
            b"node 0 ended / node 1 prints 1 / node 1 prints 1 / node 1 prints 1 / node 1 ended",
            b"node 0 ended / node 1 prints 1 / node 1 prints 1 / node 1 prints 2 / node 1 ended",
            b"node 0 ended / node 1 prints 2 / node 1 prints 2 / node 1 prints 2 / node 1 ended",
        ],
    },
    Row {
        name: "store_buffering",
        text: b"words 2; locks 0; [me] = 1; x = [1 - me]; print x;",
        nodes: 2,
        page_words: 64,
        collect: 0,
        outcomes: &[b"node 0 prints 0 / node 0 ended / node 1 prints 0 / node 1 ended"],
    },
    Row {
        name: "through_third",
        text: b"words 1; locks 2; if me == 0 { acquire 0; [0] = 3; release 0; } if me == 1 { acquire 0; release 0; acquire 1; release 1; } if me == 2 { acquire 1; x = [0]; release 1; print x; }",
        nodes: 3,
        page_words: 64,
        collect: 0,
        outcomes: &[
            b"node 0 ended / node 1 ended / node 2 prints 0 / node 2 ended",
            b"node 0 ended / node 1 ended / node 2 prints 3 / node 2 ended",
        ],
    },
    Row {
        name: "traps",
        text: b"words 1; locks 1; if me == 0 { acquire 0; [0] = 1; release 0; } if me == 1 { acquire 0; x = [0]; release 0; y = 6 / x; print y; } if me == 2 { release 0; }",
        nodes: 3,
        page_words: 64,
        collect: 0,
        outcomes: &[
            b"node 0 ended / node 1 prints 6 / node 1 ended / node 2 trapped 5",
            b"node 0 ended / node 1 trapped 1 / node 2 trapped 5",
        ],
    },
    Row {
        name: "two_locks",
        text: b"words 2; locks 2; acquire me; [0] = me + 1; release me; acquire 1 - me; x = [0]; release 1 - me; print x;",
        nodes: 2,
        page_words: 64,
        collect: 0,
        outcomes: &[
            b"node 0 prints 1 / node 0 ended / node 1 prints 2 / node 1 ended",
            b"node 0 prints 2 / node 0 ended / node 1 prints 1 / node 1 ended",
        ],
    },
    Row {
        name: "work_queue",
        text: b"words 4; locks 1; while go == 0 { acquire 0; h = [0]; if h < 3 { [0] = h + 1; } release 0; if h < 3 { [1 + h] = me + 1; } else { go = 1; } } barrier; a = [1]; b = [2]; c = [3]; print a * 100 + b * 10 + c;",
        nodes: 2,
        page_words: 64,
        collect: 0,
        outcomes: &[
            b"node 0 prints 111 / node 0 ended / node 1 prints 111 / node 1 ended",
            b"node 0 prints 112 / node 0 ended / node 1 prints 112 / node 1 ended",
            b"node 0 prints 121 / node 0 ended / node 1 prints 121 / node 1 ended",
            b"node 0 prints 122 / node 0 ended / node 1 prints 122 / node 1 ended",
            b"node 0 prints 211 / node 0 ended / node 1 prints 211 / node 1 ended",
            b"node 0 prints 212 / node 0 ended / node 1 prints 212 / node 1 ended",
            b"node 0 prints 221 / node 0 ended / node 1 prints 221 / node 1 ended",
            b"node 0 prints 222 / node 0 ended / node 1 prints 222 / node 1 ended",
        ],
    },
];

#[test]
fn locks(rt: HostRuntime) {
    passes(&rt, first_wrong(rt.alloc(), LOCKS));
}
