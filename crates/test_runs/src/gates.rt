// Runs in which a node's turn waits until other nodes have come so far.

use crate::checks::passes;
use crate::shell::options;
use lrc_envelope::Picker;
use lrc_lang::parse;
use lrc_log::{Entry, Input};
use lrc_node::End;
use lrc_program::Program;
use lrc_run::{Gate, run_gated};
use lrc_trace::act::{Act, Deed};
use lrc_world::report::Report;
use std::alloc::Global;
use std::sync::Wait;
use std::sync::atomic::{AtomicU64, Ordering};
use std::thread;
use std::thread::Threads;

/// How often a node looks whether another has come, before it gives up.
const MOST_LOOKS: u32 = 50_000_000;

/// A turn that is held until another node has come to so many turns.
#[derive(Clone, Copy)]
struct Hold {
    node: usize,
    turn: u32,
    other: usize,
    turns: u64,
}

/// For each node, how many turns it has come to; and how many turns were made before the others had come.
#[derive(Drop)]
struct Holding {
    come: [AtomicU64; 4],
    late: AtomicU64,
    /// Whether each turn of each node is held until all others have come to the same turn.
    together: bool,
    /// What else is held.
    holds: &'static [Hold],
}

impl Holding {
    fn new(together: bool, holds: &'static [Hold]) -> Holding {
        Holding {
            come: [
                AtomicU64::new(0),
                AtomicU64::new(0),
                AtomicU64::new(0),
                AtomicU64::new(0),
            ],
            late: AtomicU64::new(0),
            together,
            holds,
        }
    }

    /// How many turns a node has come to.
    fn turns_of(&self, node: usize) -> u64 {
        match self.come.get(node) {
            Some(come) => come.load(Ordering::SeqCst),
            None => 0,
        }
    }

    /// Waits until a node has come to so many turns.
    fn wait(&self, node: usize, turns: u64) {
        for _ in 0..MOST_LOOKS {
            if self.turns_of(node) >= turns {
                return;
            }
            thread::yield_now();
        }
        self.late.fetch_add(1, Ordering::SeqCst);
    }

    /// Waits until all nodes have come to this turn.
    fn wait_for_all(&self, turn: u32) {
        for other in 0..4usize {
            self.wait(other, u64::from(turn) + 1);
        }
    }

    /// Waits for what this turn of a node is held by.
    fn wait_at(&self, holds: &[Hold], node: usize, turn: u32) {
        for hold in holds {
            if hold.node == node && hold.turn == turn {
                self.wait(hold.other, hold.turns);
            }
        }
    }

    /// How many turns each node has come to.
    fn counts(&self) -> [u64; 4] {
        [
            self.turns_of(0),
            self.turns_of(1),
            self.turns_of(2),
            self.turns_of(3),
        ]
    }
}

impl Gate for Holding {
    fn pass(&self, node: usize, turn: u32) {
        if let Some(come) = self.come.get(node) {
            come.fetch_add(1, Ordering::SeqCst);
        }
        if self.together {
            self.wait_for_all(turn);
        }
        self.wait_at(self.holds, node, turn);
    }
}

/// A program for so many nodes that all come to its end, and what holds them.
struct Row {
    name: &'static str,
    nodes: u32,
    text: &'static [u8],
    order: Picker,
    together: bool,
    holds: &'static [Hold],
    /// How many turns each node comes to, where it is known.
    turns: Option<[u64; 4]>,
    /// What nodes 1 and 2 print last; 9 where they print nothing.
    prints: [u64; 2],
    /// How often each message is taken.
    takes: usize,
}

/// What a node printed last; 9 where it printed nothing.
fn printed_by(acts: &[Act], node: u8) -> u64 {
    let mut printed = 9;
    for act in acts {
        if act.node == node
            && let Deed::Print(value) = act.deed
        {
            printed = value;
        }
    }
    printed
}

/// How many messages were sent.
fn sent_in(logs: &[Vec<Entry>]) -> usize {
    let mut sent: usize = 0;
    for log in logs {
        for entry in log {
            sent = sent.saturating_add(entry.turn.out.len());
        }
    }
    sent
}

/// How many messages were taken.
fn taken_in(logs: &[Vec<Entry>]) -> usize {
    let mut taken: usize = 0;
    for log in logs {
        for entry in log {
            if matches!(entry.input, Input::Taken(_)) {
                taken = taken.saturating_add(1);
            }
        }
    }
    taken
}

/// How many nodes came to the end of the text.
fn ended_in(ends: &[End]) -> usize {
    ends.iter().filter(|end| **end == End::Ended).count()
}

/// Whether so many nodes came to the end, and those that print did so in the order of the row.
fn is_as_wanted(report: &Report, row: &Row) -> bool {
    ended_in(&report.ends) == row.nodes as usize
        && [printed_by(&report.acts, 1), printed_by(&report.acts, 2)] == row.prints
        && taken_in(&report.logs) == sent_in(&report.logs).saturating_mul(row.takes)
}

/// Whether no turn was made before the others had come, and the nodes came to their turns.
fn is_held(gate: &Holding, row: &Row) -> bool {
    gate.late.load(Ordering::SeqCst) == 0
        && match row.turns {
            Some(turns) => gate.counts() == turns,
            None => true,
        }
}

fn is_run<R: Threads + Wait + Sync>(
    rt: &R,
    alloc: Global,
    program: &Program,
    row: &Row,
    gate: &Holding,
) -> bool {
    let (nodes, order) = (row.nodes, row.order);
    match run_gated(rt, alloc, program, nodes, &options(0), order, gate) {
        Ok((report, _wires)) => is_as_wanted(&report, row),
        Err(_) => false,
    }
}

fn holds<R: Threads + Wait + Sync>(rt: &R, alloc: Global, program: &Program, row: &Row) -> bool {
    let gate = Holding::new(row.together, row.holds);
    is_run(rt, alloc, program, row, &gate) && is_held(&gate, row)
}

fn is_met<R: Threads + Wait + Sync>(rt: &R, alloc: Global, row: &Row) -> bool {
    match parse(alloc, row.text) {
        Ok(program) => holds(rt, alloc, &program, row),
        Err(_) => false,
    }
}

fn first_wrong<R: Threads + Wait + Sync>(rt: &R, alloc: Global) -> Option<&'static str> {
    for row in ROWS {
        if !is_met(rt, alloc, row) {
            return Some(row.name);
        }
    }
    None
}

/// Node 2 asks for lock 1 once node 1 is about to ask for lock 0, and node 1 answers after it did. Node 3 asks for lock 2 once node 2
/// looks for messages no more before it asks for lock 0, and node 2 answers after it did. Node 0 begins when node 3 has its answer: then
/// the requests of nodes 1 and 2 for lock 0 lie in its mailbox, that of node 1 first.
const TWO_REQUESTS: Row = Row {
    name: "the oldest request is served first",
    nodes: 4,
    text: b"words 1; locks 3;
if me == 2 { acquire 1; release 1; }
if me == 3 { acquire 2; release 2; }
if me % 3 > 0 { acquire 0; x = [0]; [0] = x * 10 + me; print x; release 0; }
",
    order: Picker::Oldest,
    together: false,
    holds: &[
        Hold {
            node: 2,
            turn: 1,
            other: 1,
            turns: 4,
        },
        Hold {
            node: 3,
            turn: 2,
            other: 2,
            turns: 7,
        },
        Hold {
            node: 0,
            turn: 0,
            other: 3,
            turns: 4,
        },
    ],
    turns: None,
    prints: [0, 1],
    takes: 1,
};

const ROWS: &[Row] = &[
    Row {
        name: "four nodes make each turn together",
        nodes: 4,
        text: b"words 1; locks 0; while x < 100 { x = x + 1; }",
        order: Picker::Oldest,
        together: true,
        holds: &[],
        turns: Some([202; 4]),
        prints: [9, 9],
        takes: 1,
    },
    Row {
        name: "two nodes depart together",
        nodes: 2,
        text: b"words 1; locks 0; barrier;",
        order: Picker::Oldest,
        // Turn 3 of node 0 is paired with turn 1 of node 1.
        together: false,
        holds: &[
            Hold {
                node: 0,
                turn: 3,
                other: 1,
                turns: 2,
            },
            Hold {
                node: 1,
                turn: 1,
                other: 0,
                turns: 4,
            },
        ],
        turns: Some([5, 3, 0, 0]),
        prints: [9, 9],
        takes: 1,
    },
    TWO_REQUESTS,
    Row {
        name: "the newest request is served first",
        order: Picker::Newest,
        prints: [2, 0],
        ..TWO_REQUESTS
    },
    Row {
        name: "each message is taken two times",
        order: Picker::Twice,
        takes: 2,
        ..TWO_REQUESTS
    },
];

#[test]
fn nodes_make_turns_together_and_the_order_says_which_request_is_served_first(rt: HostRuntime) {
    passes(&rt, first_wrong(&rt, rt.alloc()));
}
