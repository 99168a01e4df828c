// How many states a search may meet, and that it gives up past so many and no earlier.

use crate::checks::passes;
use lrc_explore::answers::{explore, outcomes};
use lrc_lang::parse;
use lrc_orders::search::ExploreFault;
use lrc_program::Program;
use std::alloc::Global;

/// Three writes of a word of its own: a node stands before each of them, and past the last. So it has four states.
const STEPS: &[u8] = b"words 4; locks 0; [me] = 1; [me] = 2; [me] = 3;";

/// Four writes: five states of each node.
const COUNTS: &[u8] = b"words 4; locks 0; [me] = 1; [me] = 2; [me] = 3; [me] = 4;";

/// A program for so many nodes, how many states a search may meet, and why both searches give up, if they do.
struct Row {
    name: &'static str,
    text: &'static [u8],
    nodes: u32,
    most: usize,
    fault: Option<ExploreFault>,
}

fn verdict_is(alloc: Global, program: &Program, row: &Row) -> bool {
    match explore(alloc, program, row.nodes, row.most) {
        Ok(_) => row.fault.is_none(),
        Err(fault) => row.fault == Some(fault),
    }
}

fn outcomes_are(alloc: Global, program: &Program, row: &Row) -> bool {
    match outcomes(alloc, program, row.nodes, row.most) {
        Ok(_) => row.fault.is_none(),
        Err(fault) => row.fault == Some(fault),
    }
}

fn is_met(alloc: Global, row: &Row) -> bool {
    match parse(alloc, row.text) {
        Ok(program) => verdict_is(alloc, &program, row) && outcomes_are(alloc, &program, row),
        Err(_) => false,
    }
}

fn first_wrong(alloc: Global, rows: &[Row]) -> Option<&'static str> {
    for row in rows {
        if !is_met(alloc, row) {
            return Some(row.name);
        }
    }
    None
}

const TOO_MANY: Row = Row {
    name: "one node that meets more than three states",
    text: STEPS,
    nodes: 1,
    most: 3,
    fault: Some(ExploreFault::TooMany),
};

const NO_NODE: Row = Row {
    name: "no node",
    nodes: 0,
    most: 0,
    fault: Some(ExploreFault::BadNodes),
    ..TOO_MANY
};

const ROWS: &[Row] = &[
    // The start, and the state after each of three writes.
    TOO_MANY,
    Row {
        name: "one node that meets four states",
        most: 4,
        fault: None,
        ..TOO_MANY
    },
    // Two nodes that meet nowhere: four times four.
    Row {
        name: "two nodes that meet more than fifteen states",
        nodes: 2,
        most: 15,
        ..TOO_MANY
    },
    Row {
        name: "two nodes that meet sixteen states",
        nodes: 2,
        most: 16,
        fault: None,
        ..TOO_MANY
    },
    // Five states of each of four nodes: 625.
    Row {
        name: "four nodes that meet more than 624 states",
        text: COUNTS,
        nodes: 4,
        most: 624,
        ..TOO_MANY
    },
    Row {
        name: "four nodes that meet 625 states",
        text: COUNTS,
        nodes: 4,
        most: 625,
        fault: None,
        ..TOO_MANY
    },
    // The number of nodes is refused first.
    NO_NODE,
    Row {
        name: "seventeen nodes",
        nodes: 17,
        ..NO_NODE
    },
    Row {
        name: "the most nodes of 32 bits",
        nodes: u32::MAX,
        ..NO_NODE
    },
];

#[test]
fn a_search_gives_up_past_the_most_alone(rt: HostRuntime) {
    passes(&rt, first_wrong(rt.alloc(), ROWS));
}
