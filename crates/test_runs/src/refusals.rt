// Numbers that are out of range, and runs whose nodes use up their message numbers.

use crate::checks::passes;
use crate::shell::{ORDERS, ran};
use lrc_envelope::Picker;
use lrc_lang::parse;
use lrc_node::Options;
use lrc_page::Size;
use lrc_program::Program;
use lrc_run::RunFault;
use std::alloc::Global;
use std::sync::Wait;
use std::thread::Threads;

/// A program for so many nodes with so many steps, where each node's first message to another has this number; and why it has no run,
/// if it has none.
struct Row {
    name: &'static str,
    text: &'static [u8],
    nodes: u32,
    steps: u32,
    first: u32,
    fault: Option<RunFault>,
}

fn has_fault<R: Threads + Wait + Sync>(
    rt: &R,
    alloc: Global,
    program: &Program,
    row: &Row,
    order: Picker,
) -> bool {
    let options = Options {
        steps: row.steps,
        collect: 0,
        first: row.first,
        size: Size::Words64,
    };
    match ran(rt, alloc, program, row.nodes, &options, order) {
        Ok(_) => row.fault.is_none(),
        Err(fault) => row.fault == Some(fault),
    }
}

fn has_fault_in_every_order<R: Threads + Wait + Sync>(
    rt: &R,
    alloc: Global,
    program: &Program,
    row: &Row,
) -> bool {
    for order in ORDERS {
        if !has_fault(rt, alloc, program, row, *order) {
            return false;
        }
    }
    true
}

fn is_met<R: Threads + Wait + Sync>(rt: &R, alloc: Global, row: &Row) -> bool {
    match parse(alloc, row.text) {
        Ok(program) => has_fault_in_every_order(rt, alloc, &program, row),
        Err(_) => false,
    }
}

fn first_wrong<R: Threads + Wait + Sync>(rt: &R, alloc: Global) -> Option<&'static str> {
    for row in ROWS {
        if !is_met(rt, alloc, row) {
            return Some(row.name);
        }
    }
    None
}

const NO_NODE: Row = Row {
    name: "no node",
    text: b"words 1; locks 0; print me;",
    nodes: 0,
    steps: 1,
    first: 0,
    fault: Some(RunFault::BadNodes),
};

const SIXTEEN: Row = Row {
    name: "sixteen nodes with 1,000,000 steps",
    nodes: 16,
    steps: 1_000_000,
    fault: None,
    ..NO_NODE
};

const ARRIVALS: Row = Row {
    name: "node 0 wears out as it takes the last arrival",
    text: b"words 1; locks 0; if me == 0 { [0] = 7; } barrier; x = [0]; print x;",
    nodes: 2,
    steps: 1_000_000,
    first: u32::MAX,
    fault: Some(RunFault::Worn),
};

const SECOND_LOCK: Row = Row {
    name: "the other node wears out as it goes on to its second lock",
    text: b"words 1; locks 3; if me == 1 { acquire 0; release 0; acquire 2; release 2; }",
    ..ARRIVALS
};

const BOTH: Row = Row {
    name: "both wear out",
    text: b"words 1; locks 4; acquire 0; release 0; acquire 1; release 1; acquire 2; release 2; acquire 3; release 3;",
    ..ARRIVALS
};

// Numbers that are out of range or just within it, and message numbers that are used up or just not.
const ROWS: &[Row] = &[
    NO_NODE,
    Row {
        name: "seventeen nodes",
        nodes: 17,
        ..NO_NODE
    },
    Row {
        name: "no node with no step",
        steps: 0,
        ..NO_NODE
    },
    Row {
        name: "seventeen nodes with 1,000,001 steps",
        nodes: 17,
        steps: 1_000_001,
        ..NO_NODE
    },
    Row {
        name: "one node with no step",
        nodes: 1,
        steps: 0,
        fault: Some(RunFault::BadSteps),
        ..NO_NODE
    },
    Row {
        name: "sixteen nodes with 1,000,001 steps",
        nodes: 16,
        steps: 1_000_001,
        fault: Some(RunFault::BadSteps),
        ..NO_NODE
    },
    SIXTEEN,
    ARRIVALS,
    Row {
        name: "an arrival with numbers left",
        first: 4_294_967_000,
        fault: None,
        ..ARRIVALS
    },
    SECOND_LOCK,
    Row {
        name: "a second lock with numbers left",
        first: 4_294_967_000,
        fault: None,
        ..SECOND_LOCK
    },
    BOTH,
    Row {
        name: "both with numbers left",
        first: 4_294_967_000,
        fault: None,
        ..BOTH
    },
];

#[test]
fn numbers_out_of_range_are_refused_and_message_numbers_wear_out(rt: HostRuntime) {
    passes(&rt, first_wrong(&rt, rt.alloc()));
}
