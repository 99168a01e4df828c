// What the nodes of a run left of which one wore out.

use crate::checks::passes;
use crate::shell::setting_of;
use lrc_envelope::Picker;
use lrc_lang::parse;
use lrc_program::Program;
use lrc_run::{Halt, OpenGate, Stop, WornOut, run_on_threads};
use lrc_world::keep::Keep;
use std::alloc::Global;
use std::sync::Wait;
use std::thread::Threads;

/// A program for two nodes whose messages to each other are numbered from the last number on, and which node is said to wear out.
struct Row {
    name: &'static str,
    text: &'static [u8],
    node: usize,
}

const ROWS: &[Row] = &[
    Row {
        name: "node 0 wears out as it takes the last arrival",
        text: b"words 1; locks 0; if me == 0 { [0] = 7; } barrier; x = [0]; print x;",
        node: 0,
    },
    Row {
        name: "the other node wears out as it goes on to its second lock",
        text: b"words 1; locks 3; if me == 1 { acquire 0; release 0; acquire 2; release 2; }",
        node: 1,
    },
];

fn is_left_so(worn: &WornOut, row: &Row) -> bool {
    let mut turns: usize = 1;
    for log in &worn.left.logs {
        turns = turns.saturating_add(log.len());
    }
    let stops = worn.left.stops.as_slice();
    let Some(stop) = stops.get(row.node) else {
        return false;
    };
    worn.node == row.node
        && stops.len() == 2
        && *stop == Some(Stop::Worn)
        && worn.events.len() == turns
}

fn halts_so<R: Threads + Wait + Sync>(rt: &R, alloc: Global, program: &Program, row: &Row) -> bool {
    let Some(setting) = setting_of(2, u32::MAX) else {
        return false;
    };
    match run_on_threads(
        rt,
        alloc,
        program,
        &setting,
        Picker::Oldest,
        Keep::Turns,
        &OpenGate,
    ) {
        Err(Halt::Worn(worn)) => is_left_so(&worn, row),
        Ok(_) | Err(Halt::Refused(_) | Halt::Mismatch(_) | Halt::NoMemory) => false,
    }
}

fn is_met<R: Threads + Wait + Sync>(rt: &R, alloc: Global, row: &Row) -> bool {
    match parse(alloc, row.text) {
        Ok(program) => halts_so(rt, alloc, &program, row),
        Err(_) => false,
    }
}

fn first_wrong<R: Threads + Wait + Sync>(rt: &R, alloc: Global) -> Option<&'static str> {
    for row in ROWS {
        if !is_met(rt, alloc, row) {
            return Some(row.name);
        }
    }
    None
}

#[test]
fn what_nodes_left_tells_which_one_wore_out(rt: HostRuntime) {
    passes(&rt, first_wrong(&rt, rt.alloc()));
}
