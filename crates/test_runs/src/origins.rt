// Where the acts of runs come from: their turns, their statements and their times.

use crate::checks::passes;
use crate::shell::setting_of;
use lrc_envelope::Picker;
use lrc_lang::parse;
use lrc_program::Program;
use lrc_run::{OpenGate, run_on_threads};
use lrc_setting::setting::Setting;
use lrc_trace::act::Act;
use lrc_world::keep::Keep;
use lrc_world::run::{Order, Run, run_in};
use std::alloc::Global;
use std::sync::Wait;
use std::thread::Threads;

/// How a run goes on.
#[derive(Clone, Copy)]
enum Way {
    Rounds(Picker),
    /// At random, from this seed.
    Random(u64),
    /// With each node on its own thread.
    Threads,
}

/// What is asked of a run.
#[derive(Clone, Copy)]
enum Wanted {
    /// For each act, the number of its statement, and the own entry of node 0 in its time just after it; how many times
    /// are kept; and that each act is the one that its turn made.
    Statements(&'static [u32], &'static [u32], usize),
    /// That each act is the one that its turn made.
    Turns,
    /// The same, and that the logs have all turns.
    AllTurns,
    /// That some turns are kept, and nothing else.
    TurnsAlone,
    /// That nothing is kept but turns, as many as a run in rounds has of which all is kept.
    AllTurnsAlone,
}

/// A program for so many nodes, how it is run, what is kept of its run, and what is asked of that.
struct Row {
    name: &'static str,
    text: &'static [u8],
    nodes: u32,
    way: Way,
    keep: Keep,
    wanted: Wanted,
}

const OLDEST: Way = Way::Rounds(Picker::Oldest);

/// A program of one node.
const ALONE: Row = Row {
    name: "one statement after another, and a barrier",
    text: b"words 1; locks 0; x = 1; [0] = x; barrier; print x;",
    nodes: 1,
    way: OLDEST,
    keep: Keep::All,
    wanted: Wanted::Statements(&[0, 1, 2, 2, 3, 4], &[0, 0, 1, 1, 1, 1], 2),
};

/// A program for two nodes, in which each acquires the lock and both wait for each other.
const BOTH: Row = Row {
    name: "turns in rounds",
    text: b"words 1; locks 1; acquire 0; x = [0]; [0] = x + 1; release 0; barrier; y = [0]; print y;",
    nodes: 2,
    way: Way::Rounds(Picker::Newest),
    wanted: Wanted::Turns,
    ..ALONE
};

const ROWS: &[Row] = &[
    ALONE,
    Row {
        name: "statements in blocks",
        text: b"words 2; locks 0; x = 0;
            while x < 2 { if x == 0 { [0] = 7; } else { [1] = 8; } x = x + 1; } print x;",
        wanted: Wanted::Statements(
            &[0, 1, 2, 3, 5, 1, 2, 4, 5, 1, 6, 7],
            &[0, 0, 0, 0, 0, 0, 0, 0, 0, 0, 0, 0],
            1,
        ),
        ..ALONE
    },
    Row {
        name: "a lock",
        text: b"words 1; locks 1; acquire 0; [0] = 1; release 0;",
        wanted: Wanted::Statements(&[0, 1, 2, 3], &[1, 1, 2, 2], 2),
        ..ALONE
    },
    BOTH,
    Row {
        name: "turns at random",
        way: Way::Random(7),
        ..BOTH
    },
    Row {
        name: "turns alone are kept",
        way: OLDEST,
        keep: Keep::Turns,
        wanted: Wanted::AllTurnsAlone,
        ..BOTH
    },
    Row {
        name: "turns of threads",
        way: Way::Threads,
        wanted: Wanted::AllTurns,
        ..BOTH
    },
    Row {
        name: "the newest turns of threads are kept",
        way: Way::Threads,
        keep: Keep::Newest,
        wanted: Wanted::TurnsAlone,
        ..BOTH
    },
];

/// The own entry of node 0 just after the act at a position.
fn entry_at(run: &Run, position: usize) -> Option<u32> {
    let time = run.origins.times.at(position)?;
    let _some = time.nodes();
    Some(time.at(0))
}

fn has_entries(run: &Run, entries: &[u32]) -> bool {
    for (position, entry) in entries.iter().enumerate() {
        if entry_at(run, position) != Some(*entry) {
            return false;
        }
    }
    run.origins.times.len() == entries.len()
}

fn has_statements(run: &Run, statements: &[u32], entries: &[u32], kept: usize) -> bool {
    run.origins.statements.as_slice() == statements
        && has_entries(run, entries)
        && run.origins.times.kept() == kept
        && tells_turns(run)
}

/// How many of the first turns of a run are of the node.
fn turns_before(run: &Run, turn: usize, node: u8) -> usize {
    let before = run.turned.get(..turn).unwrap_or(&[]);
    before.iter().filter(|other| other.node == node).count()
}

/// The act that a turn of a run made.
fn act_of(run: &Run, turn: usize) -> Option<Act> {
    let node = run.turned.get(turn)?.node;
    let log = run.report.logs.get(usize::from(node))?;
    log.get(turns_before(run, turn, node))?.turn.act
}

/// Whether each act is the one that its turn made.
fn tells_turns(run: &Run) -> bool {
    for (position, act) in run.report.acts.iter().enumerate() {
        let turn = run.origins.turns.get(position).copied();
        if turn.and_then(|turn| act_of(run, turn)) != Some(*act) {
            return false;
        }
    }
    run.origins.turns.len() == run.report.acts.len()
}

/// Whether nothing is kept but turns.
fn has_none(run: &Run) -> bool {
    run.turned.is_empty()
        && run.origins.turns.is_empty()
        && run.origins.statements.is_empty()
        && run.origins.times.len() == 0
}

fn turns_of(run: &Run) -> usize {
    let mut turns = 0usize;
    for log in &run.report.logs {
        turns = turns.wrapping_add(log.len());
    }
    turns
}

/// How many turns a run in rounds has, of which all is kept.
fn all_turns(alloc: Global, program: &Program, setting: &Setting) -> Option<usize> {
    let order = Order::Rounds(Picker::Oldest);
    match run_in(alloc, program, setting, order, Keep::All) {
        Ok(run) => Some(run.turned.len()),
        Err(_) => None,
    }
}

fn is_as_wanted(
    alloc: Global,
    program: &Program,
    setting: &Setting,
    run: &Run,
    wanted: Wanted,
) -> bool {
    match wanted {
        Wanted::Statements(statements, entries, kept) => {
            has_statements(run, statements, entries, kept)
        }
        Wanted::Turns => tells_turns(run),
        Wanted::AllTurns => tells_turns(run) && turns_of(run) == run.turned.len(),
        Wanted::TurnsAlone => has_none(run) && turns_of(run) > 0,
        Wanted::AllTurnsAlone => {
            has_none(run) && all_turns(alloc, program, setting) == Some(turns_of(run))
        }
    }
}

fn is_run_so(
    alloc: Global,
    program: &Program,
    setting: &Setting,
    order: Order<'_>,
    row: &Row,
) -> bool {
    match run_in(alloc, program, setting, order, row.keep) {
        Ok(run) => is_as_wanted(alloc, program, setting, &run, row.wanted),
        Err(_) => false,
    }
}

fn is_threaded_so<R: Threads + Wait + Sync>(
    rt: &R,
    alloc: Global,
    program: &Program,
    setting: &Setting,
    row: &Row,
) -> bool {
    match run_on_threads(
        rt,
        alloc,
        program,
        setting,
        Picker::Oldest,
        row.keep,
        &OpenGate,
    ) {
        Ok(run) => is_as_wanted(alloc, program, setting, &run.made, row.wanted),
        Err(_) => false,
    }
}

fn is_made_so<R: Threads + Wait + Sync>(
    rt: &R,
    alloc: Global,
    program: &Program,
    row: &Row,
) -> bool {
    let Some(setting) = setting_of(row.nodes, 0) else {
        return false;
    };
    match row.way {
        Way::Rounds(picker) => is_run_so(alloc, program, &setting, Order::Rounds(picker), row),
        Way::Random(seed) => is_run_so(alloc, program, &setting, Order::Random(seed), row),
        Way::Threads => is_threaded_so(rt, alloc, program, &setting, row),
    }
}

fn is_met<R: Threads + Wait + Sync>(rt: &R, alloc: Global, row: &Row) -> bool {
    match parse(alloc, row.text) {
        Ok(program) => is_made_so(rt, alloc, &program, row),
        Err(_) => false,
    }
}

fn first_wrong<R: Threads + Wait + Sync>(rt: &R, alloc: Global) -> Option<&'static str> {
    for row in ROWS {
        if !is_met(rt, alloc, row) {
            return Some(row.name);
        }
    }
    None
}

#[test]
fn acts_come_from_their_turns_and_statements(rt: HostRuntime) {
    passes(&rt, first_wrong(&rt, rt.alloc()));
}
