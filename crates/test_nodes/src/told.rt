// What a node is told in worked runs: the weights of the intervals that it lacks, and the bytes of a reply.

use crate::checks::holds;
use lrc_envelope::{Envelope, Message, Picker};
use lrc_lang::parse;
use lrc_log::Entry;
use lrc_node::Options;
use lrc_page::Size;
use lrc_program::Program;
use lrc_protocol::Event;
use lrc_store::Intervals;
use lrc_wire::encode;
use lrc_world::report::Report;
use lrc_world::simulate::drive;
use std::alloc::{AllocError, Global};

const OPTIONS: Options = Options {
    steps: 1_000_000,
    collect: 0,
    first: 0,
    size: Size::Words64,
};

/// A node, the index of one of its intervals, and the weight of its stamp.
type Weighed = (u8, u32, u64);

/// Adds those intervals that name a page.
fn note_writes(found: &mut Vec<Weighed>, intervals: &Intervals) -> Result<(), AllocError> {
    for interval in intervals.as_slice() {
        if !interval.pages.is_empty() {
            found.push((interval.node, interval.index(), interval.stamp.weight()))?;
        }
    }
    Ok(())
}

/// Adds what a departure for this node tells it of.
fn note_departure(
    found: &mut Vec<Weighed>,
    envelope: &Envelope,
    node: u8,
) -> Result<(), AllocError> {
    match &envelope.message {
        Message::Depart(depart) if envelope.to == node => {
            note_writes(found, &depart.news.intervals)
        }
        _ => Ok(()),
    }
}

/// The writes that the departures for a node tell it of, in order, where a log sends them all.
fn departures(alloc: Global, log: &[Entry], node: u8) -> Result<Vec<Weighed>, AllocError> {
    let mut found = Vec::new(alloc);
    for entry in log {
        for envelope in &entry.turn.out {
            note_departure(&mut found, envelope, node)?;
        }
    }
    Ok(found)
}

/// What a run in rounds is to show of what node 0 sends.
#[derive(Clone, Copy)]
enum Told<'a> {
    /// Its departures for this node tell of these writes.
    Writes(u8, &'a [Weighed]),
    /// Its first reply with changes has these bytes.
    Reply(&'a [u8]),
}

fn is_told(alloc: Global, log: &[Entry], node: u8, wanted: &[Weighed]) -> bool {
    match departures(alloc, log, node) {
        Ok(found) => found.as_slice() == wanted,
        Err(_) => false,
    }
}

fn is_spelled(alloc: Global, envelope: &Envelope, wanted: &[u8]) -> bool {
    match encode(alloc, envelope) {
        Ok(bytes) => &bytes[..] == wanted,
        Err(_) => false,
    }
}

/// Whether the first reply with changes that a log sends has these bytes.
fn replies(alloc: Global, log: &[Entry], wanted: &[u8]) -> bool {
    for entry in log {
        for envelope in &entry.turn.out {
            if matches!(envelope.message, Message::ChangesReply(_)) {
                return is_spelled(alloc, envelope, wanted);
            }
        }
    }
    false
}

fn tells(alloc: Global, report: &Report, told: Told) -> bool {
    match (report.logs.first(), told) {
        (Some(log), Told::Writes(node, wanted)) => is_told(alloc, log, node, wanted),
        (Some(log), Told::Reply(wanted)) => replies(alloc, log, wanted),
        (None, _) => false,
    }
}

fn tells_in(alloc: Global, done: (Vec<Event>, Report), told: Told) -> bool {
    let (_events, report) = done;
    tells(alloc, &report, told)
}

fn drives(alloc: Global, program: &Program, nodes: u32, told: Told) -> bool {
    match drive(alloc, program, nodes, &OPTIONS, Picker::Oldest) {
        Ok(done) => tells_in(alloc, done, told),
        Err(_) => false,
    }
}

/// Whether a run of so many nodes shows this.
fn is_shown(alloc: Global, text: &[u8], nodes: u32, told: Told) -> bool {
    match parse(alloc, text) {
        Ok(program) => drives(alloc, &program, nodes, told),
        Err(_) => false,
    }
}

// Node 1 writes under the lock what node 0 wrote.
const SILENT_SECOND: &[u8] =
    b"words 1; locks 1; if me == 0 { acquire 0; [0] = 5; release 0; } barrier;
    if me == 1 { acquire 0; [0] = 5; release 0; } barrier;
    if me == 2 { acquire 0; x = [0]; release 0; print x; }";

const THREE_WRITERS: &[u8] =
    b"words 1; locks 0; if me == 2 { [0] = 12; } barrier; if me == 1 { [0] = 11; } barrier;
    if me == 0 { [0] = 10; } barrier; x = [0]; print x;";

// Node 0 leaves page 0 as it was.
const WRITTEN_BACK: &[u8] =
    b"words 1; locks 0; if me == 0 { [0] = 9; [0] = 0; } barrier; x = [0]; print x;";

// Its second message to node 1: interval 1 changed nothing in page 0.
const NO_CHANGES: [u8; 24] = [
    2, 9, 0, 1, 0, 0, 0, 1, 0, 0, 0, 12, 0, 0, 0, 0, 0, 1, 0, 0, 0, 1, 0, 0,
];

/// A text, how many nodes run it, and what it is to show.
type Row<'a> = (&'a str, &'a [u8], u32, Told<'a>);

const ROWS: &[Row] = &[
    // The last node is told of them.
    (
        "the later of two writes weighs more",
        SILENT_SECOND,
        3,
        Told::Writes(2, &[(0, 2, 2), (1, 3, 7)]),
    ),
    (
        "the later of three writes weighs more",
        THREE_WRITERS,
        4,
        Told::Writes(3, &[(2, 1, 1), (1, 2, 5), (0, 3, 9)]),
    ),
    (
        "a reply of no changes has its bytes",
        WRITTEN_BACK,
        2,
        Told::Reply(&NO_CHANGES),
    ),
];

#[test]
fn nodes_are_told(rt: HostRuntime) {
    for (name, text, nodes, told) in ROWS {
        holds(&rt, name, is_shown(rt.alloc(), text, *nodes, *told));
    }
}
