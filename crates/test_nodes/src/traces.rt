// The trace and the log of a node.

use crate::checks::holds;
use lrc_envelope::Envelope;
use lrc_exec::code::Code;
use lrc_lang::parse;
use lrc_log::Entry;
use lrc_node::{Logged, Node, Options};
use lrc_page::Size;
use lrc_program::Program;
use lrc_time::Time;
use lrc_trace::touched::Touched;
use lrc_trace::trace::{Segment, Trace};
use lrc_wire::{decode, encode};
use std::alloc::Global;

// Words 0 and 64 are on pages 0 and 1. The barrier closes interval 3, which has no access.
const ONE_BARRIER: &[u8] =
    b"words 65; locks 1; [0] = 1; x = [64]; acquire 0; [0] = 2; release 0; barrier; [64] = 3;";

const OPTIONS: Options = Options {
    steps: 1000,
    collect: 0,
    first: 0,
    size: Size::Words64,
};

/// What a segment shows: the epoch, the interval and node 0's entry of its stamp; whether words 0 and 64 were read, and
/// whether they were written.
type Shown = ([u32; 3], [bool; 4]);

/// The entry of node 0.
fn first_entry(time: &Time) -> u32 {
    if time.nodes() > 0 { time.at(0) } else { 0 }
}

/// Whether the first word of a page was touched, and no other one of it.
fn has_first(touched: &Touched, page: u16) -> bool {
    for one in touched.as_slice() {
        if one.page == page && one.mask.has(0) && !one.mask.has(1) {
            return true;
        }
    }
    false
}

fn shown(segment: &Segment) -> Shown {
    (
        [segment.epoch, segment.interval, first_entry(&segment.time)],
        [
            has_first(&segment.reads, 0),
            has_first(&segment.reads, 1),
            has_first(&segment.writes, 0),
            has_first(&segment.writes, 1),
        ],
    )
}

/// Whether a trace has three segments which show this.
fn shows(trace: &Trace, wanted: &[Shown; 3]) -> bool {
    match trace.segments() {
        [first, second, third] => [shown(first), shown(second), shown(third)] == *wanted,
        _ => false,
    }
}

fn run_often(logged: &mut Logged<'_>, often: u32) {
    for _ in 0..often {
        let _ = logged.run();
    }
}

/// What is read of the bytes of a message.
fn read_again(alloc: Global, envelope: &Envelope) -> Option<Envelope> {
    match encode(alloc, envelope) {
        Ok(bytes) => decode(alloc, &bytes).ok(),
        Err(_) => None,
    }
}

/// The first message of a log's last turn, and the turn's stamp.
fn last_sent(alloc: Global, log: &[Entry]) -> Option<(Envelope, u64)> {
    let entry = log.last()?;
    Some((read_again(alloc, entry.turn.out.first()?)?, entry.stamp))
}

/// Whether the node takes the message that it sent itself in its last turn.
fn takes_own(alloc: Global, logged: &mut Logged<'_>) -> bool {
    match last_sent(alloc, logged.log()) {
        Some((envelope, stamp)) => logged.take(envelope, stamp).is_ok(),
        None => false,
    }
}

/// Whether a node by itself comes to its end: it takes its arrival, and its departure.
fn runs_whole(alloc: Global, logged: &mut Logged<'_>) -> bool {
    run_often(logged, 6);
    let taken = takes_own(alloc, logged) && takes_own(alloc, logged);
    run_often(logged, 8);
    taken
}

/// Whether a log has so many turns, the last of which has this stamp.
fn is_log(log: &[Entry], turns: usize, stamp: u64) -> bool {
    match log.last() {
        Some(entry) => log.len() == turns && entry.stamp == stamp,
        None => false,
    }
}

const SEGMENTS: [Shown; 3] = [
    ([0, 1, 1], [false, true, true, false]),
    ([0, 2, 2], [false, false, true, false]),
    ([1, 4, 4], [false, false, false, true]),
];

/// Whether a node by itself has this in its trace and its log at its end.
fn ends(alloc: Global, node: Node<'_>) -> bool {
    let mut logged = Logged::new(alloc, node);
    let ended = runs_whole(alloc, &mut logged);
    let (log, trace) = logged.into_parts();
    ended && is_log(&log, 10, 10) && shows(&trace, &SEGMENTS)
}

fn ends_fresh(alloc: Global, code: &Code<'_>) -> bool {
    match Node::new(alloc, code, 0, 1, &OPTIONS) {
        Ok(node) => ends(alloc, node),
        Err(_) => false,
    }
}

fn ends_program(alloc: Global, program: &Program) -> bool {
    match Code::new(alloc, program) {
        Ok(code) => ends_fresh(alloc, &code),
        Err(_) => false,
    }
}

fn is_traced(alloc: Global) -> bool {
    match parse(alloc, ONE_BARRIER) {
        Ok(program) => ends_program(alloc, &program),
        Err(_) => false,
    }
}

#[test]
fn a_trace_has_the_accesses_by_interval(rt: HostRuntime) {
    holds(&rt, "one barrier", is_traced(rt.alloc()));
}
