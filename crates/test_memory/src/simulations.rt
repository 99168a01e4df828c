// Runs by events, two of each program: whichever growth is refused, one of the two runs meets none.

use crate::answers::{Answer, are_answers, of_acts, options, parsed_at_last};
use lrc_program::Program;
use lrc_protocol::Event;
use lrc_world::report::SimFault;
use lrc_world::simulate::simulate;
use std::alloc::Global;

/// A program for three nodes, its option `collect`, and what the nodes print, those of node 0 first.
#[derive(Clone, Copy)]
struct Case<'c> {
    text: &'c [u8],
    collect: u32,
    prints: &'c [u64],
}

// What node 0 writes before the barrier comes to the others by it.
const BARRIER: &Case = &Case {
    text: b"words 1; locks 0; if me == 0 { [0] = 7; } barrier; x = [0]; print x;",
    collect: 0,
    prints: &[7, 7, 7],
};

// Node 2 reads a word that two nodes wrote before it, the second one without a change.
const THIRD: &Case = &Case {
    text: b"words 1; locks 1; if me == 0 { acquire 0; [0] = 5; release 0; } barrier;
        if me == 1 { acquire 0; [0] = 5; release 0; } barrier;
        if me == 2 { acquire 0; x = [0]; release 0; print x; }",
    collect: 0,
    prints: &[5],
};

// The first barrier collects. The keeper of page 0 fetches what another node changed in it.
const COLLECTION: &Case = &Case {
    text: b"words 3; locks 2; if me == 1 { acquire 1; release 1; [0] = 4; } if me == 2 { [2] = 8; }
        barrier; if me == 0 { [1] = 6; } barrier; x = [0]; y = [1]; z = [2]; print x; print y; print z;",
    collect: 3,
    prints: &[4, 6, 8, 4, 6, 8, 4, 6, 8],
};

/// Rounds in which each node is named once and the oldest message delivered five times, enough for all of these runs.
fn rounds() -> [Event; 480] {
    let mut events = [Event::Deliver(0); 480];
    for (place, event) in events.iter_mut().enumerate() {
        match place % 8 {
            0 => *event = Event::Run(0),
            1 => *event = Event::Run(1),
            2 => *event = Event::Run(2),
            _ => {}
        }
    }
    events
}

/// What comes of the run of a case.
fn answer(alloc: Global, program: &Program, case: &Case, events: &[Event]) -> Answer {
    match simulate(alloc, program, 3, &options(case.collect), events) {
        Ok(report) => of_acts(&report.acts, case.prints),
        Err(SimFault::NoMemory) => Answer::NoMemory,
        Err(_) => Answer::Other,
    }
}

/// What comes of two runs of a case.
fn answers(alloc: Global, case: &Case) -> [Answer; 2] {
    let events = rounds();
    match parsed_at_last(alloc, case.text) {
        Some(program) => [
            answer(alloc, &program, case, &events),
            answer(alloc, &program, case, &events),
        ],
        None => [Answer::Other, Answer::Other],
    }
}

#[test]
fn a_message_comes_by_a_barrier(rt: HostRuntime) {
    are_answers(&rt, answers(rt.alloc(), BARRIER));
}

#[test]
fn a_third_node_reads_what_two_wrote(rt: HostRuntime) {
    are_answers(&rt, answers(rt.alloc(), THIRD));
}

#[test]
fn a_barrier_collects(rt: HostRuntime) {
    are_answers(&rt, answers(rt.alloc(), COLLECTION));
}
