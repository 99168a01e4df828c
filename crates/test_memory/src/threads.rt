// Runs on threads: whichever growth is refused, one of two runs meets none.

use crate::answers::{Answer, are_answers, of_acts, options, parsed_at_last};
use lrc_envelope::Picker;
use lrc_program::Program;
use lrc_run::{RunFault, run};
use std::alloc::Global;
use std::sync::Wait;
use std::thread::Threads;

const COUNTER: &[u8] =
    b"words 1; locks 1; acquire 0; x = [0]; [0] = x + 1; release 0; barrier; y = [0]; print y;";

/// What comes of the counter on two nodes, each on a thread of its own.
fn answer<R: Threads + Wait + Sync>(rt: &R, alloc: Global, program: &Program) -> Answer {
    match run(rt, alloc, program, 2, &options(0), Picker::Oldest) {
        Ok((report, _)) => of_acts(&report.acts, &[2, 2]),
        Err(RunFault::NoMemory) => Answer::NoMemory,
        Err(_) => Answer::Other,
    }
}

/// What comes of two such runs.
fn answers<R: Threads + Wait + Sync>(rt: &R, alloc: Global) -> [Answer; 2] {
    match parsed_at_last(alloc, COUNTER) {
        Some(program) => [answer(rt, alloc, &program), answer(rt, alloc, &program)],
        None => [Answer::Other, Answer::Other],
    }
}

#[test]
fn two_nodes_count_on_threads(rt: HostRuntime) {
    are_answers(&rt, answers(&rt, rt.alloc()));
}
