// The weave of the turns of a run.

use crate::checks::passes;
use crate::shell::{options, ran};
use lrc_envelope::{Envelope, Picker};
use lrc_lang::parse;
use lrc_log::{Entry, Input};
use lrc_post::{Mailbox, Post};
use lrc_program::Program;
use lrc_protocol::Event;
use lrc_trace::act::Act;
use lrc_weave::{WeaveFault, events_with, weave, weave_run};
use lrc_wire::encode;
use lrc_world::report::Report;
use lrc_world::simulate::simulate;
use std::alloc::Global;
use std::sync::Wait;
use std::thread::Threads;

const ONE_WRITES: &[u8] = b"words 1; locks 0; if me == 0 { [0] = 7; } barrier; x = [0]; print x;";

/// The events of logs and mailboxes, one for each of the three nodes; none too where they differ or memory is missing.
fn woven(alloc: Global, logs: &[Vec<Entry>], wires: &[Mailbox]) -> Option<Vec<Event>> {
    if logs.len() != 3 || wires.len() != 3 {
        return None;
    }
    weave(alloc, logs, wires).ok()
}

/// Whether the mailboxes, one for each of the three nodes, tell of other messages than the logs.
fn differ(alloc: Global, logs: &[Vec<Entry>], wires: &[Mailbox]) -> bool {
    if logs.len() != 3 || wires.len() != 3 {
        return false;
    }
    match weave(alloc, logs, wires) {
        Ok(_) => false,
        Err(fault) => fault == WeaveFault::Mismatch,
    }
}

/// Whether logs and mailboxes, one for each of the three nodes, tell of these acts in their order, and of no message that is still in flight.
fn are_told(alloc: Global, logs: &[Vec<Entry>], wires: &[Mailbox], acts: &[Act]) -> bool {
    if logs.len() != 3 || wires.len() != 3 {
        return false;
    }
    match weave_run(alloc, logs, wires) {
        Ok(run) => run.acts.as_slice() == acts && run.in_flight == 0,
        Err(_) => false,
    }
}

/// Whether a message is written as these bytes.
fn is_written(alloc: Global, envelope: &Envelope, bytes: &[u8]) -> bool {
    match encode(alloc, envelope) {
        Ok(own) => own[..] == bytes[..],
        Err(_) => false,
    }
}

/// Whether two messages are the same bytes.
fn is_same_message(alloc: Global, envelope: &Envelope, other: &Envelope) -> bool {
    match encode(alloc, other) {
        Ok(bytes) => is_written(alloc, envelope, &bytes),
        Err(_) => false,
    }
}

/// Whether both turns go on by themselves, or take the same message.
fn is_same_input(alloc: Global, input: &Input, other: &Input) -> bool {
    match (input, other) {
        (Input::Run, Input::Run) => true,
        (Input::Taken(envelope), Input::Taken(twin)) => is_same_message(alloc, envelope, twin),
        _ => false,
    }
}

/// Whether the same messages were sent, in the same order.
fn are_same_messages(alloc: Global, out: &[Envelope], other: &[Envelope]) -> bool {
    let mut is = out.len() == other.len();
    for (envelope, twin) in out.iter().zip(other) {
        is = is && is_same_message(alloc, envelope, twin);
    }
    is
}

/// Whether two turns take the same message, have the same stamp and act, and send the same messages.
fn is_same_turn(alloc: Global, entry: &Entry, other: &Entry) -> bool {
    entry.stamp == other.stamp
        && entry.turn.act == other.turn.act
        && is_same_input(alloc, &entry.input, &other.input)
        && are_same_messages(alloc, &entry.turn.out, &other.turn.out)
}

/// Whether two logs have the same turns.
fn is_same_log(alloc: Global, log: &[Entry], other: &[Entry]) -> bool {
    let mut is = log.len() == other.len();
    for (entry, twin) in log.iter().zip(other) {
        is = is && is_same_turn(alloc, entry, twin);
    }
    is
}

/// Whether all logs are the same.
fn are_same_logs(alloc: Global, logs: &[Vec<Entry>], other: &[Vec<Entry>]) -> bool {
    let mut is = logs.len() == other.len();
    for (log, twin) in logs.iter().zip(other) {
        is = is && is_same_log(alloc, log, twin);
    }
    is
}

/// Whether two reports have the same acts, ends and logs, to the bytes of their messages.
fn is_same_report(alloc: Global, report: &Report, other: &Report) -> bool {
    report.acts.as_slice() == other.acts.as_slice()
        && report.ends.as_slice() == other.ends.as_slice()
        && are_same_logs(alloc, &report.logs, &other.logs)
}

/// Whether the run of these events has the report's acts, ends and logs.
fn is_made_by(alloc: Global, program: &Program, report: &Report, events: &[Event]) -> bool {
    match simulate(alloc, program, 3, &options(0), events) {
        Ok(again) => is_same_report(alloc, report, &again),
        Err(_) => false,
    }
}

/// Whether the events of a run's logs and mailboxes make it again.
fn is_replayed(alloc: Global, program: &Program, report: &Report, wires: &[Mailbox]) -> bool {
    match woven(alloc, &report.logs, wires) {
        Some(events) => is_made_by(alloc, program, report, &events),
        None => false,
    }
}

/// Whether the turns of a report are not those of the mailboxes of a post to which nothing was put.
fn is_unmatched(alloc: Global, report: &Report, order: Picker) -> bool {
    match Post::new(alloc, 3, order) {
        Ok(post) => differ(alloc, &report.logs, post.into_wires().mailboxes()),
        Err(_) => false,
    }
}

/// What is asked of a run.
#[derive(Clone, Copy)]
enum Question {
    /// Whether the logs and mailboxes tell of the run, make it again, and differ where the mailboxes are empty.
    Woven,
    /// Whether the turns of all nodes but the last one, and that one behind them, have the events of all turns; and a turn more, by a
    /// message that was taken before, has none.
    LastBehind,
}

/// The node of the last turn: that with the greatest stamp, and of several the highest.
fn last_node(logs: &[Vec<Entry>]) -> Option<u8> {
    let mut node = None;
    let mut greatest = 0;
    for (log, number) in logs.iter().zip(0..16u8) {
        if let Some(entry) = log.last()
            && entry.stamp >= greatest
        {
            greatest = entry.stamp;
            node = Some(number);
        }
    }
    node
}

/// The first message that a log takes.
fn first_taken(log: &[Entry]) -> Option<&Input> {
    log.iter()
        .map(|entry| &entry.input)
        .find(|input| matches!(input, Input::Taken(_)))
}

/// Whether the events of these logs, and behind them that of a turn more, are these.
fn are_with(alloc: Global, logs: &[Vec<Entry>], node: u8, input: &Input, events: &[Event]) -> bool {
    if logs.len() > 16 {
        return false;
    }
    match events_with(alloc, logs, node, input) {
        Ok(found) => found.as_slice() == events,
        Err(_) => false,
    }
}

/// Whether there are no events of these logs and a turn more by this input, since its message is not in flight.
fn are_without(alloc: Global, logs: &[Vec<Entry>], node: u8, input: &Input) -> bool {
    if logs.len() > 16 {
        return false;
    }
    match events_with(alloc, logs, node, input) {
        Ok(_) => false,
        Err(fault) => fault == WeaveFault::Mismatch,
    }
}

/// Whether node 0 takes no message again behind these logs.
fn takes_none_again(alloc: Global, logs: &[Vec<Entry>]) -> bool {
    match logs.first().and_then(|log| first_taken(log)) {
        Some(taken) => are_without(alloc, logs, 0, taken),
        None => false,
    }
}

/// Whether the last turn of a node, behind all others of these logs, has these events. It is taken off.
fn is_last_behind(alloc: Global, logs: &mut [Vec<Entry>], node: u8, events: &[Event]) -> bool {
    match logs.get_mut(usize::from(node)).and_then(|log| log.pop()) {
        Some(last) => are_with(alloc, logs, node, &last.input, events),
        None => false,
    }
}

/// Whether what is asked is so of a run. The last turn is taken off its logs.
fn is_so(
    alloc: Global,
    program: &Program,
    report: &mut Report,
    wires: &[Mailbox],
    order: Picker,
    question: Question,
) -> bool {
    match question {
        Question::Woven => {
            are_told(alloc, &report.logs, wires, report.acts.as_slice())
                && is_replayed(alloc, program, report, wires)
                && is_unmatched(alloc, report, order)
        }
        Question::LastBehind => {
            takes_none_again(alloc, &report.logs) && ends_last(alloc, report, wires)
        }
    }
}

/// Whether the last turn of a run is woven behind the others.
fn ends_last(alloc: Global, report: &mut Report, wires: &[Mailbox]) -> bool {
    match (woven(alloc, &report.logs, wires), last_node(&report.logs)) {
        (Some(events), Some(node)) => is_last_behind(alloc, &mut report.logs, node, &events),
        _ => false,
    }
}

fn is_so_of_a_run<R: Threads + Wait + Sync>(
    rt: &R,
    alloc: Global,
    program: &Program,
    order: Picker,
    question: Question,
) -> bool {
    match ran(rt, alloc, program, 3, &options(0), order) {
        Ok((mut report, wires)) => is_so(
            alloc,
            program,
            &mut report,
            wires.mailboxes(),
            order,
            question,
        ),
        Err(_) => false,
    }
}

fn is_met<R: Threads + Wait + Sync>(
    rt: &R,
    alloc: Global,
    order: Picker,
    question: Question,
) -> bool {
    match parse(alloc, ONE_WRITES) {
        Ok(program) => is_so_of_a_run(rt, alloc, &program, order, question),
        Err(_) => false,
    }
}

/// An order of messages, and what is asked of a run.
type Row = (&'static str, Picker, Question);

fn first_wrong<R: Threads + Wait + Sync>(rt: &R, alloc: Global) -> Option<&'static str> {
    for (name, order, question) in ROWS {
        if !is_met(rt, alloc, *order, *question) {
            return Some(name);
        }
    }
    None
}

const ROWS: &[Row] = &[
    ("oldest", Picker::Oldest, Question::Woven),
    ("newest", Picker::Newest, Question::Woven),
    ("twice", Picker::Twice, Question::Woven),
    (
        "oldest, the last turn behind the others",
        Picker::Oldest,
        Question::LastBehind,
    ),
    (
        "newest, the last turn behind the others",
        Picker::Newest,
        Question::LastBehind,
    ),
];

#[test]
fn turns_are_woven_by_their_mailboxes(rt: HostRuntime) {
    passes(&rt, first_wrong(&rt, rt.alloc()));
}
