// Stamps that are used up: what is refused leaves the log and the trace as they were.

use crate::checks::holds;
use lrc_envelope::Envelope;
use lrc_exec::code::Code;
use lrc_lang::parse;
use lrc_node::{Logged, Node, NodeFault, Options};
use lrc_page::Size;
use lrc_program::Program;
use lrc_wire::{decode, encode};
use std::alloc::{AllocError, Global};

// Node 0 writes under the lock, which node 1 takes after it. Node 1's read is made by the turn that takes node 0's reply.
const ONE_LOCK: &[u8] = b"words 1; locks 1;
    if me == 0 { acquire 0; [0] = 7; release 0; } else { acquire 0; x = [0]; print x; }";

const OPTIONS: Options = Options {
    steps: 1000,
    collect: 0,
    first: 0,
    size: Size::Words64,
};

fn run_often(logged: &mut Logged<'_>, often: u32) {
    for _ in 0..often {
        let _ = logged.run();
    }
}

/// The first message of a node's last turn, read from its bytes.
fn last_sent(alloc: Global, from: &Logged<'_>) -> Option<Envelope> {
    let envelope = from.log().last()?.turn.out.first()?;
    match encode(alloc, envelope) {
        Ok(bytes) => decode(alloc, &bytes).ok(),
        Err(_) => None,
    }
}

/// Why a node does not take a message with this stamp, if it does not.
fn refusal(envelope: Option<Envelope>, to: &mut Logged<'_>, stamp: u64) -> Option<NodeFault> {
    match envelope {
        Some(envelope) => to.take(envelope, stamp).err(),
        None => Some(NodeFault::NoMemory),
    }
}

/// Whether a node takes the first message of another's last turn.
fn hands(alloc: Global, from: &Logged<'_>, to: &mut Logged<'_>) -> bool {
    refusal(last_sent(alloc, from), to, 1).is_none()
}

/// Whether a node takes the message that it sent itself in its last turn.
fn hands_on(alloc: Global, node: &mut Logged<'_>) -> bool {
    let envelope = last_sent(alloc, node);
    refusal(envelope, node, 1).is_none()
}

/// Whether node 1 has the lock after node 0's write, and asks for the page.
fn asks(alloc: Global, first: &mut Logged<'_>, second: &mut Logged<'_>) -> bool {
    run_often(first, 6);
    run_often(second, 2);
    let granted = hands(alloc, second, first)
        && hands_on(alloc, first)
        && hands(alloc, first, second);
    run_often(second, 1);
    granted
}

/// How many turns a node has made, and how many intervals have accesses.
fn counts(node: &Logged<'_>) -> [usize; 2] {
    [node.log().len(), node.trace().segments().len()]
}

/// What node 1 answers to its own request and to the reply, both with the largest stamp, and then to a run. Its log and its trace
/// stay as they were.
fn wears_out(alloc: Global, first: &mut Logged<'_>, second: &mut Logged<'_>) -> bool {
    let asked = asks(alloc, first, second) && hands(alloc, second, first);
    let before = counts(second);
    let own = last_sent(alloc, second);
    let unexpected = refusal(own, second, u64::MAX);
    let worn = refusal(last_sent(alloc, first), second, u64::MAX);
    let failed = second.run().err();
    let kept = counts(second) == before && before[1] == 0;
    asked
        && kept
        && [unexpected, worn, failed]
            == [
                Some(NodeFault::Unexpected),
                Some(NodeFault::Worn),
                Some(NodeFault::Failed),
            ]
}

/// What node 1 answers to the reply with the largest stamp but one, and to its next two runs: the access is made, and no
/// stamp is left.
fn makes_its_last_turn(alloc: Global, first: &mut Logged<'_>, second: &mut Logged<'_>) -> bool {
    let asked = asks(alloc, first, second) && hands(alloc, second, first);
    let taken = refusal(last_sent(alloc, first), second, u64::MAX - 1);
    let before = counts(second);
    let faults = [taken, second.run().err(), second.run().err()];
    let kept = counts(second) == before && before[1] == 1;
    asked && kept && faults == [None, Some(NodeFault::Worn), Some(NodeFault::Failed)]
}

/// What node 1 answers, waiting for the page, once a repeat of the grant took the last stamp: to a run, and to the reply.
fn waits_without_a_stamp(alloc: Global, first: &mut Logged<'_>, second: &mut Logged<'_>) -> bool {
    let asked = asks(alloc, first, second);
    let asking = last_sent(alloc, second);
    let repeated = refusal(last_sent(alloc, first), second, u64::MAX - 1);
    let run = second.run().err();
    let sent = refusal(asking, first, 1);
    let reply = refusal(last_sent(alloc, first), second, 1);
    asked
        && [repeated, run, sent, reply]
            == [None, Some(NodeFault::NotReady), None, Some(NodeFault::Worn)]
}

/// What is tried of two nodes.
#[derive(Clone, Copy)]
enum Case {
    WearsOut,
    MakesItsLastTurn,
    WaitsWithoutAStamp,
}

const CASES: &[(&str, Case)] = &[
    ("a reply with the largest stamp", Case::WearsOut),
    (
        "a reply with the largest stamp but one",
        Case::MakesItsLastTurn,
    ),
    ("a repeat takes the last stamp", Case::WaitsWithoutAStamp),
];

fn is_so(alloc: Global, case: Case, first: &mut Logged<'_>, second: &mut Logged<'_>) -> bool {
    match case {
        Case::WearsOut => wears_out(alloc, first, second),
        Case::MakesItsLastTurn => makes_its_last_turn(alloc, first, second),
        Case::WaitsWithoutAStamp => waits_without_a_stamp(alloc, first, second),
    }
}

/// Of two nodes of the program, each with its log, whether it is so.
fn is_so_of_two(alloc: Global, code: &Code<'_>, case: Case) -> Result<bool, AllocError> {
    let mut first = Logged::new(alloc, Node::new(alloc, code, 0, 2, &OPTIONS)?);
    let mut second = Logged::new(alloc, Node::new(alloc, code, 1, 2, &OPTIONS)?);
    Ok(is_so(alloc, case, &mut first, &mut second))
}

fn is_so_of_program(alloc: Global, program: &Program, case: Case) -> Result<bool, AllocError> {
    let code = Code::new(alloc, program)?;
    is_so_of_two(alloc, &code, case)
}

fn is_met(alloc: Global, case: Case) -> bool {
    match parse(alloc, ONE_LOCK) {
        Ok(program) => is_so_of_program(alloc, &program, case) == Ok(true),
        Err(_) => false,
    }
}

#[test]
fn a_refused_turn_adds_nothing_where_stamps_are_used_up(rt: HostRuntime) {
    for (name, case) in CASES {
        holds(&rt, name, is_met(rt.alloc(), *case));
    }
}
