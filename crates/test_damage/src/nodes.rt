// Random false messages to a node between its turns: it ends as if those that it refuses had not come.

use crate::checks::holds;
use crate::messages::{push_read, put_damaged};
use crate::random::Random;
use lrc_envelope::Envelope;
use lrc_exec::code::Code;
use lrc_lang::parse;
use lrc_node::{Node, NodeFault, Options};
use lrc_page::Size;
use lrc_program::Program;
use lrc_trace::act::Act;
use std::alloc::{AllocError, Global};

// Node 1 of two, which manages lock 1, makes all this with no message.
const TEXT: &[u8] = b"words 70; locks 2; i = 0;
    while i < 6 { acquire 1; x = [0]; [0] = x + 1; [64 + i] = x; release 1; i = i + 1; } y = [69]; print x; print y;";

const OPTIONS: Options = Options {
    steps: 1000,
    collect: 0,
    first: 0,
    size: Size::Words64,
};

/// What became of the messages: how many were refused, and whether one was taken.
#[derive(Clone, Copy)]
struct Offered {
    refused: u32,
    is_one_taken: bool,
}

const NOTHING: Offered = Offered {
    refused: 0,
    is_one_taken: false,
};

/// What a node answers to bytes.
#[derive(Clone, Copy)]
enum Answer {
    NoMessage,
    Refused,
    Taken,
}

fn is_refused(node: &mut Node<'_>, messages: &[Envelope]) -> bool {
    match messages.first() {
        Some(message) => node.take(message).err() == Some(NodeFault::Unexpected),
        None => false,
    }
}

fn answer_to(alloc: Global, node: &mut Node<'_>, bytes: &[u8]) -> Answer {
    let mut messages = Vec::new(alloc);
    if push_read(alloc, &mut messages, bytes).is_err() {
        return Answer::NoMessage;
    }
    if is_refused(node, &messages) {
        Answer::Refused
    } else {
        Answer::Taken
    }
}

/// The answer to one damaged message. There is none where memory is refused.
fn next_answer(alloc: Global, node: &mut Node<'_>, random: &mut Random) -> Option<Answer> {
    let mut bytes = Vec::new(alloc);
    match put_damaged(&mut bytes, random) {
        Ok(()) => Some(answer_to(alloc, node, &bytes)),
        Err(_) => None,
    }
}

/// Offers so many damaged messages, up to the first that is taken, and answers whether there was memory.
fn offer(
    alloc: Global,
    node: &mut Node<'_>,
    random: &mut Random,
    count: usize,
    offered: &mut Offered,
) -> bool {
    for _ in 0..count {
        match next_answer(alloc, node, random) {
            Some(Answer::NoMessage) => {}
            Some(Answer::Refused) => offered.refused = offered.refused.saturating_add(1),
            Some(Answer::Taken) => {
                offered.is_one_taken = true;
                return true;
            }
            None => return false,
        }
    }
    true
}

/// The act of the node's next turn, if it takes one, and if the turn has one.
fn next_act(node: &mut Node<'_>) -> Option<Option<Act>> {
    match node.run() {
        Ok(turn) => Some(turn.act),
        Err(_) => None,
    }
}

/// Whether the node ends within 200 turns, with so many messages offered before each of them.
fn ends(
    alloc: Global,
    node: &mut Node<'_>,
    random: &mut Random,
    count: usize,
    acts: &mut Vec<Act>,
    offered: &mut Offered,
) -> Result<bool, AllocError> {
    for _turn in 0..200u32 {
        if !offer(alloc, node, random, count, offered) {
            return Ok(false);
        }
        match next_act(node) {
            Some(Some(act)) => acts.push(act)?,
            Some(None) => {}
            None => return Ok(true),
        }
    }
    Ok(false)
}

/// Adds the acts of a node, with so many messages offered before each turn, and answers what became of these.
fn play(
    alloc: Global,
    node: &mut Node<'_>,
    random: &mut Random,
    count: usize,
    acts: &mut Vec<Act>,
) -> Option<Offered> {
    let mut offered = NOTHING;
    match ends(alloc, node, random, count, acts, &mut offered) {
        Ok(true) => Some(offered),
        _ => None,
    }
}

/// Adds node 1 of two at its beginning.
fn push_node<'c>(
    alloc: Global,
    nodes: &mut Vec<Node<'c>>,
    code: &'c Code<'_>,
) -> Result<(), AllocError> {
    nodes.push(Node::new(alloc, code, 1, 2, &OPTIONS)?)?;
    Ok(())
}

/// The same of node 1, from its first turn.
fn play_first(
    alloc: Global,
    code: &Code<'_>,
    random: &mut Random,
    count: usize,
    acts: &mut Vec<Act>,
) -> Option<Offered> {
    let mut nodes = Vec::new(alloc);
    if push_node(alloc, &mut nodes, code).is_err() {
        return None;
    }
    match nodes.first_mut() {
        Some(node) => play(alloc, node, random, count, acts),
        None => None,
    }
}

/// How many nodes refused all, and how many messages those refused.
#[derive(Clone, Copy)]
struct Tally {
    unmoved: u32,
    refused: u32,
}

/// Whether one more node ends, and with the acts of one that was left alone where it refuses all.
fn is_unmoved(
    alloc: Global,
    code: &Code<'_>,
    random: &mut Random,
    alone: &[Act],
    tally: &mut Tally,
) -> bool {
    let mut acts = Vec::new(alloc);
    let Some(offered) = play_first(alloc, code, random, 6, &mut acts) else {
        return false;
    };
    if offered.is_one_taken {
        return true;
    }
    tally.unmoved = tally.unmoved.saturating_add(1);
    tally.refused = tally.refused.saturating_add(offered.refused);
    acts.as_slice() == alone
}

fn are_unmoved(
    alloc: Global,
    code: &Code<'_>,
    random: &mut Random,
    alone: &[Act],
    count: u32,
) -> bool {
    let mut tally = Tally {
        unmoved: 0,
        refused: 0,
    };
    for _ in 0..count {
        if !is_unmoved(alloc, code, random, alone, &mut tally) {
            return false;
        }
    }
    tally.unmoved > 4 && tally.refused > 400
}

/// Whether so many nodes run this as one does that was left alone, and some of them refuse all.
fn are_as_alone(alloc: Global, code: &Code<'_>, seed: u64, count: u32) -> bool {
    let mut random = Random::new(seed);
    let mut alone = Vec::new(alloc);
    play_first(alloc, code, &mut random, 0, &mut alone).is_some()
        && are_unmoved(alloc, code, &mut random, &alone, count)
}

fn run_as_alone(alloc: Global, program: &Program, seed: u64, count: u32) -> bool {
    match Code::new(alloc, program) {
        Ok(code) => are_as_alone(alloc, &code, seed, count),
        Err(_) => false,
    }
}

fn end_as_alone(alloc: Global, seed: u64, count: u32) -> bool {
    match parse(alloc, TEXT) {
        Ok(program) => run_as_alone(alloc, &program, seed, count),
        Err(_) => false,
    }
}

#[test]
fn a_node_ends_as_if_what_it_refuses_had_not_come(rt: HostRuntime) {
    holds(&rt, end_as_alone(rt.alloc(), 5, 40));
}
