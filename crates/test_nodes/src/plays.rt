// A node by itself, and what is done with it.

use lrc_envelope::Envelope;
use lrc_exec::code::Code;
use lrc_lang::parse;
use lrc_log::Turn;
use lrc_node::{End, Node, NodeFault, Options};
use lrc_page::Size;
use lrc_program::Program;
use lrc_trace::act::Deed;
use lrc_wire::{decode, encode};
use std::alloc::Global;

/// What comes of a turn: the node and the deed of the act that it makes, and how many messages it sends.
pub type Outline = Result<(Option<(u8, Deed)>, usize), NodeFault>;

/// What is done with a node, or wanted of it. The first message of the last turn that sent one is at hand.
#[derive(Clone, Copy)]
pub enum Step<'a> {
    /// It goes on by itself so often, whatever comes of it.
    Often(u32),
    /// It goes on by itself, and this comes of it.
    Runs(Outline),
    /// It takes the message of these bytes, or the one at hand, and this comes of it.
    Takes(Option<&'a [u8]>, Outline),
    /// It is ready, or not, and ended so.
    Stands(bool, End),
}

/// A text, the node that runs it, of how many, the number of its first message, and the steps.
pub struct Play<'a> {
    pub text: &'a [u8],
    pub node: u8,
    pub nodes: u8,
    pub first: u32,
    pub steps: &'a [Step<'a>],
}

fn run_often(node: &mut Node<'_>, often: u32) -> bool {
    for _ in 0..often {
        let _ = node.run();
    }
    true
}

/// Whether a message is at hand, as its bytes.
fn keeps(alloc: Global, at_hand: &mut Vec<u8>, envelope: &Envelope) -> bool {
    match encode(alloc, envelope) {
        Ok(bytes) => {
            at_hand.clear();
            at_hand.extend_from_slice(&bytes).is_ok()
        }
        Err(_) => false,
    }
}

/// Whether a turn makes this act and sends so many messages, the first of which is at hand then.
fn is_turn(
    alloc: Global,
    at_hand: &mut Vec<u8>,
    turn: &Turn,
    act: Option<(u8, Deed)>,
    count: usize,
) -> bool {
    let made = match turn.act {
        Some(act) => Some((act.node, act.deed)),
        None => None,
    };
    let kept = match turn.out.first() {
        Some(envelope) => keeps(alloc, at_hand, envelope),
        None => true,
    };
    kept && made == act && turn.out.len() == count
}

/// Whether this comes of a turn.
fn comes_of(
    alloc: Global,
    at_hand: &mut Vec<u8>,
    turn: &Result<Turn, NodeFault>,
    wanted: Outline,
) -> bool {
    match (turn, wanted) {
        (Ok(turn), Ok((act, count))) => is_turn(alloc, at_hand, turn, act, count),
        (Err(fault), Err(wanted)) => *fault == wanted,
        _ => false,
    }
}

fn runs(alloc: Global, node: &mut Node<'_>, at_hand: &mut Vec<u8>, wanted: Outline) -> bool {
    let turn = node.run();
    comes_of(alloc, at_hand, &turn, wanted)
}

fn takes_message(
    alloc: Global,
    node: &mut Node<'_>,
    at_hand: &mut Vec<u8>,
    envelope: Envelope,
    wanted: Outline,
) -> bool {
    let turn = node.take(&envelope);
    comes_of(alloc, at_hand, &turn, wanted)
}

fn takes(
    alloc: Global,
    node: &mut Node<'_>,
    at_hand: &mut Vec<u8>,
    message: Option<&[u8]>,
    wanted: Outline,
) -> bool {
    let read = match message {
        Some(bytes) => decode(alloc, bytes),
        None => decode(alloc, at_hand),
    };
    match read {
        Ok(envelope) => takes_message(alloc, node, at_hand, envelope, wanted),
        Err(_) => false,
    }
}

fn meets(alloc: Global, node: &mut Node<'_>, at_hand: &mut Vec<u8>, step: Step) -> bool {
    match step {
        Step::Often(often) => run_often(node, often),
        Step::Runs(wanted) => runs(alloc, node, at_hand, wanted),
        Step::Takes(message, wanted) => takes(alloc, node, at_hand, message, wanted),
        Step::Stands(ready, end) => node.ready() == ready && node.end() == end,
    }
}

fn meets_each(alloc: Global, node: &mut Node<'_>, at_hand: &mut Vec<u8>, steps: &[Step]) -> bool {
    for step in steps {
        if !meets(alloc, node, at_hand, *step) {
            return false;
        }
    }
    true
}

fn meets_all(alloc: Global, node: Node<'_>, at_hand: &mut Vec<u8>, steps: &[Step]) -> bool {
    let mut node = node;
    meets_each(alloc, &mut node, at_hand, steps)
}

fn plays_fresh(alloc: Global, code: &Code<'_>, at_hand: &mut Vec<u8>, play: &Play) -> bool {
    let options = Options {
        steps: 1000,
        collect: 0,
        first: play.first,
        size: Size::Words64,
    };
    if play.node >= play.nodes || play.nodes > 16 {
        return false;
    }
    match Node::new(alloc, code, play.node, play.nodes, &options) {
        Ok(node) => meets_all(alloc, node, at_hand, play.steps),
        Err(_) => false,
    }
}

fn plays_program(alloc: Global, program: &Program, at_hand: &mut Vec<u8>, play: &Play) -> bool {
    match Code::new(alloc, program) {
        Ok(code) => plays_fresh(alloc, &code, at_hand, play),
        Err(_) => false,
    }
}

/// Whether the node meets each of the steps, with this message at hand before them.
pub fn plays(alloc: Global, at_hand: &mut Vec<u8>, play: &Play) -> bool {
    match parse(alloc, play.text) {
        Ok(program) => plays_program(alloc, &program, at_hand, play),
        Err(_) => false,
    }
}

/// Whether the node meets each of the steps, with no message at hand before them.
pub fn plays_alone(alloc: Global, play: &Play) -> bool {
    let mut at_hand = Vec::new(alloc);
    plays(alloc, &mut at_hand, play)
}
