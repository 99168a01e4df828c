// What comes of a call for which memory may be refused.

use lrc_lang::parse;
use lrc_node::Options;
use lrc_page::Size;
use lrc_program::Program;
use lrc_trace::act::{Act, Deed};
use std::alloc::Global;
use std::process::Abort;

/// What comes of a run.
#[derive(Clone, Copy, PartialEq, Eq)]
pub enum Answer {
    /// A report with what the nodes are to print.
    Whole,
    /// The answer that memory was refused.
    NoMemory,
    /// Anything else.
    Other,
}

/// As many steps as a node may be given, and pages of 64 words.
pub fn options(collect: u32) -> Options {
    Options {
        steps: 1_000_000,
        collect,
        first: 0,
        size: Size::Words64,
    }
}

/// A program, parsed a second time where memory was refused.
pub fn parsed_at_last(alloc: Global, text: &[u8]) -> Option<Program> {
    match parse(alloc, text) {
        Ok(program) => Some(program),
        Err(_) => parse(alloc, text).ok(),
    }
}

// What is left of these values behind those that a node prints; none if it prints others.
fn rest_after<'w>(acts: &[Act], node: u8, wanted: &'w [u64]) -> Option<&'w [u64]> {
    let mut rest = wanted;
    for act in acts {
        if act.node == node
            && let Deed::Print(value) = act.deed
        {
            let (first, others) = rest.split_first()?;
            if *first != value {
                return None;
            }
            rest = others;
        }
    }
    Some(rest)
}

/// A report with these acts, where three nodes are to print these values, those of node 0 first.
pub fn of_acts(acts: &[Act], wanted: &[u64]) -> Answer {
    let mut rest = wanted;
    for node in 0..3u8 {
        let Some(others) = rest_after(acts, node, rest) else {
            return Answer::Other;
        };
        rest = others;
    }
    if rest.is_empty() {
        Answer::Whole
    } else {
        Answer::Other
    }
}

/// Fails unless both answers are whole, or one growth was refused, and so one answer says so.
pub fn are_answers(rt: &impl Abort, answers: [Answer; 2]) {
    let is = answers == [Answer::Whole, Answer::Whole]
        || answers == [Answer::NoMemory, Answer::Whole]
        || answers == [Answer::Whole, Answer::NoMemory];
    assert!(rt; is);
}
