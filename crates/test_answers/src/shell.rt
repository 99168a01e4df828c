// A program with the acts of a run, and what is told of them.

use lrc_acts::reading::acts_of;
use lrc_exec::code::Code;
use lrc_explain::explain;
use lrc_explain_waits::{Wording, stuck_part};
use lrc_judge::order::happens_before;
use lrc_labels::label::Label;
use lrc_labels::read_labels;
use lrc_lang::lines::lines_of;
use lrc_lang::parse;
use lrc_program::Program;
use lrc_trace::act::Act;
use std::alloc::Global;

/// As many steps as a node may be given.
pub const ALL_STEPS: u32 = 1_000_000;

/// What the nodes of a program did, each with so many steps, and what should be told of it.
pub struct Case {
    pub name: &'static str,
    /// The text of the program, with its label lines.
    pub text: &'static [u8],
    pub nodes: u8,
    pub steps: u32,
    /// The acts, one on each line.
    pub acts: &'static [u8],
    /// The first act that races with an earlier one.
    pub first_race: Option<usize>,
    pub told: &'static [u8],
}

/// Whether these parts, one behind the other, are this text.
fn are_parts_of(parts: &[Vec<u8>], text: &[u8]) -> bool {
    let mut rest = text;
    for part in parts {
        match rest.strip_prefix(part.as_slice()) {
            Some(behind) => rest = behind,
            None => return false,
        }
    }
    rest.is_empty()
}

fn is_explained_of(
    alloc: Global,
    labels: &[Label<'_>],
    code: &Code<'_>,
    lines: &[u32],
    acts: &[Act],
    case: &Case,
) -> bool {
    if !acts.iter().all(|act| act.node < 16) {
        return false;
    }
    let Ok(order) = happens_before(alloc, acts) else {
        return false;
    };
    match explain(
        alloc,
        labels,
        &[],
        code,
        lines,
        case.nodes,
        case.steps,
        acts,
        &order,
        case.first_race,
    ) {
        Ok(parts) => are_parts_of(&parts, case.told),
        Err(_) => false,
    }
}

fn is_told_of(
    alloc: Global,
    labels: &[Label<'_>],
    code: &Code<'_>,
    lines: &[u32],
    acts: &[Act],
    case: &Case,
) -> bool {
    let wording = Wording {
        labels,
        traps: None,
    };
    match stuck_part(alloc, &wording, code, lines, case.nodes, None, acts) {
        Ok(part) => part.as_slice() == case.told,
        Err(_) => false,
    }
}

/// What is asked of a case: whether just what should be told of the whole run is told, or just what should be told of those nodes that
/// are unfinished, where no number of steps is given.
#[derive(Clone, Copy)]
pub enum Question {
    Explained,
    Unfinished,
}

fn is_so(
    alloc: Global,
    labels: &[Label<'_>],
    code: &Code<'_>,
    lines: &[u32],
    acts: &[Act],
    case: &Case,
    question: Question,
) -> bool {
    match question {
        Question::Explained => is_explained_of(alloc, labels, code, lines, acts, case),
        Question::Unfinished => is_told_of(alloc, labels, code, lines, acts, case),
    }
}

fn is_so_of_acts(
    alloc: Global,
    labels: &[Label<'_>],
    code: &Code<'_>,
    lines: &[u32],
    case: &Case,
    question: Question,
) -> bool {
    match acts_of(alloc, case.acts, None) {
        Ok(lined) => is_so(alloc, labels, code, lines, &lined.acts, case, question),
        Err(_) => false,
    }
}

fn is_so_of_lines(
    alloc: Global,
    labels: &[Label<'_>],
    code: &Code<'_>,
    case: &Case,
    question: Question,
) -> bool {
    match lines_of(alloc, case.text) {
        Ok(lines) => is_so_of_acts(alloc, labels, code, &lines, case, question),
        Err(_) => false,
    }
}

fn is_so_of_labels(
    alloc: Global,
    labels: &[Label<'_>],
    program: &Program,
    case: &Case,
    question: Question,
) -> bool {
    match Code::new(alloc, program) {
        Ok(code) => is_so_of_lines(alloc, labels, &code, case, question),
        Err(_) => false,
    }
}

fn is_so_of_program(alloc: Global, program: &Program, case: &Case, question: Question) -> bool {
    match read_labels(alloc, case.text, program.words, program.locks) {
        Ok(labels) => is_so_of_labels(alloc, &labels.said, program, case, question),
        Err(_) => false,
    }
}

fn is_met(alloc: Global, case: &Case, question: Question) -> bool {
    match parse(alloc, case.text) {
        Ok(program) => is_so_of_program(alloc, &program, case, question),
        Err(_) => false,
    }
}

/// The name of the first case of which what is asked is not so.
pub fn first_wrong(alloc: Global, cases: &[Case], question: Question) -> Option<&'static str> {
    for case in cases {
        if !is_met(alloc, case, question) {
            return Some(case.name);
        }
    }
    None
}
