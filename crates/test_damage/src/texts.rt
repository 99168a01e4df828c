// Random texts: each is a program, or has its first fault in one of its lines.

use crate::checks::holds;
use crate::random::Random;
use lrc_lang::fault::{FaultKind, ParseFault};
use lrc_lang::parse;
use std::alloc::{AllocError, Global};

const WORDS: [&[u8]; 30] = [
    b"words 9;",
    b"locks 2;",
    b"if",
    b"else",
    b"while",
    b"me",
    b"nodes",
    b"barrier;",
    b"acquire 0;",
    b"release 0;",
    b"print x;",
    b"x = 1;",
    b"x = [0];",
    b"[1] = x;",
    b"{",
    b"}",
    b"(",
    b")",
    b"x",
    b"y",
    b"1",
    b"18446744073709551616",
    b"+",
    b"==",
    b"%",
    b";",
    b"\n",
    b"# some words\n",
    b"\xff",
    b"[me]",
];

const HEAD: &[u8] = b"words 9; locks 2;\n";

/// Puts a head that each program has, or none, and so many random words.
fn put_text(text: &mut Vec<u8>, random: &mut Random) -> Result<(), AllocError> {
    if random.below(8) != 0 {
        text.extend_from_slice(HEAD)?;
    }
    for _ in 0..random.below(7) {
        text.extend_from_slice(random.one_of(&WORDS).unwrap_or(b""))?;
        text.push(b' ')?;
    }
    Ok(())
}

fn lines_in(text: &[u8]) -> u32 {
    let mut lines: u32 = 1;
    for byte in text {
        if *byte == b'\n' {
            lines = lines.saturating_add(1);
        }
    }
    lines
}

fn fault_of(alloc: Global, text: &[u8]) -> Option<ParseFault> {
    parse(alloc, text).err()
}

/// How many texts are programs, and how many have a fault.
#[derive(Clone, Copy)]
struct Tally {
    programs: u32,
    faults: u32,
}

/// Counts a text, and answers whether its fault, if it has one, is in a line of its own.
fn is_told(alloc: Global, text: &[u8], tally: &mut Tally) -> bool {
    match fault_of(alloc, text) {
        Some(fault) => {
            tally.faults = tally.faults.saturating_add(1);
            fault.kind != FaultKind::NoMemory && 1 <= fault.line && fault.line <= lines_in(text)
        }
        None => {
            tally.programs = tally.programs.saturating_add(1);
            true
        }
    }
}

fn is_next_told(alloc: Global, random: &mut Random, tally: &mut Tally) -> bool {
    let mut text = Vec::new(alloc);
    put_text(&mut text, random).is_ok() && is_told(alloc, &text, tally)
}

/// Whether of so many texts none has a fault in no line of its own, and many are programs and many have a fault.
fn are_told(alloc: Global, seed: u64, count: u32) -> bool {
    let mut random = Random::new(seed);
    let mut tally = Tally {
        programs: 0,
        faults: 0,
    };
    for _ in 0..count {
        if !is_next_told(alloc, &mut random, &mut tally) {
            return false;
        }
    }
    tally.programs > 400 && tally.faults > 400
}

#[test]
fn a_text_is_a_program_or_has_a_fault_in_a_line_of_its_own(rt: HostRuntime) {
    holds(&rt, are_told(rt.alloc(), 2, 4000));
}
