// Lines of a trace, and what each says.

use lrc_races_lines::line::Kind::{
    Acquire, Arrive, Depart, Fork, Idle, Join, Post, Read, Release, Wait, Write,
};
use lrc_races_lines::line::{Kind, Line, Named};
use lrc_races_lines::reading::read_line;
use std::alloc::{AllocError, Global};

/// A line with an event, beside its thread, what it does, the target and the location.
type Row = (
    &'static [u8],
    &'static [u8],
    Kind,
    &'static [u8],
    &'static [u8],
);

const EVENTS: &[Row] = &[
    (b"t1|r(x)|1", b"t1", Read, b"x", b"1"),
    (b"t1|w(x)", b"t1", Write, b"x", b""),
    (b"t1|acq(L)|", b"t1", Acquire, b"L", b""),
    (b"t1|rel(L)|2", b"t1", Release, b"L", b"2"),
    (b"t1|post(L)|2", b"t1", Post, b"L", b"2"),
    (b"t1|wait(L)|2", b"t1", Wait, b"L", b"2"),
    (b"t1|fork(t2)|3", b"t1", Fork, b"t2", b"3"),
    (b"t1|join(t2)|3", b"t1", Join, b"t2", b"3"),
    (b"t1|arrive(X.7)|3", b"t1", Arrive, b"X.7", b"3"),
    (b"t1|depart(X.7)|3", b"t1", Depart, b"X.7", b"3"),
    // idle operations, alone, with a method, and with nothing in their parentheses
    (b"t1|begin|4", b"t1", Idle, b"", b"4"),
    (b"t1|end", b"t1", Idle, b"", b""),
    (b"t1|enter(void m(int, (a)))|4", b"t1", Idle, b"", b"4"),
    (b"t1|exit()|4", b"t1", Idle, b"", b"4"),
    (b"t1|req(L)|4", b"t1", Idle, b"", b"4"),
    (b"t1|branch|4", b"t1", Idle, b"", b"4"),
    // a blank, a carriage return and the sign of a comment stand for themselves within a line
    (b" t1 |w( x )| 1 ", b" t1 ", Write, b" x ", b" 1 "),
    (b"T\r|w(x\r)|1\r2", b"T\r", Write, b"x\r", b"1\r2"),
    (b"T#|w(#)|#", b"T#", Write, b"#", b"#"),
    (b"t1|w(x)|f(1)", b"t1", Write, b"x", b"f(1)"),
    // one carriage return at the end is no part of the line, and one alone
    (b"t1|w(x)|1\r", b"t1", Write, b"x", b"1"),
    (b"t1|w(x)\r", b"t1", Write, b"x", b""),
    (b"t1|w(x)|1\r\r", b"t1", Write, b"x", b"1\r"),
];

const NOTHING: &[&[u8]] = &[b"", b"\r", b"#", b"# t1|r(x)|1", b"#\r"];

const BAD: &[&[u8]] = &[
    b" ",
    b" # no comment",
    b"\r\r",
    b"t2|w(x",
    b"t2|hear(x)|",
    b"t1|ends|1",
    b"t1|begin(x|1",
    b"t1|w(x)|1|",
    b"t1 r(x)",
    b"t1|r (x)|1",
    b"t1| r(x)|1",
    b"t1|R(x)|1",
    b"t1||1",
    b"t1|read(x)|2",
    b"t1|w(x|y)|1",
    b"t1|w(x)y|1",
    b"t1|acq()|1",
    b"t1|w|1",
    b"t1|w(x(1))|1",
    b"|r(x)|1",
    b"T(1|r(x)|1",
    b"t1|w(x)\r\r",
];

fn is_event(named: Named<'_>, row: &Row) -> bool {
    named.thread == row.1 && named.kind == row.2 && named.target == row.3 && named.location == row.4
}

fn reads_event(row: &Row) -> bool {
    match read_line(row.0) {
        Line::Event(named) => is_event(named, row),
        _ => false,
    }
}

fn is_bad(line: &[u8]) -> bool {
    match read_line(line) {
        Line::Bad => true,
        _ => false,
    }
}

fn is_nothing(line: &[u8]) -> bool {
    match read_line(line) {
        Line::Nothing => true,
        _ => false,
    }
}

// These bytes, so many of one, and those.
fn filled(
    alloc: Global,
    before: &[u8],
    byte: u8,
    count: usize,
    behind: &[u8],
) -> Result<Vec<u8>, AllocError> {
    let mut line = Vec::from_slice(alloc, before)?;
    for _ in 0..count {
        line.push(byte)?;
    }
    line.extend_from_slice(behind)?;
    Ok(line)
}

// Whether the line is bad just from this count on.
fn is_longest(alloc: Global, before: &[u8], count: u16, behind: &[u8]) -> Result<bool, AllocError> {
    let good = filled(alloc, before, b'x', count as usize, behind)?;
    let long = filled(alloc, before, b'x', count as usize + 1, behind)?;
    Ok(!is_bad(good.as_slice()) && is_bad(long.as_slice()))
}

fn are_longest(alloc: Global) -> Result<bool, AllocError> {
    let thread = is_longest(alloc, b"", 255, b"|w(x)|1")?;
    let target = is_longest(alloc, b"t1|acq(", 255, b")|1")?;
    let location = is_longest(alloc, b"t1|w(x)|", 255, b"")?;
    let idle = is_longest(alloc, b"t1|enter(", 255, b")|")?;
    let comment = is_longest(alloc, b"#", 4095, b"")?;
    let returned = is_longest(alloc, b"#", 4094, b"\r")?;
    Ok(thread && target && location && idle && comment && returned)
}

fn is_so(answer: Result<bool, AllocError>) -> bool {
    match answer {
        Ok(so) => so,
        Err(_) => false,
    }
}

#[test]
fn each_operation_is_read_with_its_names(rt: HostRuntime) {
    assert!(rt; EVENTS.iter().all(|row| reads_event(row)));
}

#[test]
fn comments_and_empty_lines_say_nothing(rt: HostRuntime) {
    assert!(rt; NOTHING.iter().all(|line| is_nothing(line)));
}

#[test]
fn what_has_not_the_form_is_bad(rt: HostRuntime) {
    assert!(rt; BAD.iter().all(|line| is_bad(line)));
}

#[test]
fn names_and_lines_are_bounded(rt: HostRuntime) {
    assert!(rt; is_so(are_longest(rt.alloc())));
}
