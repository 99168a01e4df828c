// What is said where the system gives no words.

use crate::checks::passes;
use lrc_shell::{Kept, LateLine, System, start};
use std::fs::Files;
use std::io;
use std::io::{Eprint, ErrorKind, Input};
use std::sync::Wait;
use std::thread::Threads;
use std::time::Clock;

/// The error with which the arguments cannot be read, what is said, and the status.
struct Row {
    name: &'static str,
    kind: ErrorKind,
    line: &'static [u8],
    status: u8,
}

const ROWS: &[Row] = &[
    Row {
        name: "words that are no text are a fault of usage",
        kind: ErrorKind::InvalidData,
        line: b"error: invalid UTF-8 was detected in one or more arguments\n",
        status: 2,
    },
    Row {
        name: "words for which there is no memory are a fault",
        kind: ErrorKind::OutOfMemory,
        line: b"treadmarks: out of memory\n",
        status: 1,
    },
];

/// Whether the line of a row is all that is said, with its status.
fn is_refused<R>(rt: &R, row: &Row) -> bool
where
    R: Threads + Wait + Sync + Clock + Files + Input + Eprint + AllocGlobal,
{
    let mut out = Kept::new(Vec::new(rt.alloc()));
    let mut err = Vec::new(rt.alloc());
    let unread = Err(io::Error::from(row.kind));
    let late: Option<LateLine<'_, R>> = None;
    let given = start(rt, unread, &System { rt }, late, &mut out, &mut err);
    given == row.status && out.writer.is_empty() && err.as_slice() == row.line
}

fn first_wrong<R>(rt: &R) -> Option<&'static str>
where
    R: Threads + Wait + Sync + Clock + Files + Input + Eprint + AllocGlobal,
{
    for row in ROWS {
        if !is_refused(rt, row) {
            return Some(row.name);
        }
    }
    None
}

#[test]
fn words_that_cannot_be_read_are_a_fault(rt: HostRuntime) {
    passes(&rt, first_wrong(&rt));
}
