// Texts of acts, beside the acts and lines that they say.

use crate::checks::passes;
use lrc_acts::reading::{ActsFault, acts_of};
use lrc_trace::act::{Act, Cause, Deed};
use std::alloc::Global;

/// What a text says.
#[derive(Clone, Copy)]
enum Wanted {
    /// These acts on these lines.
    Acts(&'static [Act], &'static [u32]),
    /// Nothing, since this line is the first bad one.
    BadLine(u32),
}

/// A text, how many nodes there are, where it is given, and what the text says.
struct Row {
    name: &'static str,
    text: &'static [u8],
    nodes: Option<u32>,
    wanted: Wanted,
}

fn are_said(acts: &[Act], lines: &[u32], wanted: Wanted) -> bool {
    match wanted {
        Wanted::Acts(said, on) => acts == said && lines == on,
        Wanted::BadLine(_) => false,
    }
}

fn is_bad(fault: ActsFault, wanted: Wanted) -> bool {
    match wanted {
        Wanted::Acts(_, _) => false,
        Wanted::BadLine(line) => fault == ActsFault::BadAct(line),
    }
}

fn is_met(alloc: Global, row: &Row) -> bool {
    match acts_of(alloc, row.text, row.nodes) {
        Ok(lined) => are_said(&lined.acts, &lined.lines, row.wanted),
        Err(fault) => is_bad(fault, row.wanted),
    }
}

fn first_wrong(alloc: Global, rows: &[Row]) -> Option<&'static str> {
    for row in rows {
        if !is_met(alloc, row) {
            return Some(row.name);
        }
    }
    None
}

const READ: &[Row] = &[
    Row {
        name: "blanks, comments and empty lines are no words",
        text: b"\t0  write\t0   1 \r\n# head\n\n 0 read 0 1#comment\r\n0 end\r",
        nodes: None,
        wanted: Wanted::Acts(
            &[
                Act {
                    node: 0,
                    deed: Deed::Write(0, 1),
                },
                Act {
                    node: 0,
                    deed: Deed::Read(0, 1),
                },
                Act {
                    node: 0,
                    deed: Deed::End,
                },
            ],
            &[1, 4, 5],
        ),
    },
    Row {
        name: "the greatest numbers are read",
        text: b"15 write 4294967295 18446744073709551615\n15 acquire 255\n15 release 0255\n015 print 00\n15 trap 5\n",
        nodes: None,
        wanted: Wanted::Acts(
            &[
                Act {
                    node: 15,
                    deed: Deed::Write(u32::MAX, u64::MAX),
                },
                Act {
                    node: 15,
                    deed: Deed::Acquire(255),
                },
                Act {
                    node: 15,
                    deed: Deed::Release(255),
                },
                Act {
                    node: 15,
                    deed: Deed::Print(0),
                },
                Act {
                    node: 15,
                    deed: Deed::Trap(Cause::LockNotHeld),
                },
            ],
            &[1, 2, 3, 4, 5],
        ),
    },
];

#[test]
fn acts_are_read(rt: HostRuntime) {
    passes(&rt, first_wrong(rt.alloc(), READ));
}

const BAD: &[Row] = &[
    Row {
        name: "an unknown deed",
        text: b"# one\n0 quiet\n0 lock 1\n0 nonsense\n",
        nodes: None,
        wanted: Wanted::BadLine(3),
    },
    Row {
        name: "a node past 15",
        text: b"16 end\n",
        nodes: None,
        wanted: Wanted::BadLine(1),
    },
    Row {
        name: "a node past those there are",
        text: b"0 end\n2 end\n5 lock\n",
        nodes: Some(2),
        wanted: Wanted::BadLine(2),
    },
    Row {
        name: "a lock past 255",
        text: b"0 acquire 256",
        nodes: None,
        wanted: Wanted::BadLine(1),
    },
    Row {
        name: "a trap 0",
        text: b"0 trap 0",
        nodes: None,
        wanted: Wanted::BadLine(1),
    },
    Row {
        name: "a trap 6",
        text: b"0 trap 6",
        nodes: None,
        wanted: Wanted::BadLine(1),
    },
    Row {
        name: "a negative number",
        text: b"0 print -1",
        nodes: None,
        wanted: Wanted::BadLine(1),
    },
    Row {
        name: "a value past the greatest",
        text: b"0 print 18446744073709551616",
        nodes: None,
        wanted: Wanted::BadLine(1),
    },
    Row {
        name: "a word past the greatest",
        text: b"0 read 4294967296 0",
        nodes: None,
        wanted: Wanted::BadLine(1),
    },
    Row {
        name: "a number too few",
        text: b"0 read 1",
        nodes: None,
        wanted: Wanted::BadLine(1),
    },
    Row {
        name: "a number too many",
        text: b"0 read 1 2 3",
        nodes: None,
        wanted: Wanted::BadLine(1),
    },
    Row {
        name: "a vertical tab",
        text: b"0\x0bend\n",
        nodes: None,
        wanted: Wanted::BadLine(1),
    },
    Row {
        name: "a node alone",
        text: b"0",
        nodes: None,
        wanted: Wanted::BadLine(1),
    },
];

#[test]
fn the_first_bad_line_is_named(rt: HostRuntime) {
    passes(&rt, first_wrong(rt.alloc(), BAD));
}
