// Texts of events that are too large for a file, and thousands of races.

use crate::checks::passes;
use crate::shell::{ON_ONE_NODE, Outcome, done, played};
use lrc_cli_args::choice::{Choice, Nodes, RunChoice, RunOptions, Shape, Way};
use lrc_envelope::Picker;
use std::alloc::{AllocError, Global};
use std::sync::Wait;
use std::thread::Threads;

/// A program of one node, its events by parts that each stand so often, and what is written.
struct Row {
    name: &'static str,
    text: &'static [u8],
    events: &'static [(&'static [u8], u32)],
    out: &'static [u8],
    err: &'static [u8],
    status: u8,
}

// 30,001 conditions, 30,000 sums, the print and the end.
const SUMS: &[u8] = b"words 1; locks 0; while x < 30000 { x = x + 1; } print x;";

const PRINTING: &[u8] = b"words 1; locks 0; [0] = 7; x = [0]; print x + me;";

const FEEDS: &[u8] = &[b'\n'; 4096];

const ROWS: &[Row] = &[
    Row {
        name: "60,002 events, and the end is not among them",
        text: SUMS,
        events: &[(b"run 0\n", 60_002)],
        out: b"node 0 prints 30000\nnode 0 unfinished\n",
        err: b"",
        status: 4,
    },
    Row {
        name: "60,003 events, the end the last of them",
        text: SUMS,
        events: &[(b"run 0\n", 60_003)],
        out: b"node 0 prints 30000\nnode 0 ended\n",
        err: b"",
        status: 0,
    },
    Row {
        name: "16,777,216 line feeds, as many bytes as a text of events may have",
        text: PRINTING,
        events: &[(FEEDS, 4096)],
        out: b"node 0 unfinished\n",
        err: b"",
        status: 4,
    },
    Row {
        name: "16,777,217 line feeds",
        text: PRINTING,
        events: &[(FEEDS, 4096), (b"\n", 1)],
        out: b"",
        err: b"treadmarks: events line 1: bad event\n",
        status: 1,
    },
];

/// Puts each part behind the text, as often as it stands there.
pub fn put_parts(text: &mut Vec<u8>, parts: &[(&[u8], u32)]) -> Result<(), AllocError> {
    for (part, times) in parts {
        for _ in 0..*times {
            text.extend_from_slice(part)?;
        }
    }
    Ok(())
}

fn is_played<R: Threads + Wait + Sync + AllocGlobal>(rt: &R, row: &Row) -> bool {
    let mut events = Vec::new(rt.alloc());
    put_parts(&mut events, row.events).is_ok()
        && played(rt, ON_ONE_NODE, row.text, &events).is(row.out, row.err, row.status)
}

fn first_wrong<R: Threads + Wait + Sync + AllocGlobal>(rt: &R) -> Option<&'static str> {
    for row in ROWS {
        if !is_played(rt, row) {
            return Some(row.name);
        }
    }
    None
}

#[test]
fn large_texts_of_events_are_played(rt: HostRuntime) {
    passes(&rt, first_wrong(&rt));
}

/// How many lines of a text name a race.
fn races_in(out: &[u8]) -> usize {
    let mut lines: usize = 0;
    for line in out.split(|byte| *byte == b'\n') {
        if line.starts_with(b"race word ") {
            lines = lines.saturating_add(1);
        }
    }
    lines
}

const CONFLICTING: &[u8] = b"words 4096; locks 0; while x < 64 { [x * 64] = me; x = x + 1; }";

const OF_SIXTEEN: Choice<'static> = Choice::Show(
    RunChoice {
        options: RunOptions {
            nodes: Nodes { count: 16 },
            ..ON_ONE_NODE
        },
        way: Way::Rounds(Picker::Oldest),
    },
    Shape::Report,
);

/// Whether so many races are named, and these lines are the last.
fn names_races(run: &Outcome, races: usize, last: &[u8]) -> bool {
    races_in(&run.out) == races && run.out.ends_with(last) && run.status == 3
}

// Each of sixteen nodes writes 64 words: a race for each word and each two nodes.
#[test]
fn thousands_of_races_are_named(rt: HostRuntime) {
    let run = done(&rt, &OF_SIXTEEN, CONFLICTING, None);
    let last = b"node 15 interval 1\nfirst race at act 17\n";
    assert!(rt; names_races(&run, 7_680, last));
}
