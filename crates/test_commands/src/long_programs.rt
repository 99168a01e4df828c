// Named programs that are too large for a file, and those whose core is too large.

use crate::checks::passes;
use crate::large::put_parts;
use crate::shell::done;
use lrc_cli_args::choice::Choice;
use std::sync::Wait;
use std::thread::Threads;

/// A text by parts that each stand so often, and what `check` writes of it.
struct Row {
    name: &'static str,
    text: &'static [(&'static [u8], u32)],
    out: &'static [u8],
    err: &'static [u8],
    status: u8,
}

const TOO_LONG: &[u8] = b"treadmarks: line 1: text too long\n";

const ROWS: &[Row] = &[
    Row {
        name: "65,536 bytes",
        text: &[(b"nodes 1;\n", 1), (b" ", 65_527)],
        out: b"ok\n",
        err: b"",
        status: 0,
    },
    Row {
        name: "65,537 bytes",
        text: &[(b"nodes 1;\n", 1), (b" ", 65_528)],
        out: b"",
        err: TOO_LONG,
        status: 1,
    },
    Row {
        name: "65,537 bytes, with a bad byte before",
        text: &[(b"nodes &;\n", 1), (b" ", 65_528)],
        out: b"",
        err: TOO_LONG,
        status: 1,
    },
    Row {
        name: "a core that is too long",
        text: &[
            (b"nodes 1;\nshared s[2][2];\nx = 1;\n", 1),
            (b"s[x][x + 1] += s[x][x] * 2;\n", 1500),
        ],
        out: b"",
        err: TOO_LONG,
        status: 1,
    },
    Row {
        name: "a core that is too long, with a statement over a limit behind",
        text: &[
            (b"nodes 1;\nshared s[2][2];\nx = 1;\n", 1),
            (b"s[x][x + 1] += s[x][x] * 2;\n", 1500),
            (b"x = s[x][0]", 1),
            (b" + s[x][0]", 39),
            (b";\n", 1),
        ],
        out: b"",
        err: b"treadmarks: line 1504: over a limit\n",
        status: 1,
    },
];

fn is_checked<R: Threads + Wait + Sync + AllocGlobal>(rt: &R, row: &Row) -> bool {
    let mut text = Vec::new(rt.alloc());
    put_parts(&mut text, row.text).is_ok()
        && done(rt, &Choice::Check("-"), &text, None).is(row.out, row.err, row.status)
}

fn first_wrong<R: Threads + Wait + Sync + AllocGlobal>(rt: &R) -> Option<&'static str> {
    for row in ROWS {
        if !is_checked(rt, row) {
            return Some(row.name);
        }
    }
    None
}

#[test]
fn long_named_programs_are_checked(rt: HostRuntime) {
    passes(&rt, first_wrong(&rt));
}
