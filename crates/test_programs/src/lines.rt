// On which lines the statements of a text begin.

use crate::checks::holds;
use lrc_lang::lines::lines_of;
use std::alloc::Global;

/// Whether these are the lines of a text's statements and of its end.
fn are_lines(alloc: Global, text: &[u8], wanted: &[u32]) -> bool {
    match lines_of(alloc, text) {
        Ok(lines) => lines.as_slice() == wanted,
        Err(_) => false,
    }
}

const BRANCHES: &[u8] =
    b"words 1;\nlocks 0;\nif me == 0 {\n  [0] = 5; # one\n} else {\n  x = [0];\n  print x;\n}\n";

const LOOPS: &[u8] =
    b"words 1; locks 1; x =\n3; while x\n> 0 { if x == 2 { barrier; } while\n0 { } x = x - 1; } acquire 0;";

const ROWS: &[(&str, &[u8], &[u32])] = &[
    ("both branches and a comment", BRANCHES, &[3, 4, 6, 7, 9]),
    (
        "loops in loops and several on a line",
        LOOPS,
        &[1, 2, 3, 3, 3, 4, 4, 4],
    ),
    ("no statement", b"words 1;\nlocks 0;", &[2]),
    (
        "no statement, and an empty line",
        b"words 1;\nlocks 0;\n\n",
        &[4],
    ),
];

#[test]
fn statements_have_their_lines(rt: HostRuntime) {
    for (name, text, lines) in ROWS {
        holds(&rt, name, are_lines(rt.alloc(), text, lines));
    }
}
