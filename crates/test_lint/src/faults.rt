// What is told of texts that are no program.

use crate::checks::passes;
use lrc_lint_fault::{Linted, lint_fault};
use std::alloc::{AllocError, Global};

/// A text, and what is told of it; nothing where it is a program.
struct Row {
    name: &'static str,
    text: &'static [u8],
    told: &'static [u8],
}

const ROWS: &[Row] = &[
    Row {
        name: "a program",
        text: b"words 4; locks 2; print 1;",
        told: b"",
    },
    Row {
        name: "two shared words in one sum",
        text: b"words 4; locks 2;\nx = [0] + [1];",
        told: b"a.lrc:2:9: error: unexpected `+`\n  x = [0] + [1];\n          ^\n  a shared word is read by a statement of its own: `x = [E];`\n  here may stand: `;`\n",
    },
    Row {
        name: "else if",
        text: b"words 4; locks 2;\nif me == 0 { print 1; } else if me == 1 { print 2; }",
        told: b"a.lrc:2:30: error: unexpected `if`\n  if me == 0 { print 1; } else if me == 1 { print 2; }\n                               ^\n  behind else stands a block, also around an if: `else { if .. }`\n  here may stand: `{`\n",
    },
    Row {
        name: "a number with zeros in front is told as it stands",
        text: b"words 4; locks 2;\nx 007;",
        told: b"a.lrc:2:3: error: unexpected `007`\n  x 007;\n    ^\n  x is no keyword: the statements are `x = E;`, `x = [E];`, `[E] = E;`, acquire, release, barrier, print, if and while\n  here may stand: `=`\n",
    },
    Row {
        name: "the last bracket that is open",
        text: b"words 4; locks 2;\nx = ((1 + 2) *\n3;",
        told: b"a.lrc:3:2: error: unexpected `;`\n  3;\n   ^\n  the `(` of line 2 is open\n  here may stand: an operator, a comparison, `)`\n",
    },
    Row {
        name: "the last block that is open",
        text: b"words 4; locks 2;\nwhile 1 {\n  if me == 0 {\n    barrier;\n}\n",
        told: b"a.lrc:6:1: error: unexpected end of the text\n  the `{` of line 2 is open\n  here may stand: a statement, `else`, `}`\n",
    },
    Row {
        name: "a bad byte behind a tab",
        text: b"words 4; locks 2;\n\tx \xff",
        told: b"a.lrc:2:4: error: bad byte\n   x ?\n     ^\n  only comments may have characters that are not ASCII\n",
    },
    Row {
        name: "locks over their limit",
        text: b"words 1;\nlocks 65;",
        told: b"a.lrc:2:7: error: over a limit\n  locks 65;\n        ^\n  locks is 0 to 64\n",
    },
];

/// What is told, with the file named `a.lrc`.
fn is_told(alloc: Global, row: &Row) -> Result<bool, AllocError> {
    match lint_fault(alloc, b"a.lrc", row.text)? {
        Some(linted) => Ok(is_printed(&linted, row.told)),
        None => Ok(row.told.is_empty()),
    }
}

fn is_printed(linted: &Linted, wanted: &[u8]) -> bool {
    match linted.parts.as_slice() {
        [part] => part.as_slice() == wanted && linted.status == 1,
        _ => false,
    }
}

/// The name of the first row of which something else is told.
fn first_wrong(alloc: Global, rows: &'static [Row]) -> Option<&'static str> {
    for row in rows {
        match is_told(alloc, row) {
            Ok(true) => {}
            Ok(false) | Err(_) => return Some(row.name),
        }
    }
    None
}

#[test]
fn faults_are_told(rt: HostRuntime) {
    passes(&rt, first_wrong(rt.alloc(), ROWS));
}
