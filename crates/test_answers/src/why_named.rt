// What `why` prints of acts of the core of a named program: with the lines of that program's text, with what the names of
// the translation's own hold, and with what the text says of traps.

use crate::checks::passes;
use crate::why_runs::{answer_to, is_text};
use lrc_named_core::tree::Trap;
use lrc_named_held::Held;
use lrc_page::Size;
use lrc_source::read_text::ReadText;
use lrc_why_text::asked::Asked;
use std::alloc::{AllocError, Global};

/// What is asked of the acts below, and what is told.
struct Row {
    name: &'static str,
    asked: Asked,
    told: &'static [u8],
}

/// A name of the translation's own, and what it holds.
struct Holding {
    name: &'static [u8],
    source: &'static [u8],
}

const TEXT: &[u8] =
    b"nodes 1;\nshared grid[2], done;\nx = 2;\ngrid[1] = done + x;\n\ngrid[x] = done;\n";

const CORE: &[u8] =
    b"words 3;\nlocks 0;\nx = 2;\n_1 = [2];\n[1] = _1 + x;\n_1 = [2];\n[x + 7] = _1;\n";

const LINES: &[u32] = &[3, 4, 4, 6, 6, 7];

const TRAPS: &[Trap<'static>] = &[
    Trap::Plain,
    Trap::Plain,
    Trap::Plain,
    Trap::Plain,
    Trap::Index(b"grid"),
];

const HELD: &[&[Holding]] = &[
    &[],
    &[Holding {
        name: b"_1",
        source: b"`done`",
    }],
    &[Holding {
        name: b"_1",
        source: b"`done`",
    }],
    &[Holding {
        name: b"_1",
        source: b"`done` again",
    }],
    &[Holding {
        name: b"_1",
        source: b"`done` again",
    }],
];

const ACTS: &[u8] = b"0 quiet\n0 read 2 0\n0 write 1 2\n0 read 2 0\n0 trap 2\n";

const ROWS: &[Row] = &[
    Row {
        name: "a line of the named text",
        asked: Asked { act: 0, and: None },
        told: b"act 0, node 0, line 3: quiet\n  sets x to 2\n  interval 1 of node 0, time 0\n",
    },
    Row {
        name: "what a name of the translation's own holds",
        asked: Asked { act: 2, and: None },
        told: b"act 2, node 0, line 4: write 1: 2\n  x is 2, set by act 0, line 3: quiet\n  `done` is 0, set by act 1, line 4: read 2: 0\n  interval 1 of node 0, time 0\n",
    },
    Row {
        name: "what it holds in another statement, and a trap",
        asked: Asked { act: 4, and: None },
        told: b"act 4, node 0, line 6: trap 2\n  x is 2, set by act 0, line 3: quiet\n  `done` again is 0, set by act 3, line 6: read 2: 0\n  index out of range of grid\n  interval 1 of node 0, time 0\n",
    },
    Row {
        name: "two acts",
        asked: Asked {
            act: 1,
            and: Some(3),
        },
        told: b"act 1, node 0, line 4: read 2: 0\nact 3, node 0, line 6: read 2: 0\n  act 1 comes before act 3 in node 0\n",
    },
];

fn held_by(alloc: Global, holding: &Holding) -> Result<Held, AllocError> {
    Ok(Held {
        name: Vec::from_slice(alloc, holding.name)?,
        source: Vec::from_slice(alloc, holding.source)?,
    })
}

// What the names hold in one statement.
fn held_in(alloc: Global, holdings: &[Holding]) -> Result<Vec<Held>, AllocError> {
    let mut held = Vec::new(alloc);
    for holding in holdings {
        held.push(held_by(alloc, holding)?)?;
    }
    Ok(held)
}

// The same in each statement.
fn held_of(alloc: Global, statements: &[&[Holding]]) -> Result<Vec<Vec<Held>>, AllocError> {
    let mut held = Vec::new(alloc);
    for holdings in statements {
        held.push(held_in(alloc, *holdings)?)?;
    }
    Ok(held)
}

fn is_told(alloc: Global, text: &ReadText<'_>, row: &Row) -> bool {
    match answer_to(alloc, text, ACTS, 1, Size::Words64, row.asked) {
        Some(Ok(parts)) => is_text(&parts, row.told),
        _ => false,
    }
}

// The name of the first row that is not told.
fn first_wrong(alloc: Global, rows: &'static [Row]) -> Option<&'static str> {
    let Ok(held) = held_of(alloc, HELD) else {
        return Some("memory ran out");
    };
    let text = ReadText::translated(CORE, TEXT, LINES, TRAPS, &held);
    for row in rows {
        if !is_told(alloc, &text, row) {
            return Some(row.name);
        }
    }
    None
}

#[test]
fn what_is_told_of_a_named_program(rt: HostRuntime) {
    passes(&rt, first_wrong(rt.alloc(), ROWS));
}
