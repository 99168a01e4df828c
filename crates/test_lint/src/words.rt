// The lines of `lint`: a line of the text with its caret, what may stand in a place, and how many warnings there are.

use crate::checks::holds;
use lrc_lang::fault::FaultKind;
use lrc_lang::kind::Kind;
use lrc_lang::token::{Keyword, Sign};
use lrc_lint_lines::{push_count, push_excerpt, push_expected, push_fault, push_place};
use std::alloc::{AllocError, Global};

/// Whether this is shown of a line of a text, with a caret under a column.
fn is_excerpt(alloc: Global, text: &[u8], line: usize, column: usize, wanted: &[u8]) -> bool {
    let mut out = Vec::new(alloc);
    match push_excerpt(&mut out, alloc, text, line, column) {
        Ok(()) => out.as_slice() == wanted,
        Err(_) => false,
    }
}

#[test]
fn tabs_and_returns(rt: HostRuntime) {
    holds(
        &rt,
        is_excerpt(
            rt.alloc(),
            b"a\n\tif\tx =\t1 { }\r\nb",
            2,
            7,
            b"   if x = 1 { }\n        ^\n",
        ),
    );
    holds(&rt, is_excerpt(rt.alloc(), b"a\n\r\nb\xe9", 2, 1, b""));
    holds(
        &rt,
        is_excerpt(rt.alloc(), b"a\n\r\nb\xe9", 3, 2, b"  b?\n   ^\n"),
    );
}

/// Whether this is said of the kinds that may stand in a place.
fn is_expected(alloc: Global, kinds: &[Kind], wanted: &[u8]) -> bool {
    let mut out = Vec::new(alloc);
    match push_expected(&mut out, alloc, kinds) {
        Ok(()) => out.as_slice() == wanted,
        Err(_) => false,
    }
}

const BEHIND_ASSIGN: &[Kind] = &[
    Kind::Name,
    Kind::Number,
    Kind::Keyword(Keyword::Me),
    Kind::Keyword(Keyword::Nodes),
    Kind::Sign(Sign::OpenBracket),
    Kind::Sign(Sign::OpenParenthesis),
];

#[test]
fn a_group_and_a_sign(rt: HostRuntime) {
    holds(
        &rt,
        is_expected(
            rt.alloc(),
            BEHIND_ASSIGN,
            b"  here may stand: an operand, `[`\n",
        ),
    );
    holds(
        &rt,
        is_expected(
            rt.alloc(),
            &[Kind::End, Kind::Number],
            b"  here may stand: a number, the end of the text\n",
        ),
    );
}

fn head(alloc: Global) -> Result<Vec<u8>, AllocError> {
    let mut out = Vec::new(alloc);
    push_place(&mut out, b"-", 2, 20)?;
    push_fault(&mut out, FaultKind::OverLimit)?;
    push_count(&mut out, 1)?;
    push_count(&mut out, 16)?;
    Ok(out)
}

#[test]
fn places_and_counts(rt: HostRuntime) {
    holds(
        &rt,
        is_head(
            rt.alloc(),
            b"-:2:20: error: over a limit\n1 warning\n16 warnings\n",
        ),
    );
}

fn is_head(alloc: Global, wanted: &[u8]) -> bool {
    match head(alloc) {
        Ok(out) => out.as_slice() == wanted,
        Err(_) => false,
    }
}
