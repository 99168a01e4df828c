// A line of a text, with a caret below one of its columns.

ghost use Rattle.std.specs.Prelude.{◌≡◌, ◌++◌, ◌∷◌, [], ◌-◌, OnOk, get_or, map, replicate, take};
ghost use Rattle.lrc_labels.specs.declared.cut.Divider.TheVariants.{LineFeed};
ghost use Rattle.lrc_labels.specs.Cut.{cut, divides};
ghost use Rattle.lrc_lint_lines.specs.Excerpt.{caret_text, excerpt_text, line_text, more_text, shown_byte, without_return};

use lrc_labels::cut::{Divider, cut};
use std::alloc::{AllocError, Global};

/// The most bytes of a line that are shown.
const MOST_SHOWN: usize = 200;

/// Adds the line with this number, counted from 1, and below it a `^` under this column, in bytes from 1. It adds
/// nothing if the line has no bytes, and no `^` if the column is not shown.
pub fn push_excerpt(
    out: &mut Vec<u8>,
    alloc: Global,
    text: &[u8],
    number: usize,
    column: usize,
) -> Result<(), AllocError>
    ensures { OnOk result (out.new.items ≡ out.old.items
        ++ excerpt_text (without_return (get_or (cut (divides LineFeed) text.now) (number - 1) []))
        column) }
{
    let lines = cut(alloc, Divider::LineFeed, text)?;
    let line = line_at(&lines, number.saturating_sub(1));
    push_line_and_caret(out, without_return(line), column)
}

// The line at this place, or an empty one past the last.
fn line_at<'t>(lines: &[&'t [u8]], place: usize) -> &'t [u8]
    ensures { result.now ≡ get_or (map (λ line. line.now) lines.now) place [] }
{
    if place < lines.len() {
        lines[place]
    } else {
        b""
    }
}

// A line without one carriage return at its end.
fn without_return(line: &[u8]) -> &[u8]
    ensures { result.now ≡ without_return line.now }
{
    match line {
        [] => line,
        [_first, ..] => {
            let last = line.len() - 1;
            if line[last] == b'\r' {
                &line[..last]
            } else {
                line
            }
        }
    }
}

fn push_line_and_caret(out: &mut Vec<u8>, line: &[u8], column: usize) -> Result<(), AllocError>
    ensures { OnOk result (out.new.items ≡ out.old.items ++ excerpt_text line.now column) }
{
    match line {
        [] => Ok(()),
        [_first, ..] => {
            push_line(out, line)?;
            push_caret(out, column)
        }
    }
}

fn push_line(out: &mut Vec<u8>, line: &[u8]) -> Result<(), AllocError>
    ensures { OnOk result (out.new.items ≡ out.old.items ++ line_text line.now) }
{
    out.extend_from_slice(b"  ")?;
    push_shown(out, front_of(line))?;
    out.extend_from_slice(more_of(line))
}

// The bytes of a line that are shown.
fn front_of(line: &[u8]) -> &[u8]
    ensures { result.now ≡ take 200 line.now }
{
    if line.len() > MOST_SHOWN {
        &line[..MOST_SHOWN]
    } else {
        line
    }
}

// What stands behind the bytes that are shown.
fn more_of(line: &[u8]) -> &'static [u8]
    ensures { result.now ≡ more_text line.now }
{
    if line.len() > MOST_SHOWN {
        b"..\n"
    } else {
        b"\n"
    }
}

fn push_shown(out: &mut Vec<u8>, bytes: &[u8]) -> Result<(), AllocError>
    ensures { OnOk result (out.new.items ≡ out.old.items ++ map shown_byte bytes.now) }
{
    for byte in bytes {
        out.push(shown_byte(*byte))?;
    }
    Ok(())
}

// A byte as it is shown: a tab as a blank, and what has no sign as `?`.
fn shown_byte(byte: u8) -> u8
    ensures { result ≡ shown_byte byte }
{
    match byte {
        b'\t' => b' ',
        b' '..=b'~' => byte,
        _ => b'?',
    }
}

fn push_caret(out: &mut Vec<u8>, column: usize) -> Result<(), AllocError>
    ensures { OnOk result (out.new.items ≡ out.old.items ++ caret_text column) }
{
    if column > MOST_SHOWN {
        return Ok(());
    }
    out.extend_from_slice(b"  ")?;
    push_blanks(out, column.saturating_sub(1))?;
    out.extend_from_slice(b"^\n")
}

fn push_blanks(out: &mut Vec<u8>, count: usize) -> Result<(), AllocError>
    ensures { OnOk result (out.new.items ≡ out.old.items ++ replicate count 32) }
{
    let mut added = 0;
    while added < count {
        out.push(b' ')?;
        added += 1;
    }
    Ok(())
}
