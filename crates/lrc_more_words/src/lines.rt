// The lines that stand behind the line of a fault.

ghost use Rattle.std.specs.Prelude.{◌≡◌, IfOk, map};
ghost use Rattle.std.specs.IoError.{error_kind};
ghost use Rattle.lrc_more_words.specs.Lines.{file_line, file_lines, file_lines_of, number_lines, number_line, number_lines_of, output_line, output_lines, output_lines_of};

use crate::number::{Numbered, number_out};
use crate::reason::push_reason;
use lrc_text::push_number;
use std::alloc::{AllocError, Global};
use std::convert::AsStr;
use std::io;
use std::io::ErrorKind;

/// The line behind the fault of a text of events that is too long.
pub const LONG_EVENTS: &[u8] = b"  the events have more than 16777216 bytes\n";

/// The line behind the refusal of a run on threads for want of memory.
pub const NO_THREAD: &[u8] =
    b"  each node wants a thread: the system refused one, or memory ran out in one\n";

/// Returns the line with a file's name and why the system refuses to read it. There is none if memory ran out.
pub fn file_lines(alloc: Global, path: &str, error: &io::Error) -> Result<Vec<u8>, AllocError>
    ensures { IfOk result (λ lines. lines.items ≡ file_lines path.now error.now) }
{
    file_lines_of(alloc, error.kind(), path, error)
}

// The same by the kind of the error.
fn file_lines_of(
    alloc: Global,
    kind: ErrorKind,
    path: &str,
    error: &io::Error,
) -> Result<Vec<u8>, AllocError>
    ensures { IfOk result (λ lines. lines.items ≡ file_lines_of kind path.now error.now) }
{
    match kind {
        ErrorKind::OutOfMemory => Ok(Vec::new(alloc)),
        _ => file_line(alloc, path, error),
    }
}

fn file_line(alloc: Global, path: &str, error: &io::Error) -> Result<Vec<u8>, AllocError>
    ensures { IfOk result (λ line. line.items ≡ file_line path.now error.now) }
{
    let mut line = Vec::new(alloc);
    line.extend_from_slice(b"  ")?;
    line.extend_from_slice(path.as_bytes())?;
    line.extend_from_slice(b": ")?;
    push_reason(&mut line, error)?;
    line.extend_from_slice(b"\n")?;
    Ok(line)
}

/// Returns the line that says why the output ends early. There is none if nobody reads it any more.
pub fn output_lines(alloc: Global, error: &io::Error) -> Result<Vec<u8>, AllocError>
    ensures { IfOk result (λ lines. lines.items ≡ output_lines error.now) }
{
    output_lines_of(alloc, error.kind(), error)
}

// The same by the kind of the error.
fn output_lines_of(alloc: Global, kind: ErrorKind, error: &io::Error) -> Result<Vec<u8>, AllocError>
    ensures { IfOk result (λ lines. lines.items ≡ output_lines_of kind error.now) }
{
    match kind {
        ErrorKind::BrokenPipe => Ok(Vec::new(alloc)),
        _ => output_line(alloc, error),
    }
}

fn output_line(alloc: Global, error: &io::Error) -> Result<Vec<u8>, AllocError>
    ensures { IfOk result (λ line. line.items ≡ output_line error.now) }
{
    let mut line = Vec::new(alloc);
    line.extend_from_slice(b"treadmarks: cannot write the output: ")?;
    push_reason(&mut line, error)?;
    line.extend_from_slice(b"\n")?;
    Ok(line)
}

/// Returns the line with the first option of these words whose number is out of its range, and the range.
pub fn number_lines<S: AsStr>(alloc: Global, words: &[S]) -> Result<Vec<u8>, AllocError>
    ensures { IfOk result (λ lines. lines.items ≡ number_lines (map S.text words.now)) }
{
    number_lines_of(alloc, number_out(words))
}

fn number_lines_of(alloc: Global, out: Option<Numbered>) -> Result<Vec<u8>, AllocError>
    ensures { IfOk result (λ lines. lines.items ≡ number_lines_of out) }
{
    match out {
        Some(numbered) => number_line(alloc, numbered),
        None => Ok(Vec::new(alloc)),
    }
}

fn number_line(alloc: Global, numbered: Numbered) -> Result<Vec<u8>, AllocError>
    ensures { IfOk result (λ line. line.items ≡ number_line numbered) }
{
    let mut line = Vec::new(alloc);
    line.extend_from_slice(b"  ")?;
    line.extend_from_slice(numbered.option())?;
    push_number(&mut line, b" is ", numbered.least())?;
    push_number(&mut line, b" to ", numbered.greatest())?;
    line.extend_from_slice(b"\n")?;
    Ok(line)
}
