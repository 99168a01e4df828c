// What is written behind the line of a fault, where standard error is a terminal.

ghost use Rattle.std.specs.Prelude.{◌≡◌, IfOk, OnErr, map};
ghost use Rattle.lrc_more_words.specs.Lines.{file_lines, number_lines};
ghost use Rattle.lrc_shell_more.specs.More.{IsMoreTold, failure_lines, unread_lines, unread_seen};
ghost use Rattle.lrc_shell_sources.specs.Lines.{IsTold, memory_line};

use lrc_more_words::{file_lines, number_lines, output_lines};
use lrc_shell_sources::refusal::{NO_MEMORY, tell_line};
use std::alloc::{AllocError, Global};
use std::convert::AsStr;
use std::io;
use std::io::Write;

/// A file that cannot be read, and why.
#[derive(Clone, Copy)]
pub struct Unread<'w> {
    pub path: &'w str,
    pub error: io::Error,
}

// Writes these lines, or that there was no memory for them.
fn tell_lines<E: Write>(lines: Result<Vec<u8>, AllocError>, err: &mut E)
    ensures ok { IfOk lines (λ lines. IsTold (E.contents err.old) (E.contents err.new) lines.items) }
    ensures err { OnErr lines (IsTold (E.contents err.old) (E.contents err.new) memory_line) }
{
    match lines {
        Ok(lines) => tell_line(&lines, err),
        Err(_) => tell_line(NO_MEMORY, err),
    }
}

/// Writes which file cannot be read, and why, if standard error is a terminal.
pub fn tell_file<E: Write>(
    alloc: Global,
    terminal: bool,
    path: &str,
    error: &io::Error,
    err: &mut E,
)
    ensures { IsMoreTold terminal (λ lines. lines ≡ file_lines path.now error.now)
        (E.contents err.old) (E.contents err.new) }
{
    if terminal {
        tell_lines(file_lines(alloc, path, error), err);
    }
}

/// Writes which number of these words is out of its range, if standard error is a terminal.
pub fn tell_number<S: AsStr, E: Write>(alloc: Global, terminal: bool, words: &[S], err: &mut E)
    ensures { IsMoreTold terminal (λ lines. lines ≡ number_lines (map S.text words.now))
        (E.contents err.old) (E.contents err.new) }
{
    if terminal {
        tell_lines(number_lines(alloc, words), err);
    }
}

/// Writes which file of a trace could not be read, and why, if one could not and standard error is a terminal.
pub fn tell_unread<E: Write>(alloc: Global, terminal: bool, unread: Option<Unread<'_>>, err: &mut E)
    ensures { IsMoreTold terminal (λ lines. lines ≡ unread_lines (unread_seen unread.entry))
        (E.contents err.old) (E.contents err.new) }
{
    if terminal {
        tell_lines(unread_lines(alloc, unread), err);
    }
}

fn unread_lines(alloc: Global, unread: Option<Unread<'_>>) -> Result<Vec<u8>, AllocError>
    ensures { IfOk result (λ lines. lines.items ≡ unread_lines (unread_seen unread.entry)) }
{
    match unread {
        Some(unread) => file_lines(alloc, unread.path, &unread.error),
        None => Ok(Vec::new(alloc)),
    }
}

/// Writes by which error the output ended early, if one did and standard error is a terminal.
pub fn tell_failure<E: Write>(
    alloc: Global,
    terminal: bool,
    failure: Option<io::Error>,
    err: &mut E,
)
    ensures { IsMoreTold terminal (λ lines. lines ≡ failure_lines failure)
        (E.contents err.old) (E.contents err.new) }
{
    if terminal {
        tell_lines(failure_lines(alloc, failure), err);
    }
}

fn failure_lines(alloc: Global, failure: Option<io::Error>) -> Result<Vec<u8>, AllocError>
    ensures { IfOk result (λ lines. lines.items ≡ failure_lines failure) }
{
    match failure {
        Some(error) => output_lines(alloc, &error),
        None => Ok(Vec::new(alloc)),
    }
}
