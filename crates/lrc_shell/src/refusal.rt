// The lines on what cannot be done, and the status after each.

ghost use Rattle.std.specs.Prelude.{◌≡◌, ◌⊎◌, codes, map};
ghost use Rattle.std.specs.IoError.{error_kind};
ghost use Rattle.lrc_cli_answer.specs.FaultLine.{fault_line};
ghost use Rattle.lrc_cli_answer.specs.declared.fault.Fault.TheVariants.{NoMemory};
ghost use Rattle.lrc_more_words.specs.Lines.{file_lines, number_lines};
ghost use Rattle.lrc_shell.specs.Plays.{IsRefusal, argument_line, argument_status};
ghost use Rattle.lrc_shell_more.specs.More.{IsToldMore};
ghost use Rattle.lrc_shell_sources.specs.Lines.{IsTold, read_line};

use lrc_cli_answer::fault::{Fault, line_of};
use lrc_cli_args::choice::ChooseFault;
use lrc_shell_more::more::{tell_file, tell_number};
use lrc_shell_sources::refusal::{FAULT, NO_MEMORY, refuse_file, refuse_memory, tell_line};
use std::alloc::Global;
use std::convert::AsStr;
use std::io;
use std::io::{ErrorKind, Write};

// The status after words that ask for nothing that can be done.
const USAGE: u8 = 2;

const BAD_NUMBER: &[u8] = b"treadmarks: number out of range\n";

const BAD_ARGUMENT: &[u8] = b"error: invalid UTF-8 was detected in one or more arguments\n";

/// Writes why the arguments are refused, and returns the exit status: memory ran out, or an argument is not UTF-8.
pub(crate) fn refuse_arguments<E: Write>(error: &io::Error, err: &mut E) -> u8
    ensures told { IsTold (E.contents err.old) (E.contents err.new)
        (argument_line (error_kind error.now)) }
    ensures status { result ≡ argument_status (error_kind error.now) }
{
    let kind = error.kind();
    tell_line(argument_line(kind), err);
    argument_status(kind)
}

fn argument_line(kind: ErrorKind) -> &'static [u8]
    ensures { result.now ≡ argument_line kind }
{
    match kind {
        ErrorKind::OutOfMemory => NO_MEMORY,
        _ => BAD_ARGUMENT,
    }
}

fn argument_status(kind: ErrorKind) -> u8
    ensures { result ≡ argument_status kind }
{
    match kind {
        ErrorKind::OutOfMemory => FAULT,
        _ => USAGE,
    }
}

/// Writes why these words are not a request, and returns the exit status. On a terminal a line says which number is out of
/// its range.
pub(crate) fn refuse<S: AsStr, E: Write>(
    alloc: Global,
    terminal: bool,
    fault: &ChooseFault,
    words: &[S],
    err: &mut E,
) -> u8
    ensures { IsRefusal terminal fault.now (map S.text words.now) (E.contents err.old)
        (E.contents err.new) result }
{
    match fault {
        ChooseFault::Usage(error) => {
            let _ = write!(err, "{error}");
            USAGE
        }
        ChooseFault::BadNumber => {
            refuse_number(alloc, terminal, words, err);
            USAGE
        }
        ChooseFault::NoMemory => refuse_memory(err),
    }
}

// Writes that a number is out of its range, and on a terminal which.
fn refuse_number<S: AsStr, E: Write>(alloc: Global, terminal: bool, words: &[S], err: &mut E)
    ensures { IsToldMore terminal (codes "treadmarks: number out of range\n")
        (λ lines. lines ≡ number_lines (map S.text words.now))
        (E.contents err.old) (E.contents err.new) }
{
    tell_line(BAD_NUMBER, err);
    tell_number(alloc, terminal, words, err);
}

/// Writes why a file cannot be read, on a terminal with its name and the system's reason, and returns the exit status.
pub(crate) fn refuse_unread<E: Write>(
    alloc: Global,
    terminal: bool,
    path: &str,
    error: &io::Error,
    err: &mut E,
) -> u8
    ensures told { IsToldMore terminal (read_line (error_kind error.now))
        (λ lines. lines ≡ file_lines path.now error.now)
        (E.contents err.old) (E.contents err.new) }
    ensures status { result ≡ 1 }
{
    let status = refuse_file(error, err);
    tell_file(alloc, terminal, path, error, err);
    status
}

/// Writes the line of a fault, and returns the fault that was told: this one, or that there was no memory for its line.
pub(crate) fn tell_fault<E: Write>(alloc: Global, fault: Fault, err: &mut E) -> Fault
    ensures line { IsTold (E.contents err.old) (E.contents err.new) (fault_line result) }
    ensures told { (result ≡ fault) ⊎ (result ≡ NoMemory) }
{
    match line_of(alloc, fault) {
        Ok(line) => {
            tell_line(line.as_bytes(), err);
            fault
        }
        Err(_) => {
            tell_line(NO_MEMORY, err);
            Fault::NoMemory
        }
    }
}
