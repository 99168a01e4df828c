// What says more behind the line of a fault, where standard error is a terminal.

ghost use Rattle.std.specs.Prelude.{◌≡◌, ℕ, IfOk, option_map, true};
ghost use Rattle.lrc_cli.specs.Answer.{IsLinted};
ghost use Rattle.lrc_cli_args.specs.Files.{is_on_threads, starts_threads};
ghost use Rattle.lrc_text.specs.Parts.{whole_text};
ghost use Rattle.lrc_shell.specs.More.{IsMoreOf, events_lines, length_lines, threads_lines};
ghost use Rattle.lrc_shell_more.specs.More.{IsMoreTold};
ghost use Rattle.lrc_shell_sources.specs.Lines.{IsTold};

use lrc_cli::answer::{Answered, answer};
use lrc_cli_answer::fault::Fault;
use lrc_cli_answer::printout::in_one;
use lrc_cli_args::choice::{Choice, Way};
use lrc_events::events::MOST_BYTES;
use lrc_more_words::{LONG_EVENTS, NO_THREAD};
use lrc_report::output::{Output, put_parts};
use lrc_shell_sources::refusal::{NO_MEMORY, tell_line};
use std::alloc::{AllocError, Global};
use std::io::Write;

/// Writes what says more of the fault of a choice, if standard error is a terminal.
pub(crate) fn tell_more<E: Write>(
    alloc: Global,
    terminal: bool,
    choice: &Choice<'_>,
    text: &[u8],
    events: Option<&[u8]>,
    fault: Fault,
    err: &mut E,
)
    ensures { IsMoreTold terminal
        (IsMoreOf choice.now text.now (option_map (λ e. e.now) events.entry) fault)
        (E.contents err.old) (E.contents err.new) }
{
    if terminal {
        tell_more_of(alloc, choice, text, events, fault, err);
    }
}

// The same on a terminal.
#[inline(never)]
fn tell_more_of<E: Write>(
    alloc: Global,
    choice: &Choice<'_>,
    text: &[u8],
    events: Option<&[u8]>,
    fault: Fault,
    err: &mut E,
)
    ensures { IsMoreTold true
        (IsMoreOf choice.now text.now (option_map (λ e. e.now) events.entry) fault)
        (E.contents err.old) (E.contents err.new) }
{
    match more_of(alloc, choice, text, events, fault) {
        Ok(lines) => tell_parts(&lines, err),
        Err(_) => tell_line(NO_MEMORY, err),
    }
}

// Writes lines in parts, or only the beginning of them if a write fails.
fn tell_parts<E: Write>(parts: &[Vec<u8>], err: &mut E)
    ensures { IsTold (E.contents err.old) (E.contents err.new) (whole_text parts.now) }
{
    let mut output = Output::new(err);
    let _written = put_parts(&mut output, parts);
}

// What says more of the fault of a choice.
fn more_of(
    alloc: Global,
    choice: &Choice<'_>,
    text: &[u8],
    events: Option<&[u8]>,
    fault: Fault,
) -> Result<Vec<Vec<u8>>, AllocError>
    ensures { IfOk result (λ parts. IsMoreOf choice.now text.now
        (option_map (λ e. e.now) events.entry) fault (whole_text parts.items)) }
{
    match fault {
        Fault::Text(_, _) => linted(alloc, choice.file(), text),
        Fault::Names(_, _) => linted(alloc, choice.file(), text),
        Fault::Events(_) => said(alloc, events_lines(events)),
        Fault::NoMemory => said(alloc, threads_lines(starts_threads(choice))),
        _ => said(alloc, b""),
    }
}

// These lines, in one part.
fn said(alloc: Global, lines: &[u8]) -> Result<Vec<Vec<u8>>, AllocError>
    ensures { IfOk result (λ parts. whole_text parts.items ≡ lines.now) }
{
    in_one(alloc, Vec::from_slice(alloc, lines)?)
}

// What `lint` says of a text.
fn linted(alloc: Global, file: &str, text: &[u8]) -> Result<Vec<Vec<u8>>, AllocError>
    ensures { IfOk result (λ parts. (status : ℕ)
        × IsLinted file.now text.now (whole_text parts.items) status) }
{
    match answer(alloc, &Choice::Lint(file), text, None) {
        Ok(Answered::Printed(printout)) => Ok(printout.parts),
        // No judgement and no search is an answer of `lint`.
        Ok(Answered::Judged(_)) | Ok(Answered::Met(_, _)) | Err(_) => Err(AllocError),
    }
}

fn events_lines(events: Option<&[u8]>) -> &'static [u8]
    ensures { result.now ≡ events_lines (option_map (λ e. e.now) events.entry) }
{
    match events {
        Some(events) => length_lines(events.len()),
        None => b"",
    }
}

fn length_lines(length: usize) -> &'static [u8]
    ensures { result.now ≡ length_lines length }
{
    if length > MOST_BYTES {
        LONG_EVENTS
    } else {
        b""
    }
}

fn threads_lines(threads: bool) -> &'static [u8]
    ensures { result.now ≡ threads_lines threads }
{
    if threads { NO_THREAD } else { b"" }
}

// Whether the nodes of a choice are on threads of their own.
fn starts_threads(choice: &Choice<'_>) -> bool
    ensures { result ≡ starts_threads choice.now }
{
    match choice {
        Choice::Show(run, _) => is_on_threads(run.way),
        _ => false,
    }
}

fn is_on_threads(way: Way<'_>) -> bool
    ensures { result ≡ is_on_threads way.entry }
{
    match way {
        Way::Threads(_) => true,
        _ => false,
    }
}
