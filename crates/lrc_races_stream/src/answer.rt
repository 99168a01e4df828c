// What has come of a question about two lines of a trace, and what is said of it.

ghost use Rattle.std.specs.Prelude.{◌≡◌, ◌⊎◌, ◌<◌, ◌↔◌, IsTrue};
ghost use Rattle.std.specs.Io.KnownBytes.{Appends};
ghost use Rattle.lrc_report.specs.Output.{AppendsFront};
ghost use Rattle.lrc_races_stream.specs.Answer.{IsAnswerTold, IsFaultTold, IsStopTold};
ghost use Rattle.lrc_races_stream.specs.Reach.{IsBehind};
ghost use Rattle.lrc_races_stream.specs.Strict.{LacksMemory};

use crate::lines::{refuse_ill, refuse_line, refuse_no_event, refuse_past};
use crate::teller::write;
use lrc_races_text::fault::Fault;
use lrc_races_text::ill::Ill;
use lrc_shell_sources::refusal::{FAULT, refuse_memory, refuse_read};
use std::alloc::Global;
use std::io::{ErrorKind, Write};

/// Why a trace is read no further before a line that is wanted.
#[derive(Drop)]
pub enum Stop {
    /// The trace ends at the line with this number, before the one that is wanted.
    Past(u64),
    /// A line does not have the trace's form, or memory ran out.
    Faulted(Fault),
    /// No program would give this event, and strictness is asked for.
    IllFormed(Ill),
    /// The trace can be read no further.
    Unread(ErrorKind),
}

/// The outcome of a question about two lines of a trace.
#[derive(Drop)]
pub enum Answer {
    /// This is to be printed, and this is the exit status.
    Answered(Vec<u8>, u8),
    /// The line with this number has no event.
    NoEvent(u64),
    /// The trace was not read up to the later line.
    Stopped(Stop),
}

impl Stop {
    /// Returns whether a line was read, and is good.
    pub fn is_behind(&self, line: u64) -> bool
        ensures { IsTrue result ↔ IsBehind line self.now }
    {
        match self {
            Stop::Past(last) => line <= *last,
            Stop::Faulted(Fault::BadEvent(bad, _why)) => line < *bad,
            Stop::IllFormed(ill) => line < ill.line,
            _ => false,
        }
    }

    /// Returns whether memory ran out.
    pub fn lacks_memory(&self) -> bool
        ensures { IsTrue result ↔ LacksMemory self.now }
    {
        match self {
            Stop::Faulted(Fault::NoMemory) => true,
            _ => false,
        }
    }
}

/// Prints what was found, or says why nothing was, and returns the exit status.
pub(crate) fn conclude<W: Write, E: Write>(
    alloc: Global,
    answer: Answer,
    out: &mut W,
    err: &mut E,
) -> u8
    ensures { IsAnswerTold answer (W.contents out.old) (W.contents out.new)
        (E.contents err.old) (E.contents err.new) result }
{
    match answer {
        Answer::Answered(text, status) => print(&text, status, out),
        Answer::NoEvent(line) => refuse_no_event(alloc, line, err),
        Answer::Stopped(stop) => refuse_stop(alloc, stop, err),
    }
}

// Says why a trace is read no further.
fn refuse_stop<E: Write>(alloc: Global, stop: Stop, err: &mut E) -> u8
    ensures { IsStopTold stop (E.contents err.old) (E.contents err.new) result }
{
    match stop {
        Stop::Past(line) => refuse_past(alloc, line, err),
        Stop::Faulted(fault) => refuse_fault(alloc, fault, err),
        Stop::IllFormed(ill) => refuse_ill(alloc, ill.line, &ill.why, err),
        Stop::Unread(kind) => refuse_read(kind, err),
    }
}

// Says which line is bad, or that memory ran out.
fn refuse_fault<E: Write>(alloc: Global, fault: Fault, err: &mut E) -> u8
    ensures { IsFaultTold fault (E.contents err.old) (E.contents err.new) result }
{
    match fault {
        Fault::BadEvent(line, why) => refuse_line(alloc, line, &why, err),
        Fault::NoMemory => refuse_memory(err),
    }
}

// Prints a text. The status is this one, or 1 where a write fails.
fn print<W: Write>(text: &[u8], status: u8, out: &mut W) -> u8
    ensures { (Appends (W.contents out.old) (W.contents out.new) text.now × (result ≡ status))
        ⊎ (AppendsFront (W.contents out.old) (W.contents out.new) text.now × (result ≡ 1)) }
{
    match write(text, out) {
        Ok(()) => status,
        Err(_error) => FAULT,
    }
}
