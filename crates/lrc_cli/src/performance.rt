// Doing what the words ask for, over any two writers.

ghost use Rattle.std.specs.Prelude.{◌≡◌, ◌⊎◌, ℕ, List, OnErr, OnOk, Option, false, is_some, option_map};
ghost use Rattle.std.specs.Io.KnownBytes.{Appends};
ghost use Rattle.lrc_report.specs.Output.{AppendsFront};
ghost use Rattle.lrc_cli.specs.Answer.{Answers, KeepsRaces};
ghost use Rattle.lrc_cli_args.specs.Files.{names_events, starts_threads};
ghost use Rattle.lrc_cli_answer.specs.FaultLine.{fault_line};
ghost use Rattle.lrc_cli.specs.Performance.{IsBrokenOff, IsPrintedOrCut, IsWritten, Performs};
ghost use Rattle.lrc_judge_text.specs.PairsTold.{HasItsRaces, told_text};
ghost use Rattle.lrc_text.specs.Parts.{whole_text};
ghost use Rattle.lrc_cli_args.specs.declared.choice.Choice.{Choice as AnyChoice};
ghost use Rattle.lrc_cli_answer.specs.declared.fault.Fault.TheVariants.{NoMemory};

use crate::answer::{Answered, answer, printed};
use crate::shown::shown_any;
use lrc_cli_answer::fault::{Fault, NO_MEMORY_LINE, line_of};
use lrc_cli_answer::printout::Printout;
use lrc_cli_args::choice::Choice;
use lrc_judge_text::broken_off::BrokenOff;
use lrc_judge_text::pairs::{PairsJudgement, put_pairs};
use lrc_report::output::{Output, put, put_parts};
use std::alloc::Global;
use std::io;
use std::io::Write;
use std::sync::Wait;
use std::thread::Threads;

/// Carries out a choice that starts no threads, with the text of its FILE, and the text of events if the choice names
/// one. Returns the exit status.
///
/// The output goes to `out`. On a fault its line goes to `err`, and the status is 1. Nothing goes to `out` then, except
/// that `judge` with `--pairs` may have written some pairs, and `explore` what it met before it gave up. After a failed
/// write nothing more is written, and the status is 1. The parts of a text are written one by one, and neither writer is
/// flushed.
pub fn perform<W: Write, E: Write>(
    alloc: Global,
    choice: &Choice<'_>,
    text: &[u8],
    events: Option<&[u8]>,
    out: &mut W,
    err: &mut E,
) -> u8
    requires threadless { starts_threads choice.now ≡ false }
    requires events { is_some events ≡ names_events choice.now }
    ensures { Performs choice.now text.now (option_map (λ e. e.now) events.entry)
        (W.contents out.old) (W.contents out.new) (E.contents err.old) (E.contents err.new) result }
{
    tell(alloc, answer(alloc, choice, text, events), out, err)
}

/// Carries out any choice as [`perform`] does, including a choice that starts threads: a run with each node on its own
/// thread. The memory of such a run is not freed, because the program ends with its answer.
pub fn execute<R: Threads + Wait + Sync, W: Write, E: Write>(
    rt: &R,
    alloc: Global,
    choice: &Choice<'_>,
    text: &[u8],
    events: Option<&[u8]>,
    out: &mut W,
    err: &mut E,
) -> u8
    requires { is_some events ≡ names_events choice.now }
    ensures { Performs choice.now text.now (option_map (λ e. e.now) events.entry)
        (W.contents out.old) (W.contents out.new) (E.contents err.old) (E.contents err.new) result }
{
    tell(alloc, answer_any(rt, alloc, choice, text, events), out, err)
}

/// Answers any choice, on threads if the choice asks for them, with the text of its FILE, and the text of events if the
/// choice names one. It writes nothing. The memory of a run on threads is not freed, because the program ends with its
/// answer.
pub fn answer_any<R: Threads + Wait + Sync>(
    rt: &R,
    alloc: Global,
    choice: &Choice<'_>,
    text: &[u8],
    events: Option<&[u8]>,
) -> Result<Answered, Fault>
    requires { is_some events ≡ names_events choice.now }
    ensures { Answers choice.now text.now (option_map (λ e. e.now) events.entry) result }
{
    match choice {
        Choice::Show(run, shape) => printed(shown_any(rt, alloc, run, *shape, text, events)),
        Choice::Check(_)
        | Choice::Core(_)
        | Choice::Plain(_)
        | Choice::Judge(_)
        | Choice::Explore(_)
        | Choice::Lint(_)
        | Choice::WhyActs(_, _)
        | Choice::ChartActs(_, _) => answer(alloc, choice, text, events),
    }
}

/// Writes the answer to a choice, or the line of its fault, as [`perform`] does, and returns the exit status.
pub fn tell<W: Write, E: Write>(
    alloc: Global,
    answered: Result<Answered, Fault>,
    out: &mut W,
    err: &mut E,
) -> u8
    requires { KeepsRaces answered }
    ensures { (choice : AnyChoice) (text : List ℕ) (events : Option (List ℕ))
        → Answers choice text events answered
        → Performs choice text events (W.contents out.old) (W.contents out.new)
        (E.contents err.old) (E.contents err.new) result }
{
    match answered {
        Ok(Answered::Printed(printout)) => print(&printout, out),
        Ok(Answered::Judged(judgement)) => print_pairs(alloc, &judgement, out, err),
        Ok(Answered::Met(parts, fault)) => print_met(alloc, &parts, fault, out, err),
        Err(fault) => complain(alloc, fault, err),
    }
}

fn print<W: Write>(printout: &Printout, out: &mut W) -> u8
    ensures { IsWritten (W.contents out.old) (W.contents out.new)
        (whole_text printout.now.parts.items) printout.now.status result }
{
    let mut output = Output::new(out);
    match put_parts(&mut output, &printout.parts) {
        Ok(()) => printout.status,
        Err(_) => 1,
    }
}

// Writes a judgement while its racing pairs are found.
fn write_pairs<W: Write>(
    alloc: Global,
    judgement: &PairsJudgement,
    out: &mut W,
) -> Result<(), BrokenOff>
    requires { HasItsRaces judgement.now }
    ensures ok { OnOk result (Appends (W.contents out.old) (W.contents out.new)
        (told_text judgement.now)) }
    ensures err { OnErr result (AppendsFront (W.contents out.old) (W.contents out.new)
        (told_text judgement.now)) }
{
    let mut output = Output::new(out);
    match put_pairs(alloc, &mut output, judgement) {
        Ok(()) => Ok(()),
        Err(broken) => Err(broken),
    }
}

// Writes a judgement while its racing pairs are found, and the line that memory ran out where it did.
fn print_pairs<W: Write, E: Write>(
    alloc: Global,
    judgement: &PairsJudgement,
    out: &mut W,
    err: &mut E,
) -> u8
    requires { HasItsRaces judgement.now }
    ensures { IsPrintedOrCut (W.contents out.old) (W.contents out.new) (E.contents err.old)
        (E.contents err.new)
        (told_text judgement.now) judgement.now.status result }
{
    match write_pairs(alloc, judgement, out) {
        Ok(()) => judgement.status,
        Err(BrokenOff::Unwritten(_)) => 1,
        Err(BrokenOff::NoMemory) => put_line(NO_MEMORY_LINE, err),
    }
}

// Writes what a search met that gives up, and the line of its fault behind it.
fn print_met<W: Write, E: Write>(
    alloc: Global,
    parts: &[Vec<u8>],
    fault: Fault,
    out: &mut W,
    err: &mut E,
) -> u8
    ensures { IsBrokenOff (W.contents out.old) (W.contents out.new) (E.contents err.old)
        (E.contents err.new) (whole_text parts.now) fault result }
{
    match write_parts(parts, out) {
        Ok(()) => complain(alloc, fault, err),
        Err(_) => 1,
    }
}

// Writes the parts of a text.
fn write_parts<W: Write>(parts: &[Vec<u8>], out: &mut W) -> io::Result<()>
    ensures ok { OnOk result (Appends (W.contents out.old) (W.contents out.new)
        (whole_text parts.now)) }
    ensures err { OnErr result (AppendsFront (W.contents out.old) (W.contents out.new)
        (whole_text parts.now)) }
{
    let mut output = Output::new(out);
    match put_parts(&mut output, parts) {
        Ok(()) => Ok(()),
        Err(broken) => Err(broken),
    }
}

// Writes the line of the fault, or, where there is no memory for it, the line that says so.
fn complain<E: Write>(alloc: Global, fault: Fault, err: &mut E) -> u8
    ensures { IsWritten (E.contents err.old) (E.contents err.new) (fault_line fault) 1 result
        ⊎ IsWritten (E.contents err.old) (E.contents err.new) (fault_line NoMemory) 1 result }
{
    match line_of(alloc, fault) {
        Ok(line) => put_line(line.as_bytes(), err),
        Err(_) => put_line(NO_MEMORY_LINE, err),
    }
}

// Writes a line, whether or not that fails, after which the program ends with 1.
fn put_line<E: Write>(line: &[u8], err: &mut E) -> u8
    ensures { IsWritten (E.contents err.old) (E.contents err.new) line.now 1 result }
{
    let mut output = Output::new(err);
    let _written = put(&mut output, line);
    1
}
