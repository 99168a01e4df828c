// From a path to the status: the races of a file.

ghost use Rattle.std.specs.Prelude.{ℕ, List, Option};
ghost use Rattle.lrc_races_stream.specs.Comes.{Comes};
ghost use Rattle.lrc_races_stream.specs.Heard.{Hears};
ghost use Rattle.lrc_races_stream.specs.Plays.{IsConcluded, IsRacesPlayed};
ghost use Rattle.lrc_races_stream.specs.declared.outcome.Outcome.{Outcome as AnyOutcome};

use crate::lines::{refuse_ill, refuse_line};
use crate::outcome::Outcome;
use crate::teller::tell_races;
use lrc_races_text::asked::Asked;
use lrc_races_text::form::Form;
use lrc_shell_sources::blocks::Blocks;
use lrc_shell_sources::refusal::{FAULT, refuse_file, refuse_memory, refuse_read};
use lrc_shell_sources::sources::Sources;
use std::alloc::Global;
use std::io::Write;

/// Reports the races of the trace in a file, in this form, while it is read, and returns the exit status. The path `-`
/// is standard input. The races that are asked for go to `out`. What is to be noted of the lines goes to `err`, and a
/// fault behind it.
pub fn play_races<F: Sources, W: Write, E: Write>(
    alloc: Global,
    path: &str,
    form: Form,
    asked: Asked,
    sources: &F,
    out: &mut W,
    err: &mut E,
) -> u8
    ensures { IsRacesPlayed (F.known sources.now) path.now form asked
        (W.contents out.old) (W.contents out.new) (E.contents err.old) (E.contents err.new) result }
{
    if path == "-" {
        return play_trace(alloc, form, asked, sources.open_input(), out, err);
    }
    match sources.open(path) {
        Ok(trace) => play_trace(alloc, form, asked, trace, out, err),
        Err(error) => refuse_file(&error, err),
    }
}

// Tells the races of a trace, notes what is to be noted of its lines, and says what it came to.
fn play_trace<B: Blocks + Drop, W: Write, E: Write>(
    alloc: Global,
    form: Form,
    asked: Asked,
    trace: B,
    out: &mut W,
    err: &mut E,
) -> u8
    ensures { (outcome : AnyOutcome) × Comes form asked (B.left trace) (W.contents out.old)
        (W.contents out.new) outcome
        × ((mid : Option (List ℕ)) × Hears form (B.left trace) (E.contents err.old) mid outcome
        × IsConcluded outcome mid (E.contents err.new) result) }
{
    let mut trace = trace;
    let outcome = tell_races(alloc, form, asked, &mut trace, out, err);
    conclude(alloc, outcome, err)
}

// Says what a trace came to, and gives the status.
fn conclude<E: Write>(alloc: Global, outcome: Outcome, err: &mut E) -> u8
    ensures { IsConcluded outcome (E.contents err.old) (E.contents err.new) result }
{
    match outcome {
        Outcome::Ended(status) => status,
        Outcome::BadEvent(line, why) => refuse_line(alloc, line, &why, err),
        Outcome::IllFormed(ill) => refuse_ill(alloc, ill.line, &ill.why, err),
        Outcome::NoMemory => refuse_memory(err),
        Outcome::Unread(kind) => refuse_read(kind, err),
        Outcome::Unwritten => FAULT,
    }
}
