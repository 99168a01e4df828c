// From a path and two lines to the status: whether the accesses there are a sure race.

ghost use Rattle.std.specs.Prelude.{◌<◌};
ghost use Rattle.lrc_races_witness.specs.Relations.{AreByLine};
ghost use Rattle.lrc_races_front.specs.Kept.{HasKept};
ghost use Rattle.lrc_races_text.specs.declared.form.Form.{Form as AnyForm};
ghost use Rattle.lrc_shell_sources.specs.Known.{Held};
ghost use Rattle.lrc_races_notes.specs.Noting.{KeepsBoth};
ghost use Rattle.lrc_races_stream.specs.Noted.{IsKnown, Notes};
ghost use Rattle.lrc_races_stream.specs.Reach.{IsBegun, IsSeeking};
ghost use Rattle.lrc_races_stream.specs.Witness.{IsAnswered, IsWitnessPlayed, Witnesses};

use crate::answer::{Answer, Stop, conclude};
use crate::noted::note;
use crate::seeker::Seeker;
use crate::strict::seek;
use lrc_races_front::kept::Kept;
use lrc_races_notes::noting::Noting;
use lrc_races_text::fault::Fault;
use lrc_races_text::form::Form;
use lrc_races_witness::answer::push_answer;
use lrc_shell_sources::blocks::Blocks;
use lrc_shell_sources::refusal::refuse_file;
use lrc_shell_sources::sources::Sources;
use std::alloc::Global;
use std::io::Write;

/// Says whether the accesses on two lines of the trace in a file, in this form, are a sure race, and returns the exit
/// status. If they are, the events that show it go to `out`, else the reason. A fault goes to `err`, and then nothing
/// goes to `out`. If `strict`, an event that no program would give is a fault.
pub fn play_witness<F: Sources, W: Write, E: Write>(
    alloc: Global,
    path: &str,
    form: Form,
    strict: bool,
    first: u64,
    second: u64,
    sources: &F,
    out: &mut W,
    err: &mut E,
) -> u8
    requires { first < second }
    ensures { IsWitnessPlayed (F.known sources.now) path.now form strict first second
        (W.contents out.old) (W.contents out.new) (E.contents err.old) (E.contents err.new) result }
{
    match sources.open(path) {
        Ok(trace) => {
            let mut trace = trace;
            let outcome = witness(alloc, form, strict, first, second, &mut trace, err);
            conclude(alloc, outcome, out, err)
        }
        Err(error) => refuse_file(&error, err),
    }
}

// Reads a trace in this form up to the later of two lines, and no further, and says whether the accesses on them are a
// sure race.
fn witness<B: Blocks, E: Write>(
    alloc: Global,
    form: Form,
    strict: bool,
    first: u64,
    second: u64,
    trace: &mut B,
    err: &mut E,
) -> Answer
    requires { first < second }
    ensures answer { Witnesses strict form (B.left trace.old) first second result }
    ensures notes { Notes form (B.left trace.old) second result
        (E.contents err.old) (E.contents err.new) }
{
    match Seeker::new(alloc, form, second, Noting::new(Kept::new(alloc))) {
        Ok(seeker) => witness_by(alloc, strict, first, second, seeker, trace, err),
        Err(_error) => Answer::Stopped(Stop::Faulted(Fault::NoMemory)),
    }
}

// Says so by what is read.
fn witness_by<B: Blocks, E: Write>(
    alloc: Global,
    strict: bool,
    first: u64,
    second: u64,
    seeker: Seeker<Noting<Kept>>,
    trace: &mut B,
    err: &mut E,
) -> Answer
    requires ascending { first < second }
    requires begun { IsBegun second (B.left trace.old) seeker.front }
    ensures { (form : AnyForm) (held : Held)
        → IsSeeking (KeepsBoth HasKept) form second held (B.left trace.old) seeker.front
        → Witnesses strict form held first second result
        × Notes form held second result (E.contents err.old) (E.contents err.new) }
{
    let mut seeker = seeker;
    let answer = seek_witness(alloc, strict, first, second, &mut seeker, trace);
    note(alloc, answer, seeker.front.kept.noter, err)
}

fn seek_witness<B: Blocks>(
    alloc: Global,
    strict: bool,
    first: u64,
    second: u64,
    seeker: &mut Seeker<Noting<Kept>>,
    trace: &mut B,
) -> Answer
    requires ascending { first < second }
    requires begun { IsBegun second (B.left trace.old) seeker.old.front }
    ensures { (form : AnyForm) (held : Held)
        → IsSeeking (KeepsBoth HasKept) form second held (B.left trace.old) seeker.old.front
        → Witnesses strict form held first second result
        × IsKnown form held second seeker.new.front.kept.noter result }
{
    match seek(alloc, strict, seeker, trace) {
        Ok(()) => answer(alloc, &seeker.front.kept.kept, first, second),
        Err(stop) => Answer::Stopped(stop),
    }
}

// Answers by what is kept of the lines up to the later one.
fn answer(alloc: Global, kept: &Kept, first: u64, second: u64) -> Answer
    requires by_line { AreByLine kept.now.events.items }
    requires ascending { first < second }
    ensures { IsAnswered kept.now first second result }
{
    let mut text = Vec::new(alloc);
    match push_answer(
        alloc,
        &mut text,
        &kept.names.threads,
        &kept.events,
        &kept.texts,
        first,
        second,
    ) {
        Ok(status) => Answer::Answered(text, status),
        Err(_error) => Answer::Stopped(Stop::Faulted(Fault::NoMemory)),
    }
}
