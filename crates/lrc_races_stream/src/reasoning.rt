// From a path and two lines to the status: why the events there are ordered, or that they race.

ghost use Rattle.std.specs.Prelude.{◌<◌, ◌↔◌, ℕ, IsTrue, List, Option};
ghost use Rattle.lrc_races_why.specs.Answers.{HasEvent};
ghost use Rattle.lrc_races_witness.specs.Relations.{AreByLine};
ghost use Rattle.lrc_races_front.specs.Kept.{HasKept};
ghost use Rattle.lrc_shell_sources.specs.Known.{Held};
ghost use Rattle.lrc_races_notes.specs.Noting.{KeepsBoth};
ghost use Rattle.lrc_races_stream.specs.Noted.{IsKnown, Notes};
ghost use Rattle.lrc_races_stream.specs.Reach.{IsBegun, IsSeeking};
ghost use Rattle.lrc_races_stream.specs.Answer.{IsAnswerTold};
ghost use Rattle.lrc_races_stream.specs.declared.answer.Answer.{Answer as AnyAnswer};
ghost use Rattle.lrc_races_stream.specs.Why.{IsExplained, IsStopAnswered, IsWhyPlayed, Reasons};

use crate::answer::{Answer, Stop, conclude};
use crate::noted::note;
use crate::seeker::Seeker;
use crate::strict::seek;
use lrc_races_front::kept::Kept;
use lrc_races_notes::noting::Noting;
use lrc_races_text::fault::Fault;
use lrc_races_text::form::Form;
use lrc_races_trace::event::Event;
use lrc_races_why::answer::{Outcome, push_answer};
use lrc_shell_sources::blocks::Blocks;
use lrc_shell_sources::refusal::refuse_file;
use lrc_shell_sources::sources::Sources;
use std::alloc::Global;
use std::io::Write;

/// Says why the events on two lines of the trace in a file, in this form, are ordered, or that they race, or that
/// neither is so, and returns the exit status. The path `-` is standard input. The answer goes to `out`. A fault goes to
/// `err`, and then nothing goes to `out`. If `strict`, an event that no program would give is a fault.
pub fn play_why<F: Sources, W: Write, E: Write>(
    alloc: Global,
    path: &str,
    form: Form,
    strict: bool,
    first: u64,
    second: u64,
    sources: &F,
    out: &mut W,
    err: &mut E,
) -> u8
    requires { first < second }
    ensures { IsWhyPlayed (F.known sources.now) path.now form strict first second
        (W.contents out.old) (W.contents out.new) (E.contents err.old) (E.contents err.new) result }
{
    if path == "-" {
        let trace = sources.open_input();
        return tell_why(alloc, form, strict, first, second, trace, out, err);
    }
    match sources.open(path) {
        Ok(trace) => tell_why(alloc, form, strict, first, second, trace, out, err),
        Err(error) => refuse_file(&error, err),
    }
}

// Says why the events on two lines of a trace are ordered, or what keeps it from that.
fn tell_why<B: Blocks + Drop, W: Write, E: Write>(
    alloc: Global,
    form: Form,
    strict: bool,
    first: u64,
    second: u64,
    trace: B,
    out: &mut W,
    err: &mut E,
) -> u8
    requires { first < second }
    ensures { (answer : AnyAnswer) × Reasons strict form (B.left trace) first second answer
        × ((mid : Option (List ℕ)) × Notes form (B.left trace) second answer (E.contents err.old) mid
        × IsAnswerTold answer (W.contents out.old) (W.contents out.new)
        mid (E.contents err.new) result) }
{
    let mut trace = trace;
    let answer = reason(alloc, form, strict, first, second, &mut trace, err);
    conclude(alloc, answer, out, err)
}

// Reads a trace in this form up to the later of two lines, and no further, and says why the events on them are ordered.
fn reason<B: Blocks, E: Write>(
    alloc: Global,
    form: Form,
    strict: bool,
    first: u64,
    second: u64,
    trace: &mut B,
    err: &mut E,
) -> Answer
    requires { first < second }
    ensures answer { Reasons strict form (B.left trace.old) first second result }
    ensures notes { Notes form (B.left trace.old) second result
        (E.contents err.old) (E.contents err.new) }
{
    match Seeker::new(alloc, form, second, Noting::new(Kept::new(alloc))) {
        Ok(seeker) => reason_by(alloc, form, strict, first, second, seeker, trace, err),
        Err(_error) => Answer::Stopped(Stop::Faulted(Fault::NoMemory)),
    }
}

// Says so by what is read.
fn reason_by<B: Blocks, E: Write>(
    alloc: Global,
    form: Form,
    strict: bool,
    first: u64,
    second: u64,
    seeker: Seeker<Noting<Kept>>,
    trace: &mut B,
    err: &mut E,
) -> Answer
    requires ascending { first < second }
    requires begun { IsBegun second (B.left trace.old) seeker.front }
    ensures { (held : Held)
        → IsSeeking (KeepsBoth HasKept) form second held (B.left trace.old) seeker.front
        → Reasons strict form held first second result
        × Notes form held second result (E.contents err.old) (E.contents err.new) }
{
    let mut seeker = seeker;
    let answer = seek_reason(alloc, form, strict, first, second, &mut seeker, trace);
    note(alloc, answer, seeker.front.kept.noter, err)
}

fn seek_reason<B: Blocks>(
    alloc: Global,
    form: Form,
    strict: bool,
    first: u64,
    second: u64,
    seeker: &mut Seeker<Noting<Kept>>,
    trace: &mut B,
) -> Answer
    requires ascending { first < second }
    requires begun { IsBegun second (B.left trace.old) seeker.old.front }
    ensures { (held : Held)
        → IsSeeking (KeepsBoth HasKept) form second held (B.left trace.old) seeker.old.front
        → Reasons strict form held first second result
        × IsKnown form held second seeker.new.front.kept.noter result }
{
    match seek(alloc, strict, seeker, trace) {
        Ok(()) => explain(alloc, form, &seeker.front.kept.kept, first, second),
        Err(stop) => stopped(&seeker.front.kept.kept, first, stop),
    }
}

// Answers by what is kept of the lines up to the later one.
fn explain(alloc: Global, form: Form, kept: &Kept, first: u64, second: u64) -> Answer
    requires by_line { AreByLine kept.now.events.items }
    requires ascending { first < second }
    ensures { IsExplained form kept.now first second result }
{
    let mut text = Vec::new(alloc);
    match push_answer(
        alloc,
        &mut text,
        form,
        &kept.names,
        &kept.events,
        &kept.texts,
        first,
        second,
    ) {
        Ok(Outcome::Told) => Answer::Answered(text, 0),
        Ok(Outcome::NoEvent(line)) => Answer::NoEvent(line),
        Err(_error) => Answer::Stopped(Stop::Faulted(Fault::NoMemory)),
    }
}

// Says why a trace was not read up to the later line. If the earlier one was read and has no event, that comes first.
fn stopped(kept: &Kept, first: u64, stop: Stop) -> Answer
    ensures { IsStopAnswered kept.now.events.items first stop result }
{
    if stop.is_behind(first) {
        if has_event(&kept.events, first) {
            return Answer::Stopped(stop);
        }
        return Answer::NoEvent(first);
    }
    Answer::Stopped(stop)
}

// Whether a line has an event.
fn has_event(events: &[Event], line: u64) -> bool
    ensures { IsTrue result ↔ HasEvent events.now line }
{
    for event in events {
        if event.line == line {
            return true;
        }
    }
    false
}
