// From a path to the status: the pairs of locations of a file that race.

ghost use Rattle.lrc_races_text.specs.declared.asked.Sought.{Sought as AnySought};
ghost use Rattle.lrc_races_locations.specs.Lines.{IsLocated};
ghost use Rattle.lrc_shell_sources.specs.Known.{Held};
ghost use Rattle.std.specs.Prelude.{ℕ, List, Option};
ghost use Rattle.lrc_races_notes.specs.Noting.{KeepsBoth};
ghost use Rattle.lrc_races_stream.specs.Noted.{IsKnown, Notes};
ghost use Rattle.lrc_races_stream.specs.Reach.{IsSeeking, most_lines};
ghost use Rattle.lrc_races_stream.specs.Answer.{IsAnswerTold};
ghost use Rattle.lrc_races_stream.specs.declared.answer.Answer.{Answer as AnyAnswer};
ghost use Rattle.lrc_races_stream.specs.Locations.{IsLocationsPlayed, IsReported, Reports};

use crate::answer::{Answer, Stop, conclude};
use crate::noted::note;
use crate::seeker::Seeker;
use crate::strict::seek;
use lrc_races_locations::located::Located;
use lrc_races_notes::noting::Noting;
use lrc_races_text::asked::{Layout, Sought};
use lrc_races_text::fault::Fault;
use lrc_races_text::form::Form;
use lrc_shell_sources::blocks::Blocks;
use lrc_shell_sources::refusal::refuse_file;
use lrc_shell_sources::sources::Sources;
use std::alloc::Global;
use std::io::Write;

/// Reports the pairs of locations that race of the trace in a file, in this form, when it has ended, and returns the exit
/// status. The path `-` is standard input. The report goes to `out`. A fault goes to `err`, and then nothing goes to
/// `out`. If `strict`, an event that no program would give is a fault.
pub fn play_locations<F: Sources, W: Write, E: Write>(
    alloc: Global,
    path: &str,
    form: Form,
    strict: bool,
    sought: Sought,
    layout: Layout,
    sources: &F,
    out: &mut W,
    err: &mut E,
) -> u8
    ensures { IsLocationsPlayed (F.known sources.now) path.now form strict sought layout
        (W.contents out.old) (W.contents out.new) (E.contents err.old) (E.contents err.new) result }
{
    if path == "-" {
        let trace = sources.open_input();
        return tell_locations(alloc, form, strict, sought, layout, trace, out, err);
    }
    match sources.open(path) {
        Ok(trace) => tell_locations(alloc, form, strict, sought, layout, trace, out, err),
        Err(error) => refuse_file(&error, err),
    }
}

// Reports the pairs of locations of a trace, or says what keeps it from that.
fn tell_locations<B: Blocks + Drop, W: Write, E: Write>(
    alloc: Global,
    form: Form,
    strict: bool,
    sought: Sought,
    layout: Layout,
    trace: B,
    out: &mut W,
    err: &mut E,
) -> u8
    ensures { (answer : AnyAnswer) × Reports strict sought form layout (B.left trace) answer
        × ((mid : Option (List ℕ)) × Notes form (B.left trace) most_lines answer (E.contents err.old) mid
        × IsAnswerTold answer (W.contents out.old) (W.contents out.new)
        mid (E.contents err.new) result) }
{
    let mut trace = trace;
    let answer = report(alloc, form, strict, sought, layout, &mut trace, err);
    conclude(alloc, answer, out, err)
}

// Reads a trace in this form to its end, and reports its pairs of locations.
fn report<B: Blocks, E: Write>(
    alloc: Global,
    form: Form,
    strict: bool,
    sought: Sought,
    layout: Layout,
    trace: &mut B,
    err: &mut E,
) -> Answer
    ensures answer { Reports strict sought form layout (B.left trace.old) result }
    ensures notes { Notes form (B.left trace.old) most_lines result
        (E.contents err.old) (E.contents err.new) }
{
    match Seeker::new(
        alloc,
        form,
        u64::MAX,
        Noting::new(Located::new(alloc, sought)),
    ) {
        Ok(seeker) => report_by(alloc, form, strict, layout, seeker, trace, err),
        Err(_error) => Answer::Stopped(Stop::Faulted(Fault::NoMemory)),
    }
}

// Reports them by what is read.
fn report_by<B: Blocks, E: Write>(
    alloc: Global,
    form: Form,
    strict: bool,
    layout: Layout,
    seeker: Seeker<Noting<Located>>,
    trace: &mut B,
    err: &mut E,
) -> Answer
    ensures { (sought : AnySought) (held : Held)
        → IsSeeking (KeepsBoth (IsLocated sought)) form most_lines held (B.left trace.old) seeker.front
        → Reports strict sought form layout held result
        × Notes form held most_lines result (E.contents err.old) (E.contents err.new) }
{
    let mut seeker = seeker;
    let answer = seek_report(alloc, form, strict, layout, &mut seeker, trace);
    note(alloc, answer, seeker.front.kept.noter, err)
}

fn seek_report<B: Blocks>(
    alloc: Global,
    form: Form,
    strict: bool,
    layout: Layout,
    seeker: &mut Seeker<Noting<Located>>,
    trace: &mut B,
) -> Answer
    ensures { (sought : AnySought) (held : Held)
        → IsSeeking (KeepsBoth (IsLocated sought)) form most_lines held (B.left trace.old) seeker.old.front
        → Reports strict sought form layout held result
        × IsKnown form held most_lines seeker.new.front.kept.noter result }
{
    match seek(alloc, strict, seeker, trace) {
        Ok(()) => Answer::Stopped(Stop::Faulted(Fault::NoMemory)),
        Err(Stop::Past(_lines)) => reported(alloc, form, layout, &seeker.front.kept.kept),
        Err(Stop::Faulted(fault)) => Answer::Stopped(Stop::Faulted(fault)),
        Err(Stop::IllFormed(ill)) => Answer::Stopped(Stop::IllFormed(ill)),
        Err(Stop::Unread(kind)) => Answer::Stopped(Stop::Unread(kind)),
    }
}

// The report of a trace, by what is kept of all its lines.
fn reported(alloc: Global, form: Form, layout: Layout, located: &Located) -> Answer
    ensures { IsReported form layout located.now result }
{
    let mut text = Vec::new(alloc);
    match located.push_report(&mut text, form, layout) {
        Ok(status) => Answer::Answered(text, status),
        Err(_error) => Answer::Stopped(Stop::Faulted(Fault::NoMemory)),
    }
}
