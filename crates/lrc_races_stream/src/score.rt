// From a report and a path to the status: what is said of the claims of a report about the trace in a file.

ghost use Rattle.std.specs.Prelude.{◌≡◌, ℕ, IfErr, IfOk, List, Option};
ghost use Rattle.std.specs.IoError.{error_kind};
ghost use Rattle.lrc_races_scored.specs.Traced.{HasTraced};
ghost use Rattle.lrc_races_witness.specs.Relations.{AreByLine};
ghost use Rattle.lrc_races_text.specs.declared.form.Form.{Form as AnyForm};
ghost use Rattle.lrc_shell_sources.specs.Known.{Held};
ghost use Rattle.lrc_races_stream.specs.Answer.{IsAnswerTold};
ghost use Rattle.lrc_races_notes.specs.Noting.{KeepsBoth};
ghost use Rattle.lrc_races_stream.specs.Noted.{IsKnown, Notes};
ghost use Rattle.lrc_races_stream.specs.Reach.{IsSeeking, most_lines};
ghost use Rattle.lrc_races_stream.specs.Score.{IsBegunTrace, IsReportCause, IsReportRead, IsReportRefused, IsScored, IsScorePlayed, IsTraceScored, Scores, bad_claim_line};
ghost use Rattle.lrc_races_stream.specs.declared.answer.Answer.{Answer as AnyAnswer};

use crate::answer::{Answer, Stop, conclude};
use crate::lines::tell_made;
use crate::noted::note;
use crate::seeker::Seeker;
use crate::strict::seek;
use lrc_races_notes::noting::Noting;
use lrc_races_score::report::{LinedClaim, MOST_BYTES, ReportFault, report_of};
use lrc_races_scored::score::push_score;
use lrc_races_scored::traced::Traced;
use lrc_races_text::asked::Sought;
use lrc_races_text::fault::Fault;
use lrc_races_text::form::Form;
use lrc_shell_sources::blocks::Blocks;
use lrc_shell_sources::refusal::{FAULT, refuse_file, refuse_memory, tell_line};
use lrc_shell_sources::sources::Sources;
use lrc_text::push_number;
use std::alloc::{AllocError, Global};
use std::io::Write;
use std::{io, mem};

/// The most bytes read of a report: the limit plus one. A longer text is cut there, and is still too long.
const REPORT_READ: u64 = MOST_BYTES as u64 + 1;

const _: () = prove!(REPORT_READ > MOST_BYTES as u64);

/// The line on a report that is too long.
const TOO_LONG: &[u8] = b"treadmarks: report line 1: text too long\n";

/// Says of each claim of a report whether it is true of the trace in a file, in this form, and what the report missed,
/// and returns the exit status. Either path may be `-`, which is standard input, but not both. The answer goes to `out`.
/// A fault goes to `err`, and then nothing goes to `out`. If `strict`, an event that no program would give is a fault.
pub fn play_score<F: Sources, W: Write, E: Write>(
    alloc: Global,
    path: &str,
    report: &str,
    form: Form,
    strict: bool,
    sought: Sought,
    sources: &F,
    out: &mut W,
    err: &mut E,
) -> u8
    ensures { IsScorePlayed (F.known sources.now) path.now report.now form strict sought
        (W.contents out.old) (W.contents out.new) (E.contents err.old) (E.contents err.new) result }
{
    match read_report(alloc, report, sources) {
        Ok(text) => play_text(alloc, path, form, strict, sought, &text, sources, out, err),
        Err(error) => refuse_file(&error, err),
    }
}

// Reads a report. The path `-` is standard input.
fn read_report<F: Sources>(alloc: Global, report: &str, sources: &F) -> io::Result<Vec<u8>>
    ensures ok { IfOk result (λ text. IsReportRead (F.known sources.now) report.now text.items) }
    ensures err { IfErr result (λ error. IsReportCause (F.known sources.now) report.now
        (error_kind error)) }
{
    if report == "-" {
        sources.input(alloc, REPORT_READ)
    } else {
        sources.file(alloc, report, REPORT_READ)
    }
}

// Scores the report with this text.
fn play_text<F: Sources, W: Write, E: Write>(
    alloc: Global,
    path: &str,
    form: Form,
    strict: bool,
    sought: Sought,
    text: &[u8],
    sources: &F,
    out: &mut W,
    err: &mut E,
) -> u8
    ensures { (report : List ℕ) → IsReportRead (F.known sources.now) report text.now
        → IsScorePlayed (F.known sources.now) path.now report form strict sought
        (W.contents out.old) (W.contents out.new) (E.contents err.old) (E.contents err.new) result }
{
    match report_of(alloc, text) {
        Ok(report) => play_claims(
            alloc,
            path,
            form,
            strict,
            sought,
            report.claims.as_slice(),
            sources,
            out,
            err,
        ),
        Err(fault) => refuse_report(alloc, fault, err),
    }
}

// Says why a text is no report.
fn refuse_report<E: Write>(alloc: Global, fault: ReportFault, err: &mut E) -> u8
    ensures { IsReportRefused fault (E.contents err.old) (E.contents err.new) result }
{
    match fault {
        ReportFault::TooLong => {
            tell_line(TOO_LONG, err);
            FAULT
        }
        ReportFault::BadClaim(line) => tell_made(bad_claim_line(alloc, line), err),
        ReportFault::NoMemory => refuse_memory(err),
    }
}

fn bad_claim_line(alloc: Global, line: u64) -> Result<Vec<u8>, AllocError>
    ensures { IfOk result (λ text. text.items ≡ bad_claim_line line) }
{
    let mut text = Vec::new(alloc);
    push_number(&mut text, b"treadmarks: report line ", line)?;
    text.extend_from_slice(b": bad claim\n")?;
    Ok(text)
}

// Says of each of these claims whether it is true of the trace in a file.
fn play_claims<F: Sources, W: Write, E: Write>(
    alloc: Global,
    path: &str,
    form: Form,
    strict: bool,
    sought: Sought,
    claims: &[LinedClaim<'_>],
    sources: &F,
    out: &mut W,
    err: &mut E,
) -> u8
    ensures { IsTraceScored (F.known sources.now) path.now form strict sought claims.now
        (W.contents out.old) (W.contents out.new) (E.contents err.old) (E.contents err.new) result }
{
    if path == "-" {
        let trace = sources.open_input();
        return tell_scored(alloc, form, strict, sought, claims, trace, out, err);
    }
    match sources.open(path) {
        Ok(trace) => tell_scored(alloc, form, strict, sought, claims, trace, out, err),
        Err(error) => refuse_file(&error, err),
    }
}

// Says it of a trace, or what keeps it from that.
fn tell_scored<B: Blocks + Drop, W: Write, E: Write>(
    alloc: Global,
    form: Form,
    strict: bool,
    sought: Sought,
    claims: &[LinedClaim<'_>],
    trace: B,
    out: &mut W,
    err: &mut E,
) -> u8
    ensures { (answer : AnyAnswer) × Scores strict sought form claims.now (B.left trace) answer
        × ((mid : Option (List ℕ)) × Notes form (B.left trace) most_lines answer (E.contents err.old) mid
        × IsAnswerTold answer (W.contents out.old) (W.contents out.new)
        mid (E.contents err.new) result) }
{
    let mut trace = trace;
    let answer = score(alloc, form, strict, sought, claims, &mut trace, err);
    conclude(alloc, answer, out, err)
}

// Reads a trace in this form to its end, and scores the claims.
fn score<B: Blocks, E: Write>(
    alloc: Global,
    form: Form,
    strict: bool,
    sought: Sought,
    claims: &[LinedClaim<'_>],
    trace: &mut B,
    err: &mut E,
) -> Answer
    ensures answer { Scores strict sought form claims.now (B.left trace.old) result }
    ensures notes { Notes form (B.left trace.old) most_lines result
        (E.contents err.old) (E.contents err.new) }
{
    match Seeker::new(alloc, form, u64::MAX, Noting::new(Traced::new(alloc))) {
        Ok(seeker) => score_by(alloc, strict, sought, claims, seeker, trace, err),
        Err(_error) => Answer::Stopped(Stop::Faulted(Fault::NoMemory)),
    }
}

// Scores them by what is read.
fn score_by<B: Blocks, E: Write>(
    alloc: Global,
    strict: bool,
    sought: Sought,
    claims: &[LinedClaim<'_>],
    seeker: Seeker<Noting<Traced>>,
    trace: &mut B,
    err: &mut E,
) -> Answer
    requires { IsBegunTrace (B.left trace.old) seeker.front }
    ensures { (form : AnyForm) (held : Held)
        → IsSeeking (KeepsBoth HasTraced) form most_lines held (B.left trace.old) seeker.front
        → Scores strict sought form claims.now held result
        × Notes form held most_lines result (E.contents err.old) (E.contents err.new) }
{
    let mut seeker = seeker;
    let answer = seek_score(alloc, strict, sought, claims, &mut seeker, trace);
    note(alloc, answer, seeker.front.kept.noter, err)
}

fn seek_score<B: Blocks>(
    alloc: Global,
    strict: bool,
    sought: Sought,
    claims: &[LinedClaim<'_>],
    seeker: &mut Seeker<Noting<Traced>>,
    trace: &mut B,
) -> Answer
    requires { IsBegunTrace (B.left trace.old) seeker.old.front }
    ensures { (form : AnyForm) (held : Held)
        → IsSeeking (KeepsBoth HasTraced) form most_lines held (B.left trace.old) seeker.old.front
        → Scores strict sought form claims.now held result
        × IsKnown form held most_lines seeker.new.front.kept.noter result }
{
    match seek(alloc, strict, seeker, trace) {
        Ok(()) => Answer::Stopped(Stop::Faulted(Fault::NoMemory)),
        Err(Stop::Past(lines)) => {
            scored(alloc, sought, claims, &mut seeker.front.kept.kept, lines)
        }
        Err(Stop::Faulted(fault)) => Answer::Stopped(Stop::Faulted(fault)),
        Err(Stop::IllFormed(ill)) => Answer::Stopped(Stop::IllFormed(ill)),
        Err(Stop::Unread(kind)) => Answer::Stopped(Stop::Unread(kind)),
    }
}

// Scores them by what is kept of all lines of a trace, which are so many. What was kept is used up.
fn scored(
    alloc: Global,
    sought: Sought,
    claims: &[LinedClaim<'_>],
    kept: &mut Traced,
    last: u64,
) -> Answer
    requires { AreByLine kept.old.events.items }
    ensures { IsScored sought claims.now kept.old last result }
{
    let traced = mem::replace(kept, Traced::new(alloc));
    let mut text = Vec::new(alloc);
    match push_score(alloc, &mut text, sought, traced, last, claims) {
        Ok(status) => Answer::Answered(text, status),
        Err(_error) => Answer::Stopped(Stop::Faulted(Fault::NoMemory)),
    }
}
