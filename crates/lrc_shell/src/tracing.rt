// What is asked of a trace, and behind what is told of it, on a terminal, why a file could not be read. Where no report is
// read, the trace's own file stands in its place.

ghost use Rattle.lrc_races_stream.specs.Score.{IsScorePlayed};
ghost use Rattle.lrc_races_stream.specs.Why.{IsWhyPlayed};
ghost use Rattle.lrc_races_stream.specs.Witness.{IsWitnessPlayed};
ghost use Rattle.lrc_shell.specs.Plays.{IsRacingTold, IsTraced, form_of, sought_of};

use crate::races::{tell_racing, tell_reasons, tell_witness};
use crate::scoring::tell_score;
use lrc_cli_args::choice::{Racing, Reasoning, Scoring, Witnessing};
use lrc_shell_more::more::tell_unread;
use lrc_shell_more::noting::{Noting, unread};
use lrc_shell_sources::sources::Sources;
use std::alloc::Global;
use std::cell::Cell;
use std::io::Write;

/// Reports the races of a trace, or its pairs of locations, and returns the exit status.
pub(crate) fn trace_racing<F: Sources, W: Write, E: Write>(
    alloc: Global,
    terminal: bool,
    racing: &Racing<'_>,
    sources: &F,
    out: &mut W,
    err: &mut E,
) -> u8
    ensures { IsTraced terminal racing.now.file.now racing.now.file.now
        (λ between. IsRacingTold (F.known sources.now) racing.now racing.now.grouping
        (W.contents out.old) (W.contents out.new) (E.contents err.old) between result)
        (E.contents err.new) }
{
    let note = Cell::new(None);
    let noting = Noting {
        sources,
        report: Some(racing.file),
        note: &note,
    };
    let status = tell_racing(alloc, racing, &noting, out, err);
    tell_unread(
        alloc,
        terminal,
        unread(note.get(), racing.file, racing.file),
        err,
    );
    status
}

/// Says whether the accesses on two lines of a trace are a sure race, and returns the exit status.
pub(crate) fn trace_witness<F: Sources, W: Write, E: Write>(
    alloc: Global,
    terminal: bool,
    witnessing: &Witnessing<'_>,
    sources: &F,
    out: &mut W,
    err: &mut E,
) -> u8
    ensures { IsTraced terminal witnessing.now.file.now witnessing.now.file.now
        (λ between. IsWitnessPlayed (F.known sources.now) witnessing.now.file.now
        (form_of witnessing.now.form) witnessing.now.strict witnessing.now.lines.first witnessing.now.lines.second
        (W.contents out.old) (W.contents out.new) (E.contents err.old) between result)
        (E.contents err.new) }
{
    let note = Cell::new(None);
    let noting = Noting {
        sources,
        report: Some(witnessing.file),
        note: &note,
    };
    let status = tell_witness(alloc, witnessing, &noting, out, err);
    tell_unread(
        alloc,
        terminal,
        unread(note.get(), witnessing.file, witnessing.file),
        err,
    );
    status
}

/// Says why the events on two lines of a trace are ordered, or that they race, and returns the exit status.
pub(crate) fn trace_reasons<F: Sources, W: Write, E: Write>(
    alloc: Global,
    terminal: bool,
    reasoning: &Reasoning<'_>,
    sources: &F,
    out: &mut W,
    err: &mut E,
) -> u8
    ensures { IsTraced terminal reasoning.now.file.now reasoning.now.file.now
        (λ between. IsWhyPlayed (F.known sources.now) reasoning.now.file.now
        (form_of reasoning.now.form) reasoning.now.strict reasoning.now.lines.first reasoning.now.lines.second
        (W.contents out.old) (W.contents out.new) (E.contents err.old) between result)
        (E.contents err.new) }
{
    let note = Cell::new(None);
    let noting = Noting {
        sources,
        report: Some(reasoning.file),
        note: &note,
    };
    let status = tell_reasons(alloc, reasoning, &noting, out, err);
    tell_unread(
        alloc,
        terminal,
        unread(note.get(), reasoning.file, reasoning.file),
        err,
    );
    status
}

/// Says of each claim of a report whether it is true of a trace, and what the report missed, and returns the exit status.
pub(crate) fn trace_score<F: Sources, W: Write, E: Write>(
    alloc: Global,
    terminal: bool,
    scoring: &Scoring<'_>,
    sources: &F,
    out: &mut W,
    err: &mut E,
) -> u8
    ensures { IsTraced terminal scoring.now.file.now scoring.now.report.now
        (λ between. IsScorePlayed (F.known sources.now) scoring.now.file.now scoring.now.report.now
        (form_of scoring.now.form) scoring.now.strict (sought_of scoring.now.sure)
        (W.contents out.old) (W.contents out.new) (E.contents err.old) between result)
        (E.contents err.new) }
{
    let note = Cell::new(None);
    let noting = Noting {
        sources,
        report: Some(scoring.report),
        note: &note,
    };
    let status = tell_score(alloc, scoring, &noting, out, err);
    tell_unread(
        alloc,
        terminal,
        unread(note.get(), scoring.file, scoring.report),
        err,
    );
    status
}
