// What is asked of a trace: its races, told as it is read, a sure race, or why two events are ordered.

ghost use Rattle.std.specs.Prelude.{◌≡◌};
ghost use Rattle.lrc_races_stream.specs.Locations.{IsLocationsPlayed};
ghost use Rattle.lrc_races_stream.specs.Plays.{IsRacesPlayed};
ghost use Rattle.lrc_races_stream.specs.Why.{IsWhyPlayed};
ghost use Rattle.lrc_races_stream.specs.Witness.{IsWitnessPlayed};
ghost use Rattle.lrc_shell.specs.Plays.{IsRacingTold, asked_of, form_of, is_grouped, layout_of, sought_of};

use lrc_cli_args::choice::{Grouping, Racing, Reasoning, TraceForm, Witnessing};
use lrc_races_stream::{play_locations, play_races, play_why, play_witness};
use lrc_races_text::asked::{Asked, Layout, Sought};
use lrc_races_text::form::Form;
use lrc_shell_sources::sources::Sources;
use std::alloc::Global;
use std::io::Write;

/// Reports the races of a trace while it is read, or its pairs of locations when it has ended, and returns the exit
/// status.
pub(crate) fn tell_racing<F: Sources, W: Write, E: Write>(
    alloc: Global,
    racing: &Racing<'_>,
    sources: &F,
    out: &mut W,
    err: &mut E,
) -> u8
    ensures { IsRacingTold (F.known sources.now) racing.now racing.now.grouping
        (W.contents out.old) (W.contents out.new) (E.contents err.old) (E.contents err.new) result }
{
    match racing.grouping {
        Grouping::Each => tell_races(alloc, racing, sources, out, err),
        Grouping::Groups => tell_races(alloc, racing, sources, out, err),
        Grouping::Locations => tell_locations(alloc, racing, sources, out, err),
    }
}

// Reports the races of a trace while it is read.
fn tell_races<F: Sources, W: Write, E: Write>(
    alloc: Global,
    racing: &Racing<'_>,
    sources: &F,
    out: &mut W,
    err: &mut E,
) -> u8
    ensures { IsRacesPlayed (F.known sources.now) racing.now.file.now
        (form_of racing.now.form) (asked_of racing.now)
        (W.contents out.old) (W.contents out.new) (E.contents err.old) (E.contents err.new) result }
{
    play_races(
        alloc,
        racing.file,
        form_of(racing.form),
        asked_of(racing),
        sources,
        out,
        err,
    )
}

// Reports the pairs of locations of a trace that race, when it has ended.
#[inline(never)]
fn tell_locations<F: Sources, W: Write, E: Write>(
    alloc: Global,
    racing: &Racing<'_>,
    sources: &F,
    out: &mut W,
    err: &mut E,
) -> u8
    ensures { IsLocationsPlayed (F.known sources.now) racing.now.file.now
        (form_of racing.now.form) racing.now.strict (sought_of racing.now.sure)
        (layout_of racing.now.json)
        (W.contents out.old) (W.contents out.new) (E.contents err.old) (E.contents err.new) result }
{
    play_locations(
        alloc,
        racing.file,
        form_of(racing.form),
        racing.strict,
        sought_of(racing.sure),
        layout_of(racing.json),
        sources,
        out,
        err,
    )
}

/// Says whether the accesses on two lines of a trace are a sure race, and returns the exit status.
#[inline(never)]
pub(crate) fn tell_witness<F: Sources, W: Write, E: Write>(
    alloc: Global,
    witnessing: &Witnessing<'_>,
    sources: &F,
    out: &mut W,
    err: &mut E,
) -> u8
    ensures { IsWitnessPlayed (F.known sources.now) witnessing.now.file.now
        (form_of witnessing.now.form) witnessing.now.strict witnessing.now.lines.first witnessing.now.lines.second
        (W.contents out.old) (W.contents out.new) (E.contents err.old) (E.contents err.new) result }
{
    play_witness(
        alloc,
        witnessing.file,
        form_of(witnessing.form),
        witnessing.strict,
        witnessing.lines.first,
        witnessing.lines.second,
        sources,
        out,
        err,
    )
}

/// Says why the events on two lines of a trace are ordered, or that they race, and returns the exit status.
#[inline(never)]
pub(crate) fn tell_reasons<F: Sources, W: Write, E: Write>(
    alloc: Global,
    reasoning: &Reasoning<'_>,
    sources: &F,
    out: &mut W,
    err: &mut E,
) -> u8
    ensures { IsWhyPlayed (F.known sources.now) reasoning.now.file.now
        (form_of reasoning.now.form) reasoning.now.strict reasoning.now.lines.first reasoning.now.lines.second
        (W.contents out.old) (W.contents out.new) (E.contents err.old) (E.contents err.new) result }
{
    play_why(
        alloc,
        reasoning.file,
        form_of(reasoning.form),
        reasoning.strict,
        reasoning.lines.first,
        reasoning.lines.second,
        sources,
        out,
        err,
    )
}

pub(crate) fn form_of(form: TraceForm) -> Form
    ensures { result ≡ form_of form }
{
    match form {
        TraceForm::Std => Form::Std,
        TraceForm::Acts => Form::Acts,
    }
}

fn asked_of(racing: &Racing<'_>) -> Asked
    ensures { result ≡ asked_of racing.now }
{
    Asked {
        sought: sought_of(racing.sure),
        group: is_grouped(racing.grouping),
        layout: layout_of(racing.json),
        strict: racing.strict,
    }
}

fn is_grouped(grouping: Grouping) -> bool
    ensures { result ≡ is_grouped grouping }
{
    match grouping {
        Grouping::Groups => true,
        _ => false,
    }
}

fn layout_of(json: bool) -> Layout
    ensures { result ≡ layout_of json }
{
    if json { Layout::Objects } else { Layout::Words }
}

pub(crate) fn sought_of(sure: bool) -> Sought
    ensures { result ≡ sought_of sure }
{
    if sure {
        Sought::SureRaces
    } else {
        Sought::AllRaces
    }
}
