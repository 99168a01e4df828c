// A run as a picture.

ghost use Rattle.std.specs.Prelude.{◌≡◌, ◌<◌, All, IfErr, IfOk, Some, map, option_map};
ghost use Rattle.lrc_cli_runs.specs.Charted.{AreInvalidIn, AreWaitsIn, IsChart, IsCharted, IsChartFault, IsDrawn, part_of, source_of};
ghost use Rattle.lrc_cli_runs.specs.Runs.{IsRunWith, turns_in};
ghost use Rattle.lrc_cli_runs.specs.Shown.{IsShowFault};
ghost use Rattle.lrc_judge.specs.FirstPairs.{AreFirstPairs};
ghost use Rattle.lrc_program.specs.declared.Program.{Program as AnyProgram};
ghost use Rattle.lrc_explain_waits.specs.Circles.{waits_of};
ghost use Rattle.lrc_explain_waits.specs.Stand.{stands_of};
ghost use Rattle.lrc_text.specs.Parts.{whole_text};
ghost use Rattle.lrc_world.specs.declared.keep.Keep.TheVariants.{All as Whole};
ghost use Rattle.lrc_cli_args.specs.declared.choice.RunOptions.{RunOptions as AnyOptions};
ghost use Rattle.lrc_cli_args.specs.declared.choice.Shape.TheVariants.{Chart};

use crate::runs::setting_of;
use crate::trace::lines_kept;
use lrc_chart_build::{Course, Known, Part, portrait_of};
use lrc_chart_invalid::turns::invalidated;
use lrc_chart_model::Picture;
use lrc_chart_rows::turns_of;
use lrc_chart_svg::document_of;
use lrc_chart_text::sketch;
use lrc_chart_title::title_of;
use lrc_cli_answer::fault::Fault;
use lrc_cli_answer::printout::in_one;
use lrc_cli_args::choice::{Charting, RunChoice, RunOptions};
use lrc_explain_waits::{stands_of, waits_of};
use lrc_judge::first_pairs::{Pair, first_pairs};
use lrc_judge::order::happens_before;
use lrc_labels::read_labels;
use lrc_lines::walks::follow_acts;
use lrc_node::options_of;
use lrc_source::source::Source;
use lrc_svg::document_part;
use lrc_trace::act::Act;
use lrc_world::run::Run;
use std::alloc::{AllocError, Global};

/// Returns a chart of a run of the program of this source.
pub(crate) fn charted(
    alloc: Global,
    charting: Charting,
    choice: &RunChoice<'_>,
    source: &Source<'_>,
    run: &Run,
) -> Result<Vec<Vec<u8>>, Fault>
    requires { IsRunWith source.now.program choice.now.options Whole run.now }
    ensures ok { IfOk result (λ parts. IsCharted charting choice.now source.now.text
        source.now.program run.now (whole_text parts.items)) }
    ensures err { IfErr result (IsShowFault (Chart charting) choice.now source.now.text
        source.now.program run.now) }
{
    let nodes = choice.options.nodes.count as u8;
    let program = source.program();
    // The labels borrow the text that they are read from, and all that the course has is borrowed for one time: so they are read from a copy.
    let read = source.text();
    let bytes = Vec::from_slice(alloc, read.core())?;
    let copied = bytes.as_slice();
    let labelling = read_labels(alloc, copied, program.words, program.locks)?;
    let labels = labelling.said.as_slice();
    let acts = run.report.acts.as_slice();
    let places = lines_kept(alloc, source, &run.origins.statements)?;
    let lines = places.as_slice();
    let times = &run.origins.times;
    let found = pairs_of(alloc, acts)?;
    let pairs = found.as_slice();
    let order = order_of(alloc, run)?;
    let made = turns_of(alloc, &run.report.logs, &order)?;
    let turns = made.as_slice();
    let pages = pages_invalid(alloc, source, &choice.options, run)?;
    let invalid = pages.as_slice();
    let standing = waits_behind(alloc, source, &choice.options, acts)?;
    let waits = standing.as_slice();
    let known = Known {
        acts,
        lines,
        times,
        pairs,
        labels,
    };
    let course = Course {
        turns,
        invalid,
        known,
        waits,
    };
    let title = title_of(alloc, choice, &charting)?;
    let part = chart_part(alloc, charting, &title, nodes, &course, read.shown())?;
    Ok(in_one(alloc, part)?)
}

// Of each race that the acts of a run name the first pair.
fn pairs_of(alloc: Global, acts: &[Act]) -> Result<Vec<Pair>, AllocError>
    requires { All (λ act. act.node < 16) acts.now }
    ensures { IfOk result (λ pairs. AreFirstPairs acts.now pairs.items) }
{
    let order = happens_before(alloc, acts)?;
    first_pairs(alloc, &order, acts)
}

// For whom each node waits when a run has made these acts.
fn waits_behind(
    alloc: Global,
    source: &Source<'_>,
    options: &RunOptions<'_>,
    acts: &[Act],
) -> Result<Vec<Option<usize>>, AllocError>
    ensures { IfOk result (λ waits. AreWaitsIn source.now.text source.now.program options.now
        acts.now waits.items) }
{
    let nodes = options.nodes.count as u8;
    let followed = follow_acts(alloc, source.code(), source.lines(), nodes, acts)?;
    let stands = stands_of(alloc, &followed, nodes, Some(options.steps.count), acts)?;
    waits_of(alloc, &stands)
}

// The pages that become invalid at each turn of a run.
fn pages_invalid(
    alloc: Global,
    source: &Source<'_>,
    options: &RunOptions<'_>,
    run: &Run,
) -> Result<Vec<Vec<u16>>, AllocError>
    requires { IsRunWith source.now.program options.now Whole run.now }
    ensures { IfOk result (λ found. AreInvalidIn source.now.program options.now
        run.now.events.items (map (λ pages. pages.items) found.items)) }
{
    let setting = setting_of(options);
    let nodes = options.nodes.count as u8;
    invalidated(
        alloc,
        source.code(),
        nodes,
        &options_of(&setting),
        &run.events,
    )
}

// The nodes in the order in which they made the turns of a run.
fn order_of(alloc: Global, run: &Run) -> Result<Vec<u8>, AllocError>
    ensures { IfOk result (λ order. (program : AnyProgram) (options : AnyOptions)
        → IsRunWith program options Whole run.now
        → order.items ≡ map (λ turn. turn.node) (turns_in program options run.now.events.items)) }
{
    run.turned.iter().map(|turn| turn.node).collect(alloc)
}

// A chart of a run of the program that this text is of, under a title.
fn chart_part(
    alloc: Global,
    charting: Charting,
    title: &[u8],
    nodes: u8,
    course: &Course<'_>,
    text: &[u8],
) -> Result<Vec<u8>, Fault>
    ensures ok { IfOk result (λ part. IsChart charting title.now nodes course.now text.now
        part.items) }
    ensures err { IfErr result (IsChartFault charting course.now) }
{
    let source = source_of(charting, text);
    let picture = portrait_of(alloc, title, nodes, course, part_of(charting), source)?;
    Ok(drawn(alloc, charting.text, &picture)?)
}

// The text that stands beside a chart.
fn source_of(charting: Charting, text: &[u8]) -> Option<&[u8]>
    ensures { option_map (λ text. text.now) result ≡ source_of charting text.now }
{
    if charting.source { Some(text) } else { None }
}

/// Returns the part of a run, or of a list of acts, that a chart shows.
pub fn part_of(charting: Charting) -> Part
    ensures { result ≡ part_of charting }
{
    Part {
        from: position_of(charting.from),
        to: position_of(charting.to),
        hides_quiet: charting.hides_quiet,
    }
}

fn position_of(number: Option<u64>) -> Option<usize>
    ensures { result ≡ number }
{
    match number {
        Some(number) => Some(number as usize),
        None => None,
    }
}

/// Draws a picture for a terminal or as an SVG document.
pub fn drawn(alloc: Global, terminal: bool, picture: &Picture) -> Result<Vec<u8>, AllocError>
    ensures { IfOk result (λ part. IsDrawn terminal picture.now part.items) }
{
    if terminal {
        sketch(alloc, picture)
    } else {
        document_part(alloc, &document_of(alloc, picture)?)
    }
}
