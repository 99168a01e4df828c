// What the program answers to a run without threads, and what is shown of any run.

ghost use Rattle.std.specs.Prelude.{◌≡◌, ◌<◌, All, IfErr, IfOk, false, is_some, length, option_map};
ghost use Rattle.lrc_judge.specs.Order.{IsOrderOf};
ghost use Rattle.lrc_cli_runs.specs.Showing.{RefusesRun, ShowsRun};
ghost use Rattle.lrc_cli_runs.specs.Explained.{IsExplained};
ghost use Rattle.lrc_cli_runs.specs.Shown.{IsRunFor, IsShowFault, IsShown, keep_for, shown_status};
ghost use Rattle.lrc_run.specs.Run.{turns_of_nodes};
ghost use Rattle.lrc_stats.specs.StatsText.{stats_text};
ghost use Rattle.lrc_text.specs.Parts.{whole_text};
ghost use Rattle.lrc_cli_args.specs.Files.{events_along, is_on_threads};

use crate::charted::charted;
use crate::reasoned::reasons_of_run;
use crate::runs::run_of;
use crate::stated::stepped;
use crate::trace::traced;
use lrc_cli_answer::fault::Fault;
use lrc_cli_answer::printout::{Printout, in_one};
use lrc_cli_args::choice::{Form, RunChoice, RunOptions, Shape};
use lrc_explain::explain;
use lrc_explain_waits::traps_told;
use lrc_judge::order::{Order, happens_before};
use lrc_node::End;
use lrc_report::report::{run_parts, status_after_run};
use lrc_source::read_text::ReadText;
use lrc_source::source::Source;
use lrc_source::text::SourceText;
use lrc_stats::stats_part;
use lrc_trace::act::Act;
use lrc_world::keep::Keep;
use lrc_world::run::Run;
use std::alloc::{AllocError, Global};

/// Answers a choice of a run without threads, from the program's text as it is read, and from the text of events if the
/// choice names one.
pub fn show(
    alloc: Global,
    choice: &RunChoice<'_>,
    shape: Shape,
    text: &ReadText<'_>,
    events: Option<&[u8]>,
) -> Result<Printout, Fault>
    requires threadless { is_on_threads choice.now.way ≡ false }
    requires events { is_some events ≡ is_some (events_along choice.now.way) }
    ensures ok { IfOk result (λ printout. ShowsRun choice.now shape text.now
        (option_map (λ e. e.now) events.entry) (whole_text printout.parts.items) printout.status) }
    ensures err { IfErr result (RefusesRun choice.now shape text.now
        (option_map (λ e. e.now) events.entry)) }
{
    let read = SourceText::read(alloc, text)?;
    answered(alloc, choice, shape, &read, events)
}

// The same of a text that is read.
fn answered(
    alloc: Global,
    choice: &RunChoice<'_>,
    shape: Shape,
    read: &SourceText<'_>,
    events: Option<&[u8]>,
) -> Result<Printout, Fault>
    requires threadless { is_on_threads choice.now.way ≡ false }
    requires events { is_some events ≡ is_some (events_along choice.now.way) }
    ensures ok { IfOk result (λ printout. ShowsRun choice.now shape read.now.text
        (option_map (λ e. e.now) events.entry) (whole_text printout.parts.items) printout.status) }
    ensures err { IfErr result (RefusesRun choice.now shape read.now.text
        (option_map (λ e. e.now) events.entry)) }
{
    let source = Source::of(alloc, read)?;
    let run = run_of(alloc, choice, source.program(), events, keep_for(shape))?;
    shown(alloc, shape, choice, &source, &run)
}

// What is kept of a run that is shown so.
pub(crate) fn keep_for(shape: Shape) -> Keep
    ensures { result ≡ keep_for shape }
{
    match shape {
        Shape::Report
        | Shape::Explain
        | Shape::Step(_)
        | Shape::Why(_)
        | Shape::Trace(Form::States(_)) => Keep::Newest,
        Shape::Stats => Keep::Turns,
        Shape::Trace(_) | Shape::Chart(_) => Keep::All,
    }
}

/// Shows a run of the program of this source. The run has kept what is shown of it.
pub(crate) fn shown(
    alloc: Global,
    shape: Shape,
    choice: &RunChoice<'_>,
    source: &Source<'_>,
    run: &Run,
) -> Result<Printout, Fault>
    requires ran { IsRunFor shape source.now.program choice.now.options run.now }
    ensures text { IfOk result (λ printout. IsShown shape choice.now source.now.text
        source.now.program run.now (whole_text printout.parts.items)) }
    ensures status { IfOk result (λ printout.
        printout.status ≡ shown_status shape run.now.report.first_race run.now.report.ends.items) }
    ensures err { IfErr result (IsShowFault shape choice.now source.now.text source.now.program
        run.now) }
{
    Ok(Printout {
        parts: parts_of(alloc, shape, choice, source, run)?,
        status: status_of(shape, &run.report.ends, run.report.first_race),
    })
}

// The status behind what is shown.
fn status_of(shape: Shape, ends: &[End], first_race: Option<usize>) -> u8
    ensures { result ≡ shown_status shape first_race ends.now }
{
    match shape {
        Shape::Chart(_) | Shape::Why(_) => 0,
        Shape::Report | Shape::Trace(_) | Shape::Explain | Shape::Stats | Shape::Step(_) => {
            status_after_run(ends, first_race)
        }
    }
}

fn parts_of(
    alloc: Global,
    shape: Shape,
    choice: &RunChoice<'_>,
    source: &Source<'_>,
    run: &Run,
) -> Result<Vec<Vec<u8>>, Fault>
    requires ran { IsRunFor shape source.now.program choice.now.options run.now }
    ensures ok { IfOk result (λ parts. IsShown shape choice.now source.now.text source.now.program
        run.now (whole_text parts.items)) }
    ensures err { IfErr result (IsShowFault shape choice.now source.now.text source.now.program
        run.now) }
{
    let options = &choice.options;
    let report = &run.report;
    let acts = report.acts.as_slice();
    let first_race = report.first_race;
    match shape {
        Shape::Report => Ok(run_parts(alloc, acts, &report.ends, &report.races, first_race)?),
        Shape::Trace(form) => traced(alloc, form, source, options, run),
        Shape::Explain => Ok(explained_alone(alloc, source, options, acts, first_race)?),
        Shape::Stats => Ok(counted(alloc, run)?),
        Shape::Chart(charting) => charted(alloc, charting, choice, source, run),
        Shape::Step(part) => stepped(alloc, part, source, options, run),
        Shape::Why(asking) => Ok(reasons_of_run(alloc, source, options, acts, &asking)?),
    }
}

// The report of a run with reasons, of acts whose order is not known yet.
fn explained_alone(
    alloc: Global,
    source: &Source<'_>,
    options: &RunOptions<'_>,
    acts: &[Act],
    first_race: Option<usize>,
) -> Result<Vec<Vec<u8>>, AllocError>
    requires { All (λ act. act.node < 16) acts.now }
    ensures { IfOk result (λ parts. IsExplained source.now.text source.now.program options.now
        acts.now first_race (whole_text parts.items)) }
{
    let order = happens_before(alloc, acts)?;
    explained(alloc, source, options, acts, &order, first_race)
}

/// Returns the report of a run with reasons, with the labels of the text.
pub(crate) fn explained(
    alloc: Global,
    source: &Source<'_>,
    options: &RunOptions<'_>,
    acts: &[Act],
    order: &Order,
    first_race: Option<usize>,
) -> Result<Vec<Vec<u8>>, AllocError>
    requires nodes { All (λ act. act.node < 16) acts.now }
    requires order { IsOrderOf acts.now order.now }
    ensures { IfOk result (λ parts. IsExplained source.now.text source.now.program options.now
        acts.now first_race (whole_text parts.items)) }
{
    let nodes = options.nodes.count as u8;
    let traps = traps_told(alloc, source.code(), source.text().traps(), nodes, acts)?;
    explain(
        alloc,
        source.labels(),
        &traps,
        source.code(),
        source.lines(),
        nodes,
        options.steps.count,
        acts,
        order,
        first_race,
    )
}

// The counts of a run.
fn counted(alloc: Global, run: &Run) -> Result<Vec<Vec<u8>>, AllocError>
    ensures { IfOk result (λ parts. whole_text parts.items
        ≡ stats_text (length run.now.events.items) (turns_of_nodes run.now.report)) }
{
    let part = stats_part(alloc, run.events.len() as u64, &run.report.logs)?;
    in_one(alloc, part)
}
