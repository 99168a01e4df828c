// What the program answers to the command `explore` of the exact memory.

ghost use Rattle.std.specs.Prelude.{◌≡◌, ◌≤◌, IfErr, IfOk};
ghost use Rattle.lrc_text.specs.Parts.{whole_text};
ghost use Rattle.lrc_exact_judge.specs.Shape.{shape_of};
ghost use Rattle.lrc_exact_text.specs.Layout.{shape_in};
ghost use Rattle.lrc_node.specs.Options.{options_of};
ghost use Rattle.lrc_cli.specs.Exact.{HasExactFault, HasExactRunFault, ShowsExactEvents, ShowsExactOutcomes, ShowsExactRun, exact_options, exact_shape, tries_asked};

use lrc_cli_answer::fault::Fault;
use lrc_cli_answer::printout::{Printout, in_one};
use lrc_cli_args::choice::{ExactOptions, Exploring};
use lrc_exact_judge::layout::Layout;
use lrc_exact_text::events::exact_events_told;
use lrc_exact_text::listed::exact_outcomes_told;
use lrc_exact_text::one::exact_run_told;
use lrc_orders::search::ExploreFault;
use lrc_program::Program;
use lrc_setting::setting::{Setting, Steps};
use std::alloc::Global;

/// Says what the outcomes of all exact runs are.
pub(crate) fn all_exact_runs(
    alloc: Global,
    exploring: &Exploring<'_>,
    options: ExactOptions,
    program: &Program,
) -> Result<Printout, Fault>
    ensures ok { IfOk result (λ printout.
        ShowsExactOutcomes options exploring.now program.now
        (whole_text printout.parts.items) printout.status) }
    ensures err { IfErr result (HasExactFault options exploring.now program.now) }
{
    let most = exploring.most.count;
    let setting = setting_of(exploring, options);
    match exact_outcomes_told(alloc, program, &setting, most as usize, tries_of(exploring)) {
        Ok(parts) => Ok(Printout { parts, status: 0 }),
        Err(ExploreFault::TooMany) => Err(Fault::TooManyStates(most)),
        Err(ExploreFault::NoMemory) => Err(Fault::NoMemory),
        Err(ExploreFault::BadNodes) => unreachable!(),
    }
}

/// Says what an exact run does that has the outcome of this number, among those of all exact runs.
pub(crate) fn one_exact_run(
    alloc: Global,
    exploring: &Exploring<'_>,
    options: ExactOptions,
    program: &Program,
    lines: &[u32],
    number: u64,
) -> Result<Printout, Fault>
    requires { 1 ≤ number }
    ensures ok { IfOk result (λ printout.
        ShowsExactRun options exploring.now program.now lines.now number
        (whole_text printout.parts.items) printout.status) }
    ensures err { IfErr result (HasExactRunFault options exploring.now program.now number) }
{
    let most = exploring.most.count;
    let layout = layout_of(exploring, options);
    match exact_run_told(alloc, program, lines, layout, most as usize, number) {
        Ok(Some(text)) => Ok(Printout {
            parts: in_one(alloc, text)?,
            status: 0,
        }),
        Ok(None) => Err(Fault::NoOutcome(number)),
        Err(ExploreFault::TooMany) => Err(Fault::TooManyStates(most)),
        Err(ExploreFault::NoMemory) => Err(Fault::NoMemory),
        Err(ExploreFault::BadNodes) => unreachable!(),
    }
}

/// Says by which events the nodes make such a run.
pub(crate) fn one_exact_run_as_events(
    alloc: Global,
    exploring: &Exploring<'_>,
    options: ExactOptions,
    program: &Program,
    number: u64,
) -> Result<Printout, Fault>
    requires { 1 ≤ number }
    ensures ok { IfOk result (λ printout.
        ShowsExactEvents options exploring.now program.now number
        (whole_text printout.parts.items) printout.status) }
    ensures err { IfErr result (HasExactRunFault options exploring.now program.now number) }
{
    let most = exploring.most.count;
    let setting = setting_of(exploring, options);
    match exact_events_told(alloc, program, &setting, most as usize, number) {
        Ok(Some(text)) => Ok(Printout {
            parts: in_one(alloc, text)?,
            status: 0,
        }),
        Ok(None) => Err(Fault::NoOutcome(number)),
        Err(ExploreFault::TooMany) => Err(Fault::TooManyStates(most)),
        Err(ExploreFault::NoMemory) => Err(Fault::NoMemory),
        Err(ExploreFault::BadNodes) => unreachable!(),
    }
}

// How the exact memory is laid out for the nodes.
fn layout_of(exploring: &Exploring<'_>, options: ExactOptions) -> Layout
    ensures { shape_of result ≡ exact_shape options exploring.now }
{
    Layout {
        nodes: exploring.nodes.number(),
        page_words: u32::from(options.size.words()),
        collect: options.collect.count,
    }
}

// With what the nodes run.
fn setting_of(exploring: &Exploring<'_>, options: ExactOptions) -> Setting
    ensures shape { shape_in result ≡ exact_shape options exploring.now }
    ensures options { options_of result ≡ exact_options options }
{
    Setting {
        nodes: exploring.nodes,
        steps: Steps { count: 1_000_000 },
        collect: options.collect.count,
        size: options.size,
        first: 0,
    }
}

// How many runs at random are tried, if any are.
pub(crate) fn tries_of(exploring: &Exploring<'_>) -> Option<u32>
    ensures { result ≡ tries_asked exploring.now }
{
    match exploring.tries {
        Some(tries) => Some(tries.count),
        None => None,
    }
}
