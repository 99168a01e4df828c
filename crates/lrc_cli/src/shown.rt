// What the program answers to a run, where a named program is read as its core.

ghost use Rattle.std.specs.Prelude.{◌≡◌, false, is_some, option_map};
ghost use Rattle.lrc_cli.specs.Showing.{AnswersAsRead};
ghost use Rattle.lrc_cli_args.specs.Files.{events_along, is_on_threads};

use crate::reading::{read, run_for};
use lrc_cli_answer::fault::Fault;
use lrc_cli_answer::printout::Printout;
use lrc_cli_args::choice::{RunChoice, Shape};
use lrc_cli_runs::any::show_any;
use lrc_cli_runs::shown::show;
use std::alloc::Global;
use std::sync::Wait;
use std::thread::Threads;

/// Answers a choice of a run without threads, from its texts.
pub(crate) fn shown(
    alloc: Global,
    run: &RunChoice<'_>,
    shape: Shape,
    text: &[u8],
    events: Option<&[u8]>,
) -> Result<Printout, Fault>
    requires threadless { is_on_threads run.now.way ≡ false }
    requires events { is_some events ≡ is_some (events_along run.now.way) }
    ensures { AnswersAsRead run.now shape text.now (option_map (λ e. e.now) events.entry) result }
{
    let reading = read(alloc, text)?;
    let told = reading.told();
    let own = run_for(run, reading.nodes());
    show(alloc, &own, shape, &told, events)
}

/// Answers a choice of a run, on threads or not, from its texts.
pub(crate) fn shown_any<R: Threads + Wait + Sync>(
    rt: &R,
    alloc: Global,
    run: &RunChoice<'_>,
    shape: Shape,
    text: &[u8],
    events: Option<&[u8]>,
) -> Result<Printout, Fault>
    requires { is_some events ≡ is_some (events_along run.now.way) }
    ensures { AnswersAsRead run.now shape text.now (option_map (λ e. e.now) events.entry) result }
{
    let reading = read(alloc, text)?;
    let told = reading.told();
    let own = run_for(run, reading.nodes());
    show_any(rt, alloc, &own, shape, &told, events)
}
