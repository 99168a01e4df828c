// The run that a choice asks for, by the way in which it goes on.

ghost use Rattle.std.specs.Prelude.{◌≡◌, IfErr, IfOk, Ok as Was, false, is_some, option_map};
ghost use Rattle.lrc_cli_runs.specs.Runs.{IsFollowedFault, IsFollowedRun, IsLedFault, IsPlayedFault, IsRunFault, IsRunOfWay, lead_of, options_of};
ghost use Rattle.lrc_events.specs.EventsText.{ReadsEvents};
ghost use Rattle.lrc_cli_args.specs.Files.{events_along, is_on_threads};
ghost use Rattle.lrc_world.specs.Runs.{IsRunBy, IsRunIn, WearsOutIn};
ghost use Rattle.lrc_node.specs.Options.{options_of as options_in};

use lrc_cli_answer::fault::Fault;
use lrc_cli_args::choice::{RunChoice, RunOptions, Then, Way};
use lrc_events::events::events_of;
use lrc_program::Program;
use lrc_setting::setting::Setting;
use lrc_world::keep::Keep;
use lrc_world::lead::Lead;
use lrc_world::report::TurnFault;
use lrc_world::run::{Order, Run, run_in};
use std::alloc::Global;

/// Runs a program without threads, along the text of events if the choice names one. The run keeps those turns of its
/// nodes that it was told to keep.
pub(crate) fn run_of(
    alloc: Global,
    choice: &RunChoice<'_>,
    program: &Program,
    events: Option<&[u8]>,
    keep: Keep,
) -> Result<Run, Fault>
    requires threadless { is_on_threads choice.now.way ≡ false }
    requires events { is_some events ≡ is_some (events_along choice.now.way) }
    ensures ok { IfOk result (IsRunOfWay choice.now.way program.now choice.now.options
        (option_map (λ e. e.now) events.entry) keep) }
    ensures err { IfErr result (IsRunFault choice.now.way program.now choice.now.options
        (option_map (λ e. e.now) events.entry)) }
{
    let options = &choice.options;
    match choice.way {
        Way::Events(_) => {
            let Some(text) = events else { unreachable!() };
            played(alloc, options, program, text, keep)
        }
        Way::Followed(_, next) => {
            let Some(text) = events else { unreachable!() };
            followed(alloc, options, program, text, next, keep)
        }
        Way::Rounds(order) => in_order(alloc, options, program, Order::Rounds(order), keep),
        Way::Random(seed) => in_order(alloc, options, program, Order::Random(seed), keep),
        Way::Threads(_) => unreachable!(),
    }
}

// The run of the events that a text names.
fn played(
    alloc: Global,
    options: &RunOptions<'_>,
    program: &Program,
    text: &[u8],
    keep: Keep,
) -> Result<Run, Fault>
    ensures run { IfOk result (IsRunBy (λ events. ReadsEvents text.now (Was events))
        program.now options.now.nodes.count (options_of options.now) keep) }
    ensures err { IfErr result (IsPlayedFault program.now options.now text.now) }
{
    let events = events_of(alloc, text)?;
    in_order(alloc, options, program, Order::Events(&events), keep)
}

// The run of the events that a text names, and of those that follow.
fn followed(
    alloc: Global,
    options: &RunOptions<'_>,
    program: &Program,
    text: &[u8],
    next: Then,
    keep: Keep,
) -> Result<Run, Fault>
    ensures run { IfOk result (IsFollowedRun program.now options.now text.now next keep) }
    ensures err { IfErr result (IsFollowedFault program.now options.now text.now next) }
{
    let events = events_of(alloc, text)?;
    let order = Order::Followed(&events, lead_of(next));
    in_order(alloc, options, program, order, keep)
}

// What leads a run that goes on so behind its events.
fn lead_of(next: Then) -> Lead
    ensures { result ≡ lead_of next }
{
    match next {
        Then::Rounds(picker) => Lead::Rounds(picker),
        Then::Random(seed) => Lead::Random(seed),
    }
}

// The run in an order.
fn in_order(
    alloc: Global,
    options: &RunOptions<'_>,
    program: &Program,
    order: Order<'_>,
    keep: Keep,
) -> Result<Run, Fault>
    ensures run { IfOk result (IsRunIn order.entry program.now options.now.nodes.count
        (options_of options.now) keep) }
    ensures err { IfErr result (IsLedFault (WearsOutIn order.entry program.now
        options.now.nodes.count (options_of options.now))) }
{
    match run_in(alloc, program, &setting_of(options), order, keep) {
        Ok(run) => Ok(run),
        Err(TurnFault::Worn) => Err(Fault::Worn),
        Err(TurnFault::NoMemory) => Err(Fault::NoMemory),
    }
}

/// Returns the setting of a run: its nodes and its options.
pub(crate) fn setting_of(options: &RunOptions<'_>) -> Setting
    ensures nodes { result.nodes.count ≡ options.now.nodes.count }
    ensures options { options_in result ≡ options_of options.now }
{
    Setting {
        nodes: options.nodes,
        steps: options.steps,
        collect: options.collect.count,
        size: options.size,
        first: 0,
    }
}
