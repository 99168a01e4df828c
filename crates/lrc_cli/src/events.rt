// What the program answers to the command `explore` where events are asked for.

ghost use Rattle.std.specs.Prelude.{◌≡◌, ◌≤◌, IfErr, IfOk};
ghost use Rattle.lrc_text.specs.Parts.{whole_text};
ghost use Rattle.lrc_cli.specs.Answer.{HasLineFault, HasOutcomeEventsFault, HasOutcomeFault, IsAnswered, IsEventsFault};
ghost use Rattle.lrc_cli.specs.Events.{IsEventsAnswer, ShowsEventsIn, ShowsLineOf, ShowsOutcomeEvents, line_of};
ghost use Rattle.lrc_cli.specs.Met.{IsEventsMet, MeetsLine};

use crate::answer::{Answered, printed};
use crate::exact::one_exact_run_as_events;
use lrc_cli_answer::fault::Fault;
use lrc_cli_answer::printout::{Printout, in_one};
use lrc_cli_args::choice::{Exploring, Memory, Tell};
use lrc_explore_events_text::outcome::outcome_shown;
use lrc_explore_events_text::told::{Line, Showing, line_shown};
use lrc_orders::search::ExploreFault;
use lrc_program::Program;
use std::alloc::Global;

/// Answers the command `explore` with the events along the order that it tells.
pub(crate) fn events_of(
    alloc: Global,
    exploring: &Exploring<'_>,
    program: &Program,
    tell: Tell,
) -> Result<Answered, Fault>
    ensures ok { IfOk result (IsAnswered
        (IsEventsAnswer exploring.now.outcome exploring.now tell program.now)
        (IsEventsMet exploring.now.outcome exploring.now tell program.now)) }
    ensures err { IfErr result (IsEventsFault exploring.now.outcome exploring.now program.now) }
{
    match exploring.outcome {
        Some(outcome) => printed(events_in_memory(alloc, exploring, program, outcome.number)),
        None => line_events(alloc, exploring, program, tell),
    }
}

// Events along a run, in the memory that is asked for, with the outcome of this number.
fn events_in_memory(
    alloc: Global,
    exploring: &Exploring<'_>,
    program: &Program,
    number: u64,
) -> Result<Printout, Fault>
    requires { 1 ≤ number }
    ensures ok { IfOk result (λ printout. ShowsEventsIn exploring.now.memory exploring.now
        program.now number (whole_text printout.parts.items) printout.status) }
    ensures err { IfErr result (HasOutcomeEventsFault exploring.now.memory exploring.now
        program.now number) }
{
    match exploring.memory {
        Memory::Flat => outcome_events(alloc, exploring, program, number),
        Memory::Lazy => outcome_events(alloc, exploring, program, number),
        Memory::Exact(options) => {
            one_exact_run_as_events(alloc, exploring, options, program, number)
        }
    }
}

// Events along the order of a line.
fn line_events(
    alloc: Global,
    exploring: &Exploring<'_>,
    program: &Program,
    tell: Tell,
) -> Result<Answered, Fault>
    ensures ok { IfOk result (IsAnswered
        (ShowsLineOf exploring.now (line_of tell) program.now)
        (MeetsLine exploring.now tell program.now)) }
    ensures err { IfErr result (HasLineFault exploring.now program.now) }
{
    let nodes = exploring.nodes.count;
    let most = exploring.most.count;
    let races = !exploring.ignores_races;
    match line_shown(
        alloc,
        program,
        nodes,
        most as usize,
        races,
        exploring.ends,
        line_of(tell),
    ) {
        Ok(Showing::All(shown)) => Ok(Answered::Printed(Printout {
            parts: in_one(alloc, shown.text)?,
            status: shown.status,
        })),
        Ok(Showing::Many(text)) => {
            let parts = in_one(alloc, text)?;
            Ok(Answered::Met(parts, Fault::TooManyStates(most)))
        }
        Err(ExploreFault::TooMany) => Err(Fault::TooManyStates(most)),
        Err(ExploreFault::NoMemory) => Err(Fault::NoMemory),
        Err(ExploreFault::BadNodes) => unreachable!(),
    }
}

// Events along a run with the outcome of this number.
fn outcome_events(
    alloc: Global,
    exploring: &Exploring<'_>,
    program: &Program,
    number: u64,
) -> Result<Printout, Fault>
    requires { 1 ≤ number }
    ensures ok { IfOk result (λ printout. ShowsOutcomeEvents exploring.now program.now number
        (whole_text printout.parts.items) printout.status) }
    ensures err { IfErr result (HasOutcomeFault exploring.now program.now number) }
{
    let nodes = exploring.nodes.count;
    let most = exploring.most.count;
    match outcome_shown(alloc, program, nodes, most as usize, number) {
        Ok(Some(text)) => Ok(Printout {
            parts: in_one(alloc, text)?,
            status: 0,
        }),
        Ok(None) => Err(Fault::NoOutcome(number)),
        Err(ExploreFault::TooMany) => Err(Fault::TooManyStates(most)),
        Err(ExploreFault::NoMemory) => Err(Fault::NoMemory),
        Err(ExploreFault::BadNodes) => unreachable!(),
    }
}

// The line of which an order is asked for.
fn line_of(tell: Tell) -> Line
    ensures { result ≡ line_of tell }
{
    match tell {
        Tell::First => Line::First,
        Tell::Stuck => Line::Stuck,
        Tell::Trap => Line::Trap,
        Tell::End => Line::End,
    }
}
