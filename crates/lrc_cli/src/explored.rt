// What the program answers to the command `explore`.

ghost use Rattle.std.specs.Prelude.{◌≤◌, ◌⊎◌, IfErr, IfOk, None};
ghost use Rattle.lrc_cli.specs.Answer.{HasFindingsFault, HasLazyFault, HasLazyRunFault, HasLineFault, HasOrdersFault, HasOutcomeFault, IsAnswerTo, IsAnswered, IsExactAnswer, IsExactFault, IsExploration, IsExplorationMet, IsFault, IsFaultIn, IsFlatAnswer, IsFlatFault};
ghost use Rattle.lrc_cli.specs.Answer.{IsLazyAnswer, IsLazyFault, IsSaid, IsSaidMet, IsSearchFault, Meets, Prints, ShowsEnds, ShowsFindings, ShowsLazyOutcomes, ShowsLazyRun, ShowsOrders, ShowsOutcome};
ghost use Rattle.lrc_cli.specs.Met.{IsFlatMet, IsMetIn, IsOrdersMet, MeetsEnds, MeetsFindings, MeetsOrders};
ghost use Rattle.lrc_cli_answer.specs.Texts.{IsTextFault, IsTextOf};
ghost use Rattle.lrc_explain_waits.specs.Traps.{wording_of};
ghost use Rattle.lrc_program.specs.declared.Program.{Program as AnyProgram};
ghost use Rattle.lrc_text.specs.Parts.{whole_text};
ghost use Rattle.lrc_cli_args.specs.declared.choice.Choice.TheVariants.{Explore};

use crate::answer::{Answered, printed};
use crate::events::events_of;
use crate::exact::{all_exact_runs, one_exact_run, tries_of};
use crate::reading::{exploring_for, read};
use lrc_cli_answer::fault::Fault;
use lrc_cli_answer::printout::{Printout, in_one};
use lrc_cli_args::choice::{ExactOptions, Exploring, Memory};
use lrc_explain_waits::Wording;
use lrc_explore_text::ends::explored_ends;
use lrc_explore_text::explored::Told;
use lrc_explore_text::orders::findings_told;
use lrc_explore_text::outcome_run::outcome_run_told;
use lrc_labels::read_labels;
use lrc_lang::parse;
use lrc_lazy_text::listed::lazy_outcomes_told;
use lrc_lazy_text::one::lazy_run_told;
use lrc_orders::search::ExploreFault;
use lrc_program::Program;
use lrc_source::read_text::ReadText;
use std::alloc::Global;

/// Answers the command `explore` for the text of a program.
pub(crate) fn explored(
    alloc: Global,
    exploring: &Exploring<'_>,
    text: &[u8],
) -> Result<Answered, Fault>
    ensures ok { IfOk result (IsAnswered (Prints (Explore exploring.now) text.now None)
        (Meets (Explore exploring.now) text.now)) }
    ensures err { IfErr result (IsFault (Explore exploring.now) text.now None) }
{
    let reading = read(alloc, text)?;
    let told = reading.told();
    let own = exploring_for(exploring, reading.nodes());
    explored_as_read(alloc, &own, &told)
}

// The same of a text as it is read.
fn explored_as_read(
    alloc: Global,
    exploring: &Exploring<'_>,
    text: &ReadText<'_>,
) -> Result<Answered, Fault>
    ensures ok { IfOk result (λ answered. (program : AnyProgram) × IsTextOf text.now.core program
        × IsAnswered (IsExploration exploring.now text.now program)
        (IsExplorationMet exploring.now text.now program) answered) }
    ensures err { IfErr result (λ fault. IsTextFault text.now.core fault
        ⊎ ((program : AnyProgram) × IsTextOf text.now.core program
        × IsSearchFault exploring.now program fault)) }
{
    let program = parse(alloc, text.core())?;
    answered(alloc, exploring, text, &program)
}

// What is said of the program that this text is of, or the events that are asked for in its place.
fn answered(
    alloc: Global,
    exploring: &Exploring<'_>,
    text: &ReadText<'_>,
    program: &Program,
) -> Result<Answered, Fault>
    requires { IsTextOf text.now.core program.now }
    ensures ok { IfOk result (IsAnswered (IsExploration exploring.now text.now program.now)
        (IsExplorationMet exploring.now text.now program.now)) }
    ensures err { IfErr result (IsSearchFault exploring.now program.now) }
{
    match exploring.events {
        Some(tell) => events_of(alloc, exploring, program, tell),
        None => all_orders(alloc, exploring, text, program),
    }
}

// What is said of the program that this text is of, in the words of the text.
fn all_orders(
    alloc: Global,
    exploring: &Exploring<'_>,
    text: &ReadText<'_>,
    program: &Program,
) -> Result<Answered, Fault>
    requires { IsTextOf text.now.core program.now }
    ensures ok { IfOk result (IsAnswered (IsSaid exploring.now text.now program.now)
        (IsSaidMet exploring.now text.now program.now)) }
    ensures err { IfErr result (IsFaultIn exploring.now.memory exploring.now program.now) }
{
    let lines = text.lines(alloc)?;
    let labels = read_labels(alloc, text.core(), program.words, program.locks)?;
    let wording = Wording {
        labels: &labels.said,
        traps: text.traps(),
    };
    in_memory(alloc, exploring, &wording, program, &lines)
}

// What is said of the runs of the memory that is asked for.
fn in_memory(
    alloc: Global,
    exploring: &Exploring<'_>,
    wording: &Wording<'_, '_>,
    program: &Program,
    lines: &[u32],
) -> Result<Answered, Fault>
    ensures ok { IfOk result (IsAnswered
        (IsAnswerTo exploring.now.memory exploring.now (wording_of wording.now) program.now lines.now)
        (IsMetIn exploring.now.memory exploring.now (wording_of wording.now) program.now lines.now)) }
    ensures err { IfErr result (IsFaultIn exploring.now.memory exploring.now program.now) }
{
    match exploring.memory {
        Memory::Flat => of_flat(alloc, exploring, wording, program, lines),
        Memory::Lazy => of_lazy(alloc, exploring, wording, program, lines),
        Memory::Exact(options) => of_exact(alloc, exploring, options, wording, program, lines),
    }
}

// What is said of the runs of one flat memory.
fn of_flat(
    alloc: Global,
    exploring: &Exploring<'_>,
    wording: &Wording<'_, '_>,
    program: &Program,
    lines: &[u32],
) -> Result<Answered, Fault>
    ensures ok { IfOk result (IsAnswered
        (IsFlatAnswer exploring.now.outcome exploring.now.ends exploring.now.ignores_races exploring.now
        (wording_of wording.now) program.now lines.now)
        (IsFlatMet exploring.now.outcome exploring.now.ends exploring.now.ignores_races exploring.now
        (wording_of wording.now) program.now lines.now)) }
    ensures err { IfErr result (IsFlatFault exploring.now.outcome exploring.now.ends
        exploring.now.ignores_races exploring.now program.now) }
{
    match exploring.outcome {
        Some(outcome) => printed(one_outcome(alloc, exploring, program, lines, outcome.number)),
        None if exploring.ends => ends_asked(alloc, exploring, wording, program, lines),
        None if exploring.ignores_races => races_ignored(alloc, exploring, wording, program, lines),
        None => every_order(alloc, exploring, wording, program, lines),
    }
}

// What is said of the runs of any memory that keeps lazy reading.
fn of_lazy(
    alloc: Global,
    exploring: &Exploring<'_>,
    wording: &Wording<'_, '_>,
    program: &Program,
    lines: &[u32],
) -> Result<Answered, Fault>
    ensures ok { IfOk result (IsAnswered
        (IsLazyAnswer exploring.now.outcome exploring.now.outcomes exploring.now
        (wording_of wording.now) program.now lines.now)
        (IsOrdersMet exploring.now.outcome exploring.now.outcomes exploring.now
        (wording_of wording.now) program.now lines.now)) }
    ensures err { IfErr result (IsLazyFault exploring.now.outcome exploring.now.outcomes
        exploring.now program.now) }
{
    match exploring.outcome {
        Some(outcome) => printed(one_lazy_run(alloc, exploring, program, lines, outcome.number)),
        None if exploring.outcomes => printed(all_lazy_runs(alloc, exploring, program)),
        None => every_order(alloc, exploring, wording, program, lines),
    }
}

// What is said of the runs of the exact memory.
fn of_exact(
    alloc: Global,
    exploring: &Exploring<'_>,
    options: ExactOptions,
    wording: &Wording<'_, '_>,
    program: &Program,
    lines: &[u32],
) -> Result<Answered, Fault>
    ensures ok { IfOk result (IsAnswered
        (IsExactAnswer exploring.now.outcome exploring.now.outcomes options exploring.now
        (wording_of wording.now) program.now lines.now)
        (IsOrdersMet exploring.now.outcome exploring.now.outcomes exploring.now
        (wording_of wording.now) program.now lines.now)) }
    ensures err { IfErr result (IsExactFault exploring.now.outcome exploring.now.outcomes options
        exploring.now program.now) }
{
    match exploring.outcome {
        Some(outcome) => printed(one_exact_run(
            alloc,
            exploring,
            options,
            program,
            lines,
            outcome.number,
        )),
        None if exploring.outcomes => printed(all_exact_runs(alloc, exploring, options, program)),
        None => every_order(alloc, exploring, wording, program, lines),
    }
}

// What is said of every order.
fn every_order(
    alloc: Global,
    exploring: &Exploring<'_>,
    wording: &Wording<'_, '_>,
    program: &Program,
    lines: &[u32],
) -> Result<Answered, Fault>
    ensures ok { IfOk result (IsAnswered
        (ShowsOrders exploring.now (wording_of wording.now) program.now lines.now)
        (MeetsOrders exploring.now (wording_of wording.now) program.now lines.now)) }
    ensures err { IfErr result (HasOrdersFault exploring.now program.now) }
{
    let nodes = exploring.nodes.count;
    let most = exploring.most.count;
    let outcomes = exploring.outcomes;
    match lrc_explore_text::explored::explored(
        alloc,
        wording,
        program,
        lines,
        nodes,
        most as usize,
        outcomes,
    ) {
        Ok(Told::All(told)) => Ok(Answered::Printed(Printout {
            parts: told.parts,
            status: told.status,
        })),
        Ok(Told::Many(parts)) => Ok(Answered::Met(parts, Fault::TooManyStates(most))),
        Err(ExploreFault::TooMany) => Err(Fault::TooManyStates(most)),
        Err(ExploreFault::NoMemory) => Err(Fault::NoMemory),
        Err(ExploreFault::BadNodes) => unreachable!(),
    }
}

// What is said of every order but for races.
fn races_ignored(
    alloc: Global,
    exploring: &Exploring<'_>,
    wording: &Wording<'_, '_>,
    program: &Program,
    lines: &[u32],
) -> Result<Answered, Fault>
    ensures ok { IfOk result (IsAnswered
        (ShowsFindings exploring.now (wording_of wording.now) program.now lines.now)
        (MeetsFindings exploring.now (wording_of wording.now) program.now lines.now)) }
    ensures err { IfErr result (HasFindingsFault exploring.now program.now) }
{
    let nodes = exploring.nodes.count;
    let most = exploring.most.count;
    match findings_told(alloc, wording, program, lines, nodes, most as usize) {
        Ok(Told::All(told)) => Ok(Answered::Printed(Printout {
            parts: told.parts,
            status: told.status,
        })),
        Ok(Told::Many(parts)) => Ok(Answered::Met(parts, Fault::TooManyStates(most))),
        Err(ExploreFault::TooMany) => Err(Fault::TooManyStates(most)),
        Err(ExploreFault::NoMemory) => Err(Fault::NoMemory),
        Err(ExploreFault::BadNodes) => unreachable!(),
    }
}

// What is said of every order and of ends.
fn ends_asked(
    alloc: Global,
    exploring: &Exploring<'_>,
    wording: &Wording<'_, '_>,
    program: &Program,
    lines: &[u32],
) -> Result<Answered, Fault>
    ensures ok { IfOk result (IsAnswered
        (ShowsEnds exploring.now (wording_of wording.now) program.now lines.now)
        (MeetsEnds exploring.now (wording_of wording.now) program.now lines.now)) }
    ensures err { IfErr result (HasLineFault exploring.now program.now) }
{
    let nodes = exploring.nodes.count;
    let most = exploring.most.count;
    let races = !exploring.ignores_races;
    match explored_ends(alloc, wording, program, lines, nodes, most as usize, races) {
        Ok(Told::All(told)) => Ok(Answered::Printed(Printout {
            parts: told.parts,
            status: told.status,
        })),
        Ok(Told::Many(parts)) => Ok(Answered::Met(parts, Fault::TooManyStates(most))),
        Err(ExploreFault::TooMany) => Err(Fault::TooManyStates(most)),
        Err(ExploreFault::NoMemory) => Err(Fault::NoMemory),
        Err(ExploreFault::BadNodes) => unreachable!(),
    }
}

// What is said of the outcome of this number.
fn one_outcome(
    alloc: Global,
    exploring: &Exploring<'_>,
    program: &Program,
    lines: &[u32],
    number: u64,
) -> Result<Printout, Fault>
    requires { 1 ≤ number }
    ensures ok { IfOk result (λ printout.
        ShowsOutcome exploring.now program.now lines.now number
        (whole_text printout.parts.items) printout.status) }
    ensures err { IfErr result (HasOutcomeFault exploring.now program.now number) }
{
    let most = exploring.most.count;
    match outcome_run_told(
        alloc,
        program,
        lines,
        exploring.nodes.count,
        most as usize,
        number,
    ) {
        Ok(Some(text)) => Ok(Printout {
            parts: in_one(alloc, text)?,
            status: 0,
        }),
        Ok(None) => Err(Fault::NoOutcome(number)),
        Err(ExploreFault::TooMany) => Err(Fault::TooManyStates(most)),
        Err(ExploreFault::NoMemory) => Err(Fault::NoMemory),
        Err(ExploreFault::BadNodes) => unreachable!(),
    }
}

// What is said of the outcomes of all lazy runs.
fn all_lazy_runs(
    alloc: Global,
    exploring: &Exploring<'_>,
    program: &Program,
) -> Result<Printout, Fault>
    ensures ok { IfOk result (λ printout.
        ShowsLazyOutcomes exploring.now program.now
        (whole_text printout.parts.items) printout.status) }
    ensures err { IfErr result (HasLazyFault exploring.now program.now) }
{
    let most = exploring.most.count;
    match lazy_outcomes_told(
        alloc,
        program,
        exploring.nodes,
        most as usize,
        tries_of(exploring),
    ) {
        Ok(parts) => Ok(Printout { parts, status: 0 }),
        Err(ExploreFault::TooMany) => Err(Fault::TooManyStates(most)),
        Err(ExploreFault::NoMemory) => Err(Fault::NoMemory),
        Err(ExploreFault::BadNodes) => unreachable!(),
    }
}

// What is said of the outcome of this number of all lazy runs.
fn one_lazy_run(
    alloc: Global,
    exploring: &Exploring<'_>,
    program: &Program,
    lines: &[u32],
    number: u64,
) -> Result<Printout, Fault>
    requires { 1 ≤ number }
    ensures ok { IfOk result (λ printout.
        ShowsLazyRun exploring.now program.now lines.now number
        (whole_text printout.parts.items) printout.status) }
    ensures err { IfErr result (HasLazyRunFault exploring.now program.now number) }
{
    let most = exploring.most.count;
    match lazy_run_told(
        alloc,
        program,
        lines,
        exploring.nodes,
        most as usize,
        number,
    ) {
        Ok(Some(text)) => Ok(Printout {
            parts: in_one(alloc, text)?,
            status: 0,
        }),
        Ok(None) => Err(Fault::NoOutcome(number)),
        Err(ExploreFault::TooMany) => Err(Fault::TooManyStates(most)),
        Err(ExploreFault::NoMemory) => Err(Fault::NoMemory),
        Err(ExploreFault::BadNodes) => unreachable!(),
    }
}
