// A run that has one of the outcomes of a program, as it is printed.

ghost use Rattle.std.specs.Prelude.{◌≡◌, ◌≢◌, ◌<◌, ◌≤◌, ◌↔◌, Contains, IfErr, IfOk, IsTrue, length, map, option_map, false, true};
ghost use Rattle.lrc_exec.specs.Nodes.{AreNodes};
ghost use Rattle.lrc_explore.specs.Answers.{IsFaultOf, IsSearchFault, MetTooMany};
ghost use Rattle.lrc_explore.specs.Reached.{IsTask};
ghost use Rattle.lrc_explore_less.specs.Outcomes.{AreEnded};
ghost use Rattle.lrc_explore_text.specs.OutcomeRun.{IsLineAt, IsPlaceOfNumber, IsRunAt, IsRunOfNumber, TellsRunOfNumber};
ghost use Rattle.lrc_explore_text.specs.Outcomes.{outcome_line};

use crate::orders::acts_told;
use crate::outcomes::{outcome_line, sorted_lines};
use lrc_exec::code::Code;
use lrc_explore::answers::task_of;
use lrc_explore::task::Task;
use lrc_explore_less::ended::{Ended, all_ended};
use lrc_orders::outcomes::Outcome;
use lrc_orders::search::ExploreFault;
use lrc_program::Program;
use lrc_trace::act::Act;
use std::alloc::{AllocError, Global};

/// Returns what is printed of the outcome with this number, counted from 1, among the outcomes of a program: the acts
/// of a run that has it. Returns none if there are fewer outcomes. `lines` has the lines of the program's statements,
/// and of the text's end behind them. There must be 1 to 16 nodes. Gives up with `TooMany` only if there are more than
/// `most` states to tell apart, or if a thread makes 1,000,000 + 20 * `most` free acts one after another. Fails if
/// memory runs out.
pub fn outcome_run_told(
    alloc: Global,
    program: &Program,
    lines: &[u32],
    nodes: u32,
    most: usize,
    number: u64,
) -> Result<Option<Vec<u8>>, ExploreFault>
    requires nodes { AreNodes nodes }
    requires number { 1 ≤ number }
    ensures told { IfOk result (λ told. TellsRunOfNumber program.now nodes lines.now number
        (option_map (λ text. text.items) told)) }
    ensures nodes { IfErr result (λ fault. fault ≢ ExploreFault.BadNodes) }
    ensures too_many { IfErr result (λ fault. fault ≡ ExploreFault.TooMany
        → MetTooMany program.now nodes most true false) }
{
    let count = nodes as u8;
    let run = outcome_run(alloc, program, count, most, number)?;
    match run {
        Some(acts) => {
            let text = acts_told(alloc, program, lines, count, &acts)?;
            Ok(Some(text))
        }
        None => Ok(None),
    }
}

/// Returns the acts of a run that has the outcome with this number, counted from 1, in the ascending list of a program's
/// outcomes, or none if there are fewer. There must be 1 to 16 nodes. Fails as [`outcome_run_told`] does.
pub fn outcome_run(
    alloc: Global,
    program: &Program,
    nodes: u8,
    most: usize,
    number: u64,
) -> Result<Option<Vec<Act>>, ExploreFault>
    requires number { 1 ≤ number }
    ensures run { IfOk result (λ run. IsRunOfNumber program.now nodes number
        (option_map (λ acts. acts.items) run)) }
    ensures faults { IfErr result (IsFaultOf program.now nodes most true false) }
{
    let code = Code::new(alloc, program)?;
    run_in(alloc, &code, nodes, most, number)
}

// The same of a program's flat code.
fn run_in(
    alloc: Global,
    code: &Code<'_>,
    nodes: u8,
    most: usize,
    number: u64,
) -> Result<Option<Vec<Act>>, ExploreFault>
    requires number { 1 ≤ number }
    ensures run { IfOk result (λ run. IsRunOfNumber code.now nodes number
        (option_map (λ acts. acts.items) run)) }
    ensures faults { IfErr result (IsFaultOf code.now nodes most true false) }
{
    let task = task_of(alloc, code, nodes, most, true)?;
    run_of(alloc, &task, number)
}

// The same of what is searched.
fn run_of(alloc: Global, task: &Task<'_>, number: u64) -> Result<Option<Vec<Act>>, ExploreFault>
    requires task { IsTask task.now }
    requires noting { task.now.noting ≡ true }
    requires number { 1 ≤ number }
    ensures run { IfOk result (λ run. IsRunOfNumber task.now.program.now task.now.flat.nodes number
        (option_map (λ acts. acts.items) run)) }
    ensures faults { IfErr result (IsSearchFault task.now false) }
{
    let ended = all_ended(alloc, task)?;
    run_among(alloc, task, &ended, number)
}

// The same of what was found.
fn run_among(
    alloc: Global,
    task: &Task<'_>,
    ended: &Ended,
    number: u64,
) -> Result<Option<Vec<Act>>, ExploreFault>
    requires task { IsTask task.now }
    requires noting { task.now.noting ≡ true }
    requires ended { AreEnded task.now ended.now }
    requires number { 1 ≤ number }
    ensures run { IfOk result (λ run. IsRunOfNumber task.now.program.now task.now.flat.nodes number
        (option_map (λ acts. acts.items) run)) }
    ensures faults { IfErr result (IsSearchFault task.now false) }
{
    let place = place_of(alloc, task.flat.nodes, ended.outcomes.as_slice(), number)?;
    match place {
        Some(place) => {
            let acts = run_at(alloc, task, ended, place)?;
            Ok(Some(acts))
        }
        None => Ok(None),
    }
}

// The acts of a run that has the outcome at a place.
fn run_at(
    alloc: Global,
    task: &Task<'_>,
    ended: &Ended,
    place: usize,
) -> Result<Vec<Act>, ExploreFault>
    requires task { IsTask task.now }
    requires noting { task.now.noting ≡ true }
    requires ended { AreEnded task.now ended.now }
    requires within { place < length ended.now.outcomes.keys }
    ensures run { IfOk result (λ acts. IsRunAt task.now ended.now place acts.items) }
    ensures faults { IfErr result (IsSearchFault task.now false) }
{
    let outcome = &ended.outcomes.as_slice()[place];
    match ended.less.run_told(alloc, task, &outcome.notes)? {
        Some(acts) => Ok(acts),
        None => unreachable!(),
    }
}

/// Returns the place of the outcome whose line has this number, counted from 1, in the ascending list of their lines.
/// Returns none if there are fewer outcomes. Fails if memory runs out.
pub fn place_of(
    alloc: Global,
    nodes: u8,
    outcomes: &[Outcome],
    number: u64,
) -> Result<Option<usize>, AllocError>
    requires { 1 ≤ number }
    ensures { IfOk result (IsPlaceOfNumber nodes outcomes.now number) }
{
    let lines = sorted_lines(alloc, nodes, outcomes)?;
    let at = number - 1;
    if at >= lines.len() as u64 {
        return Ok(None);
    }
    let place = place_of_line(alloc, nodes, outcomes, &lines[at as usize])?;
    Ok(Some(place))
}

// The place of the first outcome that has this line.
fn place_of_line(
    alloc: Global,
    nodes: u8,
    outcomes: &[Outcome],
    line: &[u8],
) -> Result<usize, AllocError>
    requires { Contains (map (λ outcome. outcome_line nodes outcome.notes.items) outcomes.now)
        line.now }
    ensures { IfOk result (IsLineAt nodes outcomes.now line.now) }
{
    for place in 0..outcomes.len() {
        let has = has_line(alloc, nodes, &outcomes[place], line)?;
        if has {
            return Ok(place);
        }
    }
    unreachable!()
}

// Whether an outcome has this line.
fn has_line(alloc: Global, nodes: u8, outcome: &Outcome, line: &[u8]) -> Result<bool, AllocError>
    ensures { IfOk result (λ has. IsTrue has
        ↔ (outcome_line nodes outcome.now.notes.items ≡ line.now)) }
{
    let own = outcome_line(alloc, nodes, &outcome.notes)?;
    Ok(is_same(&own, line))
}

// Whether two texts are the same.
fn is_same(one: &[u8], other: &[u8]) -> bool
    ensures { IsTrue result ↔ (one.now ≡ other.now) }
{
    one == other
}
