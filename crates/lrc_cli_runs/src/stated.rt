// The turns of a run with the states of its nodes, and the document that shows them.

ghost use Rattle.std.specs.Prelude.{◌≡◌, ◌≤◌, ℕ, IfErr, IfOk, List, length};
ghost use Rattle.lrc_judge.specs.Order.{IsOrderOf};
ghost use Rattle.lrc_cli_runs.specs.Explained.{IsExplained};
ghost use Rattle.lrc_cli_runs.specs.Lines.{AreLinesIn};
ghost use Rattle.lrc_cli_runs.specs.Runs.{IsRunWith};
ghost use Rattle.lrc_cli_runs.specs.Stated.{IsStated, IsStatesFault, IsStepped, acts_shown, end_shown, first_shown, name_of, range_of};
ghost use Rattle.lrc_step.specs.EndLines.{TellsEnds};
ghost use Rattle.lrc_step.specs.RaceLines.{TellsRaces};
ghost use Rattle.lrc_step.specs.ReasonLines.{TellsWhys};
ghost use Rattle.lrc_text.specs.Parts.{whole_text};
ghost use Rattle.lrc_world.specs.declared.keep.Keep.{Keep as AnyKeep};

use crate::runs::setting_of;
use crate::shown::explained;
use lrc_cli_answer::fault::Fault;
use lrc_cli_args::choice::{Part, RunOptions};
use lrc_judge::order::{Order, happens_before};
use lrc_lines::walks::lines_of_acts;
use lrc_node::options_of;
use lrc_source::source::Source;
use lrc_states::{Range, StatesFault, Telling, Told, states_parts};
use lrc_step::{Part as ShownActs, explain_part, races_part, reasons_part, step_document};
use lrc_trace::act::Act;
use lrc_world::run::Run;
use std::alloc::{AllocError, Global};

/// Returns the turns of a part of a run with the states of its nodes, in parts that make the text together.
pub(crate) fn stated(
    alloc: Global,
    telling: Telling,
    part: Part,
    source: &Source<'_>,
    options: &RunOptions<'_>,
    run: &Run,
) -> Result<Vec<Vec<u8>>, Fault>
    requires ran { (keep : AnyKeep) × IsRunWith source.now.program options.now keep run.now }
    ensures ok { IfOk result (λ parts. IsStated telling part source.now.text source.now.program
        options.now run.now (whole_text parts.items)) }
    ensures err { IfErr result (IsStatesFault part source.now.text source.now.program options.now
        run.now) }
{
    let setting = setting_of(options);
    let told = Told {
        source,
        nodes: options.nodes.count as u8,
        options: options_of(&setting),
        events: &run.events,
    };
    match states_parts(alloc, &told, range_of(part), telling) {
        Ok(parts) => Ok(parts),
        Err(StatesFault::TooLong) => Err(Fault::TooManyTurns),
        Err(StatesFault::NoMemory) => Err(Fault::NoMemory),
    }
}

// Which turns are shown.
fn range_of(part: Part) -> Range
    ensures { result ≡ range_of part }
{
    Range {
        from: part.from,
        to: part.to,
    }
}

// The first of the acts that are shown, of so many.
fn first_shown(position: Option<u64>, count: usize) -> usize
    ensures { result ≡ first_shown position count }
{
    match position {
        None => 0,
        Some(position) if position < count as u64 => position as usize,
        Some(_) => count,
    }
}

// Where the acts end that are shown, of so many.
fn end_shown(position: Option<u64>, count: usize) -> usize
    ensures end { result ≡ end_shown position count }
    ensures within { result ≤ count }
{
    match position {
        None => count,
        Some(position) if position < count as u64 => position as usize + 1,
        Some(_) => count,
    }
}

// The acts that are shown, of so many.
fn acts_shown(part: Part, count: usize) -> ShownActs
    ensures shown { result ≡ acts_shown part count }
    ensures within { result.until ≤ count }
{
    ShownActs {
        from: first_shown(part.from, count),
        until: end_shown(part.to, count),
    }
}

// The name of a file: its path behind the last stroke.
fn name_of(alloc: Global, path: &[u8]) -> Result<Vec<u8>, AllocError>
    ensures { IfOk result (λ name. name.items ≡ name_of path.now) }
{
    let mut name = Vec::new(alloc);
    for byte in path {
        if *byte == b'/' {
            name.clear();
        } else {
            name.push(*byte)?;
        }
    }
    Ok(name)
}

// The parts of a text in one.
fn joined(alloc: Global, parts: &[Vec<u8>]) -> Result<Vec<u8>, AllocError>
    ensures { IfOk result (λ text. text.items ≡ whole_text parts.now) }
{
    let mut text = Vec::new(alloc);
    for part in parts {
        text.extend_from_slice(part)?;
    }
    Ok(text)
}

// The text of a run with reasons.
fn explained_text(
    alloc: Global,
    source: &Source<'_>,
    options: &RunOptions<'_>,
    run: &Run,
    order: &Order,
) -> Result<Vec<u8>, AllocError>
    requires ran { (keep : AnyKeep) × IsRunWith source.now.program options.now keep run.now }
    requires order { IsOrderOf run.now.report.acts.items order.now }
    ensures { IfOk result (λ told. IsExplained source.now.text source.now.program options.now
        run.now.report.acts.items
        run.now.report.first_race told.items) }
{
    let acts = run.report.acts.as_slice();
    let parts = explained(alloc, source, options, acts, order, run.report.first_race)?;
    joined(alloc, &parts)
}

// The line of the run with reasons, of which this was printed.
fn ends_text(
    alloc: Global,
    source: &Source<'_>,
    options: &RunOptions<'_>,
    run: &Run,
    explained: &[u8],
) -> Result<Vec<u8>, AllocError>
    ensures { IfOk result (λ told. TellsEnds source.now.text source.now.program
        options.now.nodes.count options.now.steps.count run.now.report.acts.items explained.now
        told.items) }
{
    let acts = run.report.acts.as_slice();
    let nodes = options.nodes.count as u8;
    let steps = options.steps.count;
    explain_part(alloc, source, nodes, steps, acts, explained)
}

// The lines of a part of a run's races.
fn races_text(
    alloc: Global,
    part: Part,
    source: &Source<'_>,
    options: &RunOptions<'_>,
    run: &Run,
    order: &Order,
) -> Result<Vec<u8>, AllocError>
    requires ran { (keep : AnyKeep) × IsRunWith source.now.program options.now keep run.now }
    requires order { IsOrderOf run.now.report.acts.items order.now }
    ensures { IfOk result (λ told. (lines : List ℕ)
        × AreLinesIn source.now.text source.now.program options.now.nodes.count
        run.now.report.acts.items lines
        × TellsRaces run.now.report.acts.items lines
        (acts_shown part (length run.now.report.acts.items)) told.items) }
{
    let acts = run.report.acts.as_slice();
    let nodes = options.nodes.count as u8;
    let lines = lines_of_acts(alloc, source.code(), source.lines(), nodes, acts)?;
    let shown = acts_shown(part, acts.len());
    races_part(alloc, acts, &lines, order, nodes, shown)
}

// The lines of why the acts of a part of a run are as they are.
fn reasons_text(
    alloc: Global,
    part: Part,
    source: &Source<'_>,
    options: &RunOptions<'_>,
    run: &Run,
    order: &Order,
) -> Result<Vec<u8>, AllocError>
    requires ran { (keep : AnyKeep) × IsRunWith source.now.program options.now keep run.now }
    requires order { IsOrderOf run.now.report.acts.items order.now }
    ensures { IfOk result (λ told. TellsWhys source.now.text source.now.program
        options.now.nodes.count options.now.size run.now.report.acts.items
        (acts_shown part (length run.now.report.acts.items)) told.items) }
{
    let acts = run.report.acts.as_slice();
    let nodes = options.nodes.count as u8;
    let shown = acts_shown(part, acts.len());
    reasons_part(alloc, source, nodes, options.size, acts, order, shown)
}

/// Returns the document that shows the turns of a part of a run.
pub(crate) fn stepped(
    alloc: Global,
    part: Part,
    source: &Source<'_>,
    options: &RunOptions<'_>,
    run: &Run,
) -> Result<Vec<Vec<u8>>, Fault>
    requires ran { (keep : AnyKeep) × IsRunWith source.now.program options.now keep run.now }
    ensures ok { IfOk result (λ parts. IsStepped (name_of options.now.file.now) part
        source.now.text source.now.program options.now run.now (whole_text parts.items)) }
    ensures err { IfErr result (IsStatesFault part source.now.text source.now.program options.now
        run.now) }
{
    let states = stated(alloc, Telling::AlsoInMembers, part, source, options, run)?;
    let order = happens_before(alloc, &run.report.acts)?;
    let explained = explained_text(alloc, source, options, run, &order)?;
    let ends = ends_text(alloc, source, options, run, &explained)?;
    let races = races_text(alloc, part, source, options, run, &order)?;
    let reasons = reasons_text(alloc, part, source, options, run, &order)?;
    let name = name_of(alloc, options.file.as_bytes())?;
    let text = source.text().shown();
    let document = step_document(alloc, &name, text, states, ends, races, reasons)?;
    Ok(document)
}
