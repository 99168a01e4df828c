// What is printed of the acts of a run.

ghost use Rattle.std.specs.Prelude.{◌≡◌, ◌≢◌, ◌<◌, ◌≤◌, ℕ, All, IfErr, IfOk, IfSome, List, Some, length, map, option_map, slice_get, slice_index};
ghost use Rattle.lrc_judge.specs.declared.TheConstants.{NODES};
ghost use Rattle.lrc_judge.specs.Firsts.{AreIntervals};
ghost use Rattle.lrc_judge.specs.Order.{IsOrderOf};
ghost use Rattle.lrc_text.specs.Parts.{whole_text};
ghost use Rattle.lrc_why.specs.Spread.{OfEach};
ghost use Rattle.lrc_why_text.specs.Answers.{IsThere};
ghost use Rattle.lrc_why_text.specs.declared.asked.Asked.{Asked as AskedRecord};
ghost use Rattle.lrc_why_run.specs.Answers.{AnswersRun, IsAnswerable, RefusesRun, Tells, TellsAt, TellsBehind, TellsPrivate, trap_said};
ghost use Rattle.lrc_named_core.specs.View.{trap_of};

use crate::private::push_private;
use lrc_exec::code::Code;
use lrc_judge::intervals_of;
use lrc_judge::order::{Order, happens_before};
use lrc_lines::statements::{lines_of_statements, statements_of_acts};
use lrc_named_core::tree::Trap;
use lrc_page::Size;
use lrc_private_names::Way;
use lrc_source::source::Source;
use lrc_trace::act::Act;
use lrc_why_lines::look::act_at;
use lrc_why_lines::shown::Shown;
use lrc_why_text::acts::missing;
use lrc_why_text::asked::Asked;
use lrc_why_text::fault::WhyFault;
use lrc_why_text::whole::why_part;
use std::alloc::{AllocError, Global};

// What is told from the text of the act at a position.
fn private_part(
    alloc: Global,
    code: &Code<'_>,
    nodes: u8,
    shown: Shown<'_, '_>,
    names: &[&[u8]],
    position: usize,
) -> Result<Vec<u8>, AllocError>
    requires { position ≤ length shown.acts.now }
    ensures { IfOk result (λ part. (lines : List ℕ)
        → TellsPrivate shown.entry
        (map (λ name. name.now) names.now) code.now nodes lines position part.items) }
{
    let act = act_at(shown, position);
    let way = Way::to(alloc, code, nodes, shown.acts, act.node, position)?;
    let mut text = Vec::new(alloc);
    push_private(&way, &mut text, shown, names, act.deed)?;
    Ok(text)
}

// What stands behind the first line.
fn behind(
    alloc: Global,
    code: &Code<'_>,
    nodes: u8,
    shown: Shown<'_, '_>,
    names: &[&[u8]],
    asked: Asked,
) -> Result<Vec<u8>, AllocError>
    requires { IsThere asked.act asked.and (length shown.acts.now) }
    ensures { IfOk result (λ part. (lines : List ℕ)
        → TellsBehind shown.entry
        (map (λ name. name.now) names.now) code.now nodes lines asked.act asked.and
        part.items) }
{
    match asked.and {
        None => private_part(alloc, code, nodes, shown, names, asked.act),
        Some(_) => Ok(Vec::new(alloc)),
    }
}

// What is printed of acts that are there.
fn told(
    alloc: Global,
    code: &Code<'_>,
    nodes: u8,
    page: Size,
    shown: Shown<'_, '_>,
    names: &[&[u8]],
    order: &Order,
    asked: Asked,
) -> Result<Vec<u8>, AllocError>
    requires nodes { All (λ act. act.node < NODES) shown.acts.now }
    requires order { IsOrderOf shown.acts.now order.now }
    requires intervals { AreIntervals shown.acts.now (length shown.acts.now) shown.intervals.now }
    requires asked { IsAnswerable (length shown.acts.now) asked }
    ensures { IfOk result (λ part. Tells shown.entry
        (map (λ name. name.now) names.now) code.now nodes page asked part.items) }
{
    let behind = behind(alloc, code, nodes, shown, names, asked)?;
    let size = u32::from(page.words());
    let part = why_part(alloc, shown, order, nodes, size, asked, &behind)?;
    Ok(part)
}

// The number of the statement that the act at a position is of.
fn statement_at(statements: &[u32], position: usize) -> u32
    ensures { result ≡ slice_index statements.now position }
{
    match statements.get(position) {
        Some(statement) => *statement,
        None => 0,
    }
}

// What the text says of a trap of a statement.
fn trap_said<'s>(traps: Option<&[Trap<'s>]>, statement: u32) -> Trap<'s>
    ensures { trap_of result
        ≡ trap_said (option_map (λ traps. map trap_of traps.now) traps.entry) statement }
{
    let Some(traps) = traps else {
        return Trap::Plain;
    };
    match traps.get(statement as usize) {
        Some(trap) => *trap,
        None => Trap::Plain,
    }
}

// What is printed of acts that are there, with names and traps as the text tells them in the statement of the first.
fn told_at(
    alloc: Global,
    source: &Source<'_>,
    nodes: u8,
    page: Size,
    shown: Shown<'_, '_>,
    statements: &[u32],
    order: &Order,
    asked: Asked,
) -> Result<Vec<u8>, AllocError>
    requires nodes { All (λ act. act.node < NODES) shown.acts.now }
    requires order { IsOrderOf shown.acts.now order.now }
    requires intervals { AreIntervals shown.acts.now (length shown.acts.now) shown.intervals.now }
    requires asked { IsAnswerable (length shown.acts.now) asked }
    ensures { IfOk result (λ part. TellsAt source.now.text source.now.names shown.entry
        source.now.program nodes page (slice_index statements.now asked.act) asked part.items) }
{
    let statement = statement_at(statements, asked.act);
    let text = source.text();
    let trap = trap_said(text.traps(), statement);
    let names = text.names_at(alloc, statement, source.names())?;
    let own = Shown { trap, ..shown };
    told(alloc, source.code(), nodes, page, own, &names, order, asked)
}

// What is printed of each of these.
fn told_each(
    alloc: Global,
    source: &Source<'_>,
    nodes: u8,
    page: Size,
    shown: Shown<'_, '_>,
    statements: &[u32],
    order: &Order,
    asked: &[Asked],
) -> Result<Vec<Vec<u8>>, AllocError>
    requires nodes { All (λ act. act.node < NODES) shown.acts.now }
    requires order { IsOrderOf shown.acts.now order.now }
    requires intervals { AreIntervals shown.acts.now (length shown.acts.now) shown.intervals.now }
    requires asked { All (IsAnswerable (length shown.acts.now)) asked.now }
    ensures { IfOk result (λ parts. OfEach (length asked.now)
        (λ place part. (one : AskedRecord) → slice_get asked.now place ≡ Some one
        → TellsAt source.now.text source.now.names shown.entry source.now.program nodes page
        (slice_index statements.now one.act) one part.items)
        parts.items) }
{
    let mut parts = Vec::new(alloc);
    for one in asked {
        let part = told_at(alloc, source, nodes, page, shown, statements, order, *one)?;
        parts.push(part)?;
    }
    Ok(parts)
}

/// Returns what `why` prints for each question about a run of the program of this source, on `nodes` nodes and pages of
/// this size. The work that all questions share is done once.
pub fn why_each(
    alloc: Global,
    source: &Source<'_>,
    nodes: u8,
    page: Size,
    acts: &[Act],
    order: &Order,
    asked: &[Asked],
) -> Result<Vec<Vec<u8>>, AllocError>
    requires nodes { All (λ act. act.node < NODES) acts.now }
    requires order { IsOrderOf acts.now order.now }
    requires asked { All (IsAnswerable (length acts.now)) asked.now }
    ensures { IfOk result (λ parts. OfEach (length asked.now)
        (λ place part. (one : AskedRecord) → slice_get asked.now place ≡ Some one
        → AnswersRun source.now.text source.now.program nodes page acts.now one part.items)
        parts.items) }
{
    let statements = statements_of_acts(alloc, source.code(), nodes, acts)?;
    let lines = lines_of_statements(alloc, source.lines(), &statements)?;
    let intervals = intervals_of(alloc, acts)?;
    let shown = Shown {
        acts,
        lines: lines.as_slice(),
        intervals: intervals.as_slice(),
        labels: source.labels(),
        trap: Trap::Plain,
    };
    let parts = told_each(alloc, source, nodes, page, shown, &statements, order, asked)?;
    Ok(parts)
}

// The same of one.
fn told_alone(
    alloc: Global,
    source: &Source<'_>,
    nodes: u8,
    page: Size,
    acts: &[Act],
    asked: Asked,
) -> Result<Vec<Vec<u8>>, AllocError>
    requires nodes { All (λ act. act.node < NODES) acts.now }
    requires asked { IsAnswerable (length acts.now) asked }
    ensures { IfOk result (λ parts. AnswersRun source.now.text source.now.program nodes page
        acts.now asked (whole_text parts.items)) }
{
    let order = happens_before(alloc, acts)?;
    let parts = why_each(alloc, source, nodes, page, acts, &order, &[asked])?;
    Ok(parts)
}

/// Returns what `why` prints about the acts of a run of the program of this source, on `nodes` nodes and pages of this
/// size. Fails if there is no act at an asked position, or if memory runs out.
pub fn why_run(
    alloc: Global,
    source: &Source<'_>,
    nodes: u8,
    page: Size,
    acts: &[Act],
    asked: Asked,
) -> Result<Vec<Vec<u8>>, WhyFault>
    requires nodes { All (λ act. act.node < NODES) acts.now }
    requires apart { IfSome asked.and (λ other. other ≢ asked.act) }
    ensures ok { IfOk result (λ parts. AnswersRun source.now.text source.now.program nodes page
        acts.now asked (whole_text parts.items)) }
    ensures err { IfErr result (RefusesRun asked (length acts.now)) }
{
    if let Some(position) = missing(asked, acts.len()) {
        return Err(WhyFault::NoAct(position, acts.len()));
    }
    let parts = told_alone(alloc, source, nodes, page, acts, asked)?;
    Ok(parts)
}
