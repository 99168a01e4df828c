// Every outcome of a program, as it is printed.

ghost use Rattle.std.specs.Prelude.{◌≡◌, ◌≢◌, ◌++◌, IfErr, IfOk, OnOk, codes, decimal, false, map, true};
ghost use Rattle.std.specs.List.{IsDistinct};
ghost use Rattle.lrc_exec.specs.Nodes.{AreNodes};
ghost use Rattle.lrc_orders.specs.contracts.outcomes.OutcomePartialEq.TheImpl.{eq-value};
ghost use Rattle.lrc_text.specs.Parts.{texts_of, whole_text};
ghost use Rattle.lrc_explore.specs.Answers.{MetTooMany};
ghost use Rattle.lrc_explore_text.specs.Outcomes.{AreLinesOf, ListsOutcomes, TellsOutcomes, none_ends, on_one_line, outcome_line, spaced};

use crate::explored::Printout;
use indexmap::IndexSet;
use lrc_explore_less::answers::outcomes;
use lrc_orders::outcomes::Outcome;
use lrc_orders::search::ExploreFault;
use lrc_program::Program;
use lrc_report::report::report_parts;
use lrc_text::push_number;
use lrc_trace::act::Act;
use lrc_world::ends::ends;
use std::alloc::{AllocError, Global};

/// Returns what is printed of the outcomes of a program.
pub(crate) fn outcomes_told(
    alloc: Global,
    program: &Program,
    nodes: u32,
    most: usize,
) -> Result<Printout, ExploreFault>
    requires { AreNodes nodes }
    ensures text { IfOk result (λ printout.
        TellsOutcomes program.now nodes (whole_text printout.parts.items)) }
    ensures status { IfOk result (λ printout. printout.status ≡ 0) }
    ensures nodes { IfErr result (λ fault. fault ≢ ExploreFault.BadNodes) }
    ensures too_many { IfErr result (λ fault. fault ≡ ExploreFault.TooMany
        → MetTooMany program.now nodes most true false) }
{
    let found = outcomes(alloc, program, nodes, most)?;
    let parts = outcomes_listed(alloc, nodes as u8, &found)?;
    Ok(Printout { parts, status: 0 })
}

// The lines of outcomes, ascending, behind the line that counts them.
fn outcomes_listed(
    alloc: Global,
    nodes: u8,
    outcomes: &IndexSet<Outcome>,
) -> Result<Vec<Vec<u8>>, AllocError>
    ensures listed { IfOk result (λ parts. ListsOutcomes nodes outcomes.now.keys
        (whole_text parts.items)) }
    ensures once { OnOk result (IsDistinct eq-value.it outcomes.now.keys) }
{
    let count = outcomes.len();
    let head = head_of(alloc, count)?;
    let found = outcomes.as_slice();
    let lines = sorted_lines(alloc, nodes, found)?;
    with_head(head, lines)
}

// A text in parts behind its first line.
fn with_head(head: Vec<u8>, lines: Vec<Vec<u8>>) -> Result<Vec<Vec<u8>>, AllocError>
    ensures { IfOk result (λ parts. whole_text parts.items ≡ head.items ++ whole_text lines.items) }
{
    let mut parts = lines;
    parts.insert(0, head)?;
    Ok(parts)
}

// How many outcomes there are, and where there are none that no run ends.
fn head_of(alloc: Global, count: usize) -> Result<Vec<u8>, AllocError>
    ensures { IfOk result (λ head. head.items
        ≡ codes "outcomes " ++ decimal count ++ codes " in every order\n" ++ none_ends count) }
{
    let mut head = Vec::new(alloc);
    push_number(&mut head, b"outcomes ", count as u64)?;
    head.extend_from_slice(b" in every order\n")?;
    if count == 0 {
        head.extend_from_slice(b"no run ends\n")?;
    }
    Ok(head)
}

/// Returns the lines of outcomes, in ascending order.
pub(crate) fn sorted_lines(
    alloc: Global,
    nodes: u8,
    outcomes: &[Outcome],
) -> Result<Vec<Vec<u8>>, AllocError>
    ensures { IfOk result (λ lines. AreLinesOf nodes outcomes.now (texts_of lines.items)) }
{
    let mut lines = lines_of(alloc, nodes, outcomes)?;
    lines.sort_unstable();
    Ok(lines)
}

// A line for each outcome.
fn lines_of(alloc: Global, nodes: u8, outcomes: &[Outcome]) -> Result<Vec<Vec<u8>>, AllocError>
    ensures { IfOk result (λ lines. texts_of lines.items
        ≡ map (λ outcome. outcome_line nodes outcome.notes.items) outcomes.now) }
{
    let mut lines = Vec::new(alloc);
    for outcome in outcomes {
        lines.push(outcome_line(alloc, nodes, &outcome.notes)?)?;
    }
    Ok(lines)
}

/// Returns the line of an outcome.
pub fn outcome_line(alloc: Global, nodes: u8, notes: &[Act]) -> Result<Vec<u8>, AllocError>
    ensures { IfOk result (λ line. line.items ≡ outcome_line nodes notes.now) }
{
    let ends = ends(alloc, nodes, notes)?;
    let parts = report_parts(alloc, notes, &ends)?;
    let text = whole_of(alloc, &parts)?;
    on_one_line(alloc, &text)
}

// The whole of a text in parts.
fn whole_of(alloc: Global, parts: &[Vec<u8>]) -> Result<Vec<u8>, AllocError>
    ensures { IfOk result (λ whole. whole.items ≡ whole_text parts.now) }
{
    let mut whole = Vec::new(alloc);
    for part in parts {
        whole.extend_from_slice(part)?;
    }
    Ok(whole)
}

// The lines of a text on one line.
fn on_one_line(alloc: Global, text: &[u8]) -> Result<Vec<u8>, AllocError>
    ensures { IfOk result (λ line. line.items ≡ on_one_line text.now) }
{
    let mut line = Vec::new(alloc);
    let front = &text[..text.len().saturating_sub(1)];
    for byte in front {
        push_byte(&mut line, *byte)?;
    }
    line.extend_from_slice(b"\n")?;
    Ok(line)
}

// Adds a byte, or ` / ` for a line feed.
fn push_byte(line: &mut Vec<u8>, byte: u8) -> Result<(), AllocError>
    ensures { OnOk result (line.new.items ≡ line.old.items ++ spaced byte) }
{
    if byte == b'\n' {
        line.extend_from_slice(b" / ")
    } else {
        line.extend_from_slice(&[byte])
    }
}
