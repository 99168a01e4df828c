// How the nodes of a run ended, and which of them wait in a circle.

ghost use Rattle.std.specs.Prelude.{◌≡◌, ◌∷◌, ◌++◌, IfOk, OnOk, map};
ghost use Rattle.lrc_trace.specs.Run.{count_of};
ghost use Rattle.lrc_explain_waits.specs.Circles.{circle_of};
ghost use Rattle.lrc_step.specs.EndLines.{TellsEnds, circle_if, circles_of, end_of, ends_of, is_print};

use crate::end_lines::{End, push_explain_line};
use lrc_explain_waits::{Stand, circle_of, stands_of, waits_of};
use lrc_lines::walks::follow_acts;
use lrc_source::source::Source;
use lrc_trace::act::{Act, Deed};
use std::alloc::{AllocError, Global};

fn is_print(deed: Deed) -> bool
    ensures { result ≡ is_print deed }
{
    matches!(deed, Deed::Print(_))
}

// How many values a node printed.
fn prints_of(node: usize, acts: &[Act]) -> usize
    ensures { result ≡ count_of is_print node acts.now }
{
    acts.iter()
        .filter(|act| usize::from(act.node) == node && is_print(act.deed))
        .count()
}

fn end_of(acts: &[Act], node: usize, stand: Stand) -> End
    ensures { result ≡ end_of acts.now node stand }
{
    End {
        fate: stand.fate,
        line: stand.line,
        prints: prints_of(node, acts),
    }
}

// How each node ended.
fn ends_of(alloc: Global, acts: &[Act], stands: &[Stand]) -> Result<Vec<End>, AllocError>
    ensures { IfOk result (λ ends. ends.items ≡ ends_of acts.now stands.now) }
{
    let mut ends = Vec::new(alloc);
    for node in 0..stands.len() {
        ends.push(end_of(acts, node, stands[node]))?;
    }
    Ok(ends)
}

// The nodes of a circle, from this one on.
fn circle_from(alloc: Global, first: usize, way: &[usize]) -> Result<Vec<usize>, AllocError>
    ensures { IfOk result (λ circle. circle.items ≡ first ∷ way.now) }
{
    let mut circle = Vec::new(alloc);
    circle.push(first)?;
    circle.extend_from_slice(way)?;
    Ok(circle)
}

// Adds the circle of which a node is the lowest, if there is one.
fn push_circle(
    alloc: Global,
    circles: &mut Vec<Vec<usize>>,
    waits: &[Option<usize>],
    first: usize,
) -> Result<(), AllocError>
    ensures { OnOk result (map (λ one. one.items) circles.new.items
        ≡ map (λ one. one.items) circles.old.items ++ circle_if first (circle_of waits.now first)) }
{
    if let Some(way) = circle_of(alloc, waits, first)? {
        circles.push(circle_from(alloc, first, way.as_slice())?)?;
    }
    Ok(())
}

// The circles of waiting, by their lowest nodes.
fn circles_of(alloc: Global, waits: &[Option<usize>]) -> Result<Vec<Vec<usize>>, AllocError>
    ensures { IfOk result (λ circles. map (λ one. one.items) circles.items
        ≡ circles_of waits.now) }
{
    let mut circles = Vec::new(alloc);
    for first in 0..waits.len() {
        push_circle(alloc, &mut circles, waits, first)?;
    }
    Ok(circles)
}

/// Returns the line about a run with reasons of the program of this source, on so many nodes, each with so many steps:
/// the output of `explain`, and as data how each node ended, and which nodes wait in a circle.
pub fn explain_part(
    alloc: Global,
    source: &Source<'_>,
    nodes: u8,
    steps: u32,
    acts: &[Act],
    printed: &[u8],
) -> Result<Vec<u8>, AllocError>
    ensures { IfOk result (λ line. TellsEnds source.now.text source.now.program nodes steps
        acts.now printed.now line.items) }
{
    let followed = follow_acts(alloc, source.code(), source.lines(), nodes, acts)?;
    let stands = stands_of(alloc, &followed, nodes, Some(steps), acts)?;
    let waits = waits_of(alloc, &stands)?;
    let ends = ends_of(alloc, acts, &stands)?;
    let circles = circles_of(alloc, &waits)?;
    let mut line = Vec::new(alloc);
    push_explain_line(alloc, &mut line, printed, &ends, &circles)?;
    Ok(line)
}
