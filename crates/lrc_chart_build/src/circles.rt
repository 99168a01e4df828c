// Circles of waiting in a picture.

ghost use Rattle.std.specs.Prelude.{◌≡◌, ◌<◌, ◌==◌, ◌++◌, IfOk, OnOk, drop, slice_get};
ghost use Rattle.std.specs.List.{list_any};
ghost use Rattle.lrc_explain_waits.specs.Circles.{circle_of, circle_words};
ghost use Rattle.lrc_text.specs.Parts.{texts_of};
ghost use Rattle.lrc_chart_build.specs.Circles.{acts_or_waits, circled_nodes, deadlock_lines, is_circled, is_mark_of, line_if, marks_some, nodes_if};

use crate::part::{Place, turn_at};
use crate::waits::turn_kind;
use lrc_chart_model::Kind;
use lrc_chart_rows::TurnOf;
use lrc_explain_waits::{circle_of, push_circle};
use std::alloc::{AllocError, Global};

// Adds the nodes of the circle of which a node is the lowest, if there is one.
fn push_nodes(
    alloc: Global,
    nodes: &mut Vec<usize>,
    waits: &[Option<usize>],
    first: usize,
) -> Result<(), AllocError>
    ensures { OnOk result (nodes.new.items
        ≡ nodes.old.items ++ nodes_if first (circle_of waits.now first)) }
{
    if let Some(way) = circle_of(alloc, waits, first)? {
        nodes.push(first)?;
        nodes.extend_from_slice(way.as_slice())?;
    }
    Ok(())
}

/// Returns the nodes of all circles of waiting nodes.
pub(crate) fn circled_nodes(
    alloc: Global,
    waits: &[Option<usize>],
) -> Result<Vec<usize>, AllocError>
    ensures { IfOk result (λ nodes. nodes.items ≡ circled_nodes waits.now) }
{
    let mut nodes = Vec::new(alloc);
    for first in 0..waits.len() {
        push_nodes(alloc, &mut nodes, waits, first)?;
    }
    Ok(nodes)
}

fn circle_line(alloc: Global, first: usize, way: &[usize]) -> Result<Vec<u8>, AllocError>
    ensures { IfOk result (λ line. line.items ≡ circle_words first way.now) }
{
    let mut line = Vec::new(alloc);
    push_circle(&mut line, first, way)?;
    Ok(line)
}

// Adds the words of the circle of which a node is the lowest, if there is one.
fn push_line(
    alloc: Global,
    lines: &mut Vec<Vec<u8>>,
    waits: &[Option<usize>],
    first: usize,
) -> Result<(), AllocError>
    ensures { OnOk result (texts_of lines.new.items
        ≡ texts_of lines.old.items ++ line_if first (circle_of waits.now first)) }
{
    if let Some(way) = circle_of(alloc, waits, first)? {
        lines.push(circle_line(alloc, first, way.as_slice())?)?;
    }
    Ok(())
}

/// Returns a line for each circle, in the order of their lowest nodes.
pub(crate) fn deadlock_lines(
    alloc: Global,
    waits: &[Option<usize>],
) -> Result<Vec<Vec<u8>>, AllocError>
    ensures { IfOk result (λ lines. texts_of lines.items ≡ deadlock_lines waits.now) }
{
    let mut lines = Vec::new(alloc);
    for first in 0..waits.len() {
        push_line(alloc, &mut lines, waits, first)?;
    }
    Ok(lines)
}

// ---- the last rows of their nodes

fn acts_or_waits(kind: Kind) -> bool
    ensures { result ≡ acts_or_waits kind }
{
    match kind {
        Kind::Message => false,
        _ => true,
    }
}

// Whether a node makes the turn at a position, if there is one, and acts or begins to wait at it.
fn is_mark_of(turns: &[TurnOf<'_>], node: u8, position: usize) -> bool
    ensures { result ≡ is_mark_of turns.now node position (slice_get turns.now position) }
{
    match turn_at(turns, position) {
        Some(turn) => turn.node == node && acts_or_waits(turn_kind(turns, position, turn)),
        None => false,
    }
}

// Whether a node acts or begins to wait at one of the rows from a place on.
fn marks_some(turns: &[TurnOf<'_>], node: u8, places: &[Place], from: usize) -> bool
    ensures { result ≡ marks_some turns.now node (drop from places.now) }
{
    places
        .iter()
        .skip(from)
        .any(|place| is_mark_of(turns, node, place.turn))
}

fn is_among(nodes: &[usize], node: u8) -> bool
    ensures { result ≡ list_any (λ other. other == node) nodes.now }
{
    nodes.iter().any(|other| *other == usize::from(node))
}

/// Returns whether the row at a place has a border. It has one if its node is in a circle and acts or begins to wait at
/// this row, but at none of the rows below.
pub(crate) fn is_circled(
    turns: &[TurnOf<'_>],
    circled: &[usize],
    places: &[Place],
    at: usize,
    place: Place,
    turn: &TurnOf<'_>,
) -> bool
    requires { at < 18446744073709551615 }
    ensures { result ≡ is_circled turns.now circled.now places.now at place turn.now }
{
    is_among(circled, turn.node)
        && acts_or_waits(turn_kind(turns, place.turn, turn))
        && !marks_some(turns, turn.node, places, at + 1)
}
