// Circles of waiting.

ghost use Rattle.std.specs.Prelude.{◌≡◌, ◌++◌, None, option_map, slice_index_or, IfOk, OnErr, OnOk};
ghost use Rattle.std.specs.List.{flat_map};
ghost use Rattle.lrc_text.specs.Front.{BeginsWith};
ghost use Rattle.lrc_explain_waits.specs.Circles.{circle_if, circle_of, circle_text, circle_words, circles_text, deadlocks_text};
ghost use Rattle.lrc_explain_waits.specs.Circles.{first_text, waits_by, waits_next, waits_of, waits_text};

use crate::missing::{first_of, missing_nodes};
use crate::stand::{Coming, Fate, Stand};
use lrc_text::push_number;
use std::alloc::{AllocError, Global};

// The node for which an unfinished node waits.
fn waits_by(
    alloc: Global,
    stands: &[Stand],
    me: usize,
    stand: Stand,
) -> Result<Option<usize>, AllocError>
    ensures { IfOk result (λ waits. waits ≡ waits_by stands.now me stand) }
{
    match stand.fate {
        Fate::Unfinished => waits_next(alloc, stands, me, stand.coming),
        _ => Ok(None),
    }
}

// The node for which a node waits of which this comes next: the holder of the lock that it is to acquire, or the lowest node that has
// not come to the barrier.
fn waits_next(
    alloc: Global,
    stands: &[Stand],
    me: usize,
    coming: Coming,
) -> Result<Option<usize>, AllocError>
    ensures { IfOk result (λ waits. waits ≡ waits_next stands.now me coming) }
{
    match coming {
        Coming::Acquire(_, Some(holder)) => Ok(Some(usize::from(holder.node))),
        Coming::Barrier(number) => {
            let missing = missing_nodes(alloc, number, me, stands)?;
            Ok(first_of(&missing))
        }
        _ => Ok(None),
    }
}

/// Returns the node for which each node waits, or none.
pub fn waits_of(alloc: Global, stands: &[Stand]) -> Result<Vec<Option<usize>>, AllocError>
    ensures { IfOk result (λ waits. waits.items ≡ waits_of stands.now) }
{
    let mut waits = Vec::new(alloc);
    for me in 0..stands.len() {
        let next = waits_by(alloc, stands, me, stands[me])?;
        waits.push(next)?;
    }
    Ok(waits)
}

// For whom a node waits.
fn waits_at(waits: &[Option<usize>], node: usize) -> Option<usize>
    ensures { result ≡ slice_index_or waits.now node None }
{
    if node < waits.len() {
        waits[node]
    } else {
        None
    }
}

/// Returns the other nodes of the circle of waiting through `first`, in order, or none if there is no such circle or
/// `first` is not its lowest node.
pub fn circle_of(
    alloc: Global,
    waits: &[Option<usize>],
    first: usize,
) -> Result<Option<Vec<usize>>, AllocError>
    ensures { IfOk result (λ circle. option_map (λ way. way.items) circle
        ≡ circle_of waits.now first) }
{
    let mut way = Vec::new(alloc);
    let mut at = first;
    for _step in 0..waits.len() {
        let Some(next) = waits_at(waits, at) else {
            return Ok(None);
        };
        if next == first {
            return Ok(Some(way));
        }
        if next < first {
            return Ok(None);
        }
        way.push(next)?;
        at = next;
    }
    Ok(None)
}

fn push_wait(text: &mut Vec<u8>, node: usize) -> Result<(), AllocError>
    ensures ok { OnOk result (text.new.items ≡ text.old.items ++ waits_text node) }
    ensures err { OnErr result (BeginsWith text.new.items text.old.items) }
{
    push_number(text, b" waits for node ", node as u64)
}

fn push_way(text: &mut Vec<u8>, way: &[usize]) -> Result<(), AllocError>
    ensures ok { OnOk result (text.new.items ≡ text.old.items ++ flat_map waits_text way.now) }
    ensures err { OnErr result (BeginsWith text.new.items text.old.items) }
{
    for node in way {
        push_wait(text, *node)?;
    }
    Ok(())
}

fn push_first(text: &mut Vec<u8>, first: usize) -> Result<(), AllocError>
    ensures ok { OnOk result (text.new.items ≡ text.old.items ++ first_text first) }
    ensures err { OnErr result (BeginsWith text.new.items text.old.items) }
{
    push_number(text, b"deadlock: node ", first as u64)
}

/// Adds a circle in words: the first node, and the nodes behind it. On error `text` still begins with its old bytes.
pub fn push_circle(text: &mut Vec<u8>, first: usize, way: &[usize]) -> Result<(), AllocError>
    ensures ok { OnOk result (text.new.items ≡ text.old.items ++ circle_words first way.now) }
    ensures err { OnErr result (BeginsWith text.new.items text.old.items) }
{
    push_first(text, first)?;
    push_way(text, way)?;
    push_wait(text, first)
}

// Adds the line of a circle.
fn push_circle_line(text: &mut Vec<u8>, first: usize, way: &[usize]) -> Result<(), AllocError>
    ensures ok { OnOk result (text.new.items ≡ text.old.items ++ circle_text first way.now) }
    ensures err { OnErr result (BeginsWith text.new.items text.old.items) }
{
    push_circle(text, first, way)?;
    text.extend_from_slice(b"\n")
}

// Adds the line of a circle, if there is one.
fn push_circle_if(
    text: &mut Vec<u8>,
    first: usize,
    circle: &Option<Vec<usize>>,
) -> Result<(), AllocError>
    ensures ok { OnOk result (text.new.items
        ≡ text.old.items ++ circle_if first (option_map (λ way. way.items) circle.now)) }
    ensures err { OnErr result (BeginsWith text.new.items text.old.items) }
{
    match circle {
        Some(way) => push_circle_line(text, first, way),
        None => Ok(()),
    }
}

// Adds the lines of the circles of this waiting.
fn push_circles(
    alloc: Global,
    text: &mut Vec<u8>,
    waits: &[Option<usize>],
) -> Result<(), AllocError>
    ensures ok { OnOk result (text.new.items ≡ text.old.items ++ circles_text waits.now) }
    ensures err { OnErr result (BeginsWith text.new.items text.old.items) }
{
    for first in 0..waits.len() {
        let circle = circle_of(alloc, waits, first)?;
        push_circle_if(text, first, &circle)?;
    }
    Ok(())
}

/// Adds a line for each circle of waiting, ordered by its lowest node. On error `text` still begins with its old bytes.
pub fn push_deadlocks(alloc: Global, text: &mut Vec<u8>, stands: &[Stand]) -> Result<(), AllocError>
    ensures ok { OnOk result (text.new.items ≡ text.old.items ++ deadlocks_text stands.now) }
    ensures err { OnErr result (BeginsWith text.new.items text.old.items) }
{
    let waits = waits_of(alloc, stands)?;
    push_circles(alloc, text, &waits)
}
