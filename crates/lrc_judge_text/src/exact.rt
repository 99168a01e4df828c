// The line on exact reading.

ghost use Rattle.std.specs.Prelude.{◌≡◌, ◌<◌, ◌≤◌, ◌&&◌, ◌++◌, All, IfOk, OnOk, Some, codes, decimal, length};
ghost use Rattle.lrc_judge.specs.declared.TheConstants.{NODES};
ghost use Rattle.lrc_exact_judge.specs.First.{IsFound};
ghost use Rattle.lrc_judge_text.specs.Judgement.{AddsText, TellsExactReading, exact_shape, inexact_line};

use crate::memory::ExactMemory;
use crate::tell::place_at;
use lrc_acts::judge_lines::Place;
use lrc_exact_judge::first::{Inexact, first_inexact};
use lrc_exact_judge::layout::Layout;
use lrc_judge::NODES;
use lrc_text::push_number;
use lrc_trace::act::Act;
use std::alloc::{AllocError, Global};

/// Returns whether acts read as is asked: lazily, and exactly too.
pub fn reads_both(lazy: bool, exact: bool) -> bool
    ensures { result ≡ (lazy && exact) }
{
    lazy && exact
}

/// Adds the line on exact reading for the memory that is given, and returns whether the acts read exactly. Without a
/// memory it adds nothing, and returns true.
pub fn tell_exact_reading(
    alloc: Global,
    text: &mut Vec<u8>,
    acts: &[Act],
    lines: &[u32],
    nodes: u8,
    memory: Option<ExactMemory>,
) -> Result<bool, AllocError>
    requires nodes { nodes ≤ NODES }
    requires acts { All (λ act. act.node < nodes) acts.now }
    requires lines { length acts.now ≡ length lines.now }
    ensures { IfOk result (λ holds. AddsText text.old.items text.new.items
        (TellsExactReading nodes memory acts.now lines.now holds)) }
{
    match memory {
        Some(memory) => tell_reading_of(alloc, text, acts, lines, nodes, memory),
        None => Ok(true),
    }
}

fn tell_reading_of(
    alloc: Global,
    text: &mut Vec<u8>,
    acts: &[Act],
    lines: &[u32],
    nodes: u8,
    memory: ExactMemory,
) -> Result<bool, AllocError>
    requires nodes { nodes ≤ NODES }
    requires acts { All (λ act. act.node < nodes) acts.now }
    requires lines { length acts.now ≡ length lines.now }
    ensures { IfOk result (λ holds. AddsText text.old.items text.new.items
        (TellsExactReading nodes (Some memory) acts.now lines.now holds)) }
{
    let found = inexact_in(alloc, acts, nodes, memory)?;
    match found {
        Some(first) => {
            push_inexact(
                text,
                place_at(lines, first.position),
                first.read,
                first.given,
            )?;
            Ok(false)
        }
        None => {
            text.extend_from_slice(b"reads exactly\n")?;
            Ok(true)
        }
    }
}

// Adds the line for the first read that does not give what the memory has.
fn push_inexact(text: &mut Vec<u8>, place: Place, read: u64, given: u64) -> Result<(), AllocError>
    ensures { OnOk result (text.new.items ≡ text.old.items ++ inexact_line place read given) }
{
    push_where(text, place)?;
    push_what(text, read, given)
}

fn push_where(text: &mut Vec<u8>, place: Place) -> Result<(), AllocError>
    ensures { OnOk result (text.new.items ≡ text.old.items
        ++ (codes "does not read exactly at act " ++ decimal place.position
        ++ codes ", line " ++ decimal place.line)) }
{
    push_number(
        text,
        b"does not read exactly at act ",
        place.position as u64,
    )?;
    push_number(text, b", line ", u64::from(place.line))
}

fn push_what(text: &mut Vec<u8>, read: u64, given: u64) -> Result<(), AllocError>
    ensures { OnOk result (text.new.items ≡ text.old.items
        ++ (codes ": read " ++ decimal read ++ codes ", given " ++ decimal given ++ codes "\n")) }
{
    push_number(text, b": read ", read)?;
    push_number(text, b", given ", given)?;
    text.extend_from_slice(b"\n")
}

// The first read that does not give what the memory has, if there is one. Where there are no nodes, there are no acts.
fn inexact_in(
    alloc: Global,
    acts: &[Act],
    nodes: u8,
    memory: ExactMemory,
) -> Result<Option<Inexact>, AllocError>
    requires nodes { nodes ≤ NODES }
    requires acts { All (λ act. act.node < nodes) acts.now }
    ensures { IfOk result (IsFound (exact_shape nodes memory) acts.now) }
{
    if nodes == 0 {
        return Ok(None);
    }
    let layout = Layout {
        nodes,
        page_words: memory.page_words,
        collect: memory.collect,
    };
    first_inexact(alloc, acts, layout)
}
