// The lines of the reads that are not in order.

ghost use Rattle.std.specs.Prelude.{◌≡◌, ◌+◌, ◌<◌, ℕ, OnOk, length};
ghost use Rattle.std.specs.BTreeMap.{get};
ghost use Rattle.std.specs.Option.{option_map_or};
ghost use Rattle.std.specs.Ordering.{nat_cmp};
ghost use Rattle.lrc_judge_text.specs.Judgement.{AddsText};
ghost use Rattle.lrc_judge_all.specs.JudgesAll.{IsDisorder, TellsDisorder, TellsDisorders};
ghost use Rattle.lrc_judge_all.specs.Steps.{IsMemory, TellsAt};

use crate::place::place_at;
use lrc_acts::judge_lines::push_unordered;
use lrc_judge::in_order::first_out_of_order;
use lrc_trace::act::{Act, Deed};
use std::alloc::{AllocError, Global};
use std::collections::BTreeMap;

/// Adds the line that the acts read in order, or a line for each read that is not in order.
pub(crate) fn tell_disorders(
    alloc: Global,
    text: &mut Vec<u8>,
    acts: &[Act],
    lines: &[u32],
) -> Result<(), AllocError>
    requires { length acts.now ≡ length lines.now }
    ensures { OnOk result (AddsText text.old.items text.new.items
        (TellsDisorders acts.now lines.now)) }
{
    let first = first_out_of_order(alloc, acts)?;
    match first {
        Some(_) => tell_each(alloc, text, acts, lines),
        None => {
            text.extend_from_slice(b"reads in order\n")?;
            Ok(())
        }
    }
}

// Adds a line for each read that is not in order, of which there is one.
fn tell_each(
    alloc: Global,
    text: &mut Vec<u8>,
    acts: &[Act],
    lines: &[u32],
) -> Result<(), AllocError>
    requires lines { length acts.now ≡ length lines.now }
    requires some { (position : ℕ) × IsDisorder acts.now position }
    ensures { OnOk result (AddsText text.old.items text.new.items
        (TellsDisorders acts.now lines.now)) }
{
    let mut memory = BTreeMap::new(alloc);
    for position in 0..acts.len() {
        tell_at(text, acts, lines, &mut memory, position)?;
    }
    Ok(())
}

// What was last written to the word; 0 where nothing was.
fn last_written(memory: &BTreeMap<u32, u64>, word: u32) -> u64
    ensures { result ≡ option_map_or (λ value. value) (get nat_cmp memory.now word) 0 }
{
    match memory.get(&word) {
        Some(value) => *value,
        None => 0,
    }
}

// Adds a line for the act at this position, if it is a read that is not in order, and notes what it writes.
fn tell_at(
    text: &mut Vec<u8>,
    acts: &[Act],
    lines: &[u32],
    memory: &mut BTreeMap<u32, u64>,
    position: usize,
) -> Result<(), AllocError>
    requires lines { length acts.now ≡ length lines.now }
    requires memory { IsMemory acts.now position memory.old }
    requires within { position < length acts.now }
    ensures text { OnOk result (TellsAt (IsDisorder acts.now) (TellsDisorder acts.now lines.now)
        position text.old.items text.new.items) }
    ensures memory { OnOk result (IsMemory acts.now (position + 1) memory.new) }
{
    match acts[position].deed {
        Deed::Read(word, value) => {
            let last = last_written(memory, word);
            if value == last {
                return Ok(());
            }
            push_unordered(text, place_at(lines, position), value, last)?;
            Ok(())
        }
        Deed::Write(word, value) => {
            memory.insert(word, value)?;
            Ok(())
        }
        _ => Ok(()),
    }
}
