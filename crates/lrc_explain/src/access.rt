// An access in words.

ghost use Rattle.std.specs.Prelude.{◌≡◌, ◌<◌, ◌++◌, List, OnOk, length};
ghost use Rattle.lrc_trace.specs.declared.act.Act.{Act as ActRecord};
ghost use Rattle.lrc_judge.specs.Races.{word_of};
ghost use Rattle.lrc_explain.specs.Access.{access_text, effect_words, interval_words, left_in, node_words};
ghost use Rattle.lrc_explain.specs.Access.{act_words, reads_words, unless_last};
ghost use Rattle.lrc_explain.specs.Before.{IsBeforeActs};

use crate::before::Before;
use lrc_text::push_number;
use lrc_trace::act::{Act, Deed};
use std::alloc::AllocError;

pub(crate) fn push_node(text: &mut Vec<u8>, number: u64) -> Result<(), AllocError>
    ensures { OnOk result (text.new.items ≡ text.old.items ++ node_words number) }
{
    push_number(text, b"node ", number)
}

fn push_interval(text: &mut Vec<u8>, number: u64) -> Result<(), AllocError>
    ensures { OnOk result (text.new.items ≡ text.old.items ++ interval_words number) }
{
    push_number(text, b" interval ", number)
}

fn push_place(text: &mut Vec<u8>, number: u64) -> Result<(), AllocError>
    ensures { OnOk result (text.new.items ≡ text.old.items ++ act_words number) }
{
    push_number(text, b" act ", number)
}

fn push_reads(text: &mut Vec<u8>, number: u64) -> Result<(), AllocError>
    ensures { OnOk result (text.new.items ≡ text.old.items ++ reads_words number) }
{
    push_number(text, b" reads ", number)
}

fn push_read(text: &mut Vec<u8>, value: u64, last: u64) -> Result<(), AllocError>
    ensures { OnOk result (text.new.items ≡ text.old.items ++ unless_last value last) }
{
    if value == last {
        return Ok(());
    }
    push_number(text, b" (last written ", last)?;
    text.extend_from_slice(b")")
}

// Adds what a deed did with its word, in which the acts before leave this value.
fn push_words(text: &mut Vec<u8>, left: u64, deed: Deed) -> Result<(), AllocError>
    ensures { (before : List ActRecord) → left ≡ left_in (word_of deed) before
        → OnOk result (text.new.items ≡ text.old.items ++ effect_words before deed) }
{
    match deed {
        Deed::Read(_, value) => {
            push_reads(text, value)?;
            push_read(text, value, left)
        }
        Deed::Write(_, value) => push_number(text, b" writes ", value),
        _ => Ok(()),
    }
}

/// Adds the access at a position in words.
pub(crate) fn push_access(
    text: &mut Vec<u8>,
    acts: &[Act],
    before: &Before,
    position: usize,
) -> Result<(), AllocError>
    requires within { position < length acts.now }
    requires before { IsBeforeActs acts.now before.now }
    ensures { OnOk result (text.new.items ≡ text.old.items ++ access_text acts.now position) }
{
    let act = acts[position];
    push_node(text, u64::from(act.node))?;
    push_interval(text, before.intervals[position])?;
    push_place(text, position as u64)?;
    push_words(text, before.lefts[position], act.deed)
}
