// How two acts are ordered, in words.

ghost use Rattle.std.specs.Prelude.{◌≡◌, ◌++◌, OnOk, drop, map};
ghost use Rattle.lrc_labels.specs.Reading.{label_seen};
ghost use Rattle.lrc_why_lines.specs.Ordered.{across_line, apart_text, barrier_shown, before_text, by_text, race_line, race_text, relation_text, same_line, step_line, steps_text, two_text, within_line};

use crate::deed::{push_lock, push_word};
use crate::look::{act_at, node_at};
use crate::opponents::{push_held, push_parting, push_remedy};
use crate::places::{push_act, push_there};
use crate::shown::Shown;
use lrc_judge::races::word_of;
use lrc_labels::label::Label;
use lrc_text::push_number;
use lrc_trace::act::Deed;
use lrc_why::reasons::{Parting, Relation, Standing};
use lrc_why_chains::held::departs_at;
use std::alloc::AllocError;

#[tactic(auto, unfolding(crate::specs::Ordered::two_text))]
fn push_two(text: &mut Vec<u8>, earlier: usize, does: &[u8], later: usize) -> Result<(), AllocError>
    ensures { OnOk result (text.new.items ≡ text.old.items ++ two_text earlier does.now later) }
{
    push_number(text, b"  act ", earlier as u64)?;
    push_number(text, does, later as u64)
}

#[tactic(auto, unfolding(crate::specs::Ordered::same_line))]
fn push_same(
    text: &mut Vec<u8>,
    shown: Shown<'_, '_>,
    earlier: usize,
    later: usize,
) -> Result<(), AllocError>
    ensures { OnOk result (text.new.items ≡ text.old.items ++ same_line shown.entry earlier later) }
{
    push_two(text, earlier, b" comes before act ", later)?;
    push_number(text, b" in node ", node_at(shown, earlier))?;
    text.extend_from_slice(b"\n")
}

#[tactic(auto, unfolding(crate::specs::Ordered::by_text))]
// Adds by what a step of a chain leads to another node: the lock that is acquired, or the barrier with this number.
fn push_by(
    text: &mut Vec<u8>,
    labels: &[Label<'_>],
    deed: Deed,
    number: usize,
) -> Result<(), AllocError>
    ensures { OnOk result (text.new.items
        ≡ text.old.items ++ by_text (map label_seen labels.now) deed number) }
{
    match deed {
        Deed::Acquire(lock) => push_lock(text, labels, b"    by lock ", lock),
        _ => push_number(text, b"    by barrier ", number as u64),
    }
}

#[tactic(auto, unfolding(crate::specs::Ordered::across_line))]
fn push_across(text: &mut Vec<u8>, shown: Shown<'_, '_>, to: usize) -> Result<(), AllocError>
    ensures { OnOk result (text.new.items ≡ text.old.items ++ across_line shown.entry to) }
{
    push_by(
        text,
        shown.labels,
        act_at(shown, to).deed,
        barrier_at(shown, to),
    )?;
    text.extend_from_slice(b": ")?;
    push_act(text, shown, to)?;
    text.extend_from_slice(b"\n")
}

#[tactic(auto, unfolding(crate::specs::Ordered::within_line))]
fn push_within(text: &mut Vec<u8>, shown: Shown<'_, '_>, to: usize) -> Result<(), AllocError>
    ensures { OnOk result (text.new.items ≡ text.old.items ++ within_line shown.entry to) }
{
    push_number(text, b"    in node ", node_at(shown, to))?;
    text.extend_from_slice(b": ")?;
    push_there(text, shown, to)?;
    text.extend_from_slice(b"\n")
}

#[tactic(auto, unfolding(crate::specs::Ordered::step_line))]
fn push_step(
    text: &mut Vec<u8>,
    shown: Shown<'_, '_>,
    from: usize,
    to: usize,
) -> Result<(), AllocError>
    ensures { OnOk result (text.new.items ≡ text.old.items ++ step_line shown.entry from to) }
{
    if node_at(shown, from) == node_at(shown, to) {
        push_within(text, shown, to)
    } else {
        push_across(text, shown, to)
    }
}

// The number of the barrier from which the node of an act goes on there, counted from 1.
fn barrier_at(shown: Shown<'_, '_>, position: usize) -> usize
    ensures { result ≡ barrier_shown shown.entry position }
{
    if position < shown.acts.len() {
        departs_at(shown.acts, shown.acts[position].node, position) + 1
    } else {
        1
    }
}

fn behind_first(chain: &[usize]) -> &[usize]
    ensures { result.now ≡ drop 1 chain.now }
{
    match chain {
        [] => chain,
        [_, rest @ ..] => rest,
    }
}

fn push_steps(text: &mut Vec<u8>, shown: Shown<'_, '_>, chain: &[usize]) -> Result<(), AllocError>
    ensures { OnOk result (text.new.items ≡ text.old.items ++ steps_text shown.entry chain.now) }
{
    let steps = behind_first(chain);
    for k in 0..steps.len() {
        push_step(text, shown, chain[k], steps[k])?;
    }
    Ok(())
}

#[tactic(auto, unfolding(crate::specs::Ordered::before_text))]
fn push_before(
    text: &mut Vec<u8>,
    shown: Shown<'_, '_>,
    earlier: usize,
    later: usize,
    chain: &[usize],
) -> Result<(), AllocError>
    ensures { OnOk result (text.new.items
        ≡ text.old.items ++ before_text shown.entry earlier later chain.now) }
{
    push_two(text, earlier, b" happens before act ", later)?;
    text.extend_from_slice(b":\n")?;
    push_steps(text, shown, chain)
}

#[tactic(auto, unfolding(crate::specs::Ordered::race_line))]
fn push_race_line(
    text: &mut Vec<u8>,
    shown: Shown<'_, '_>,
    parting: &Parting,
) -> Result<(), AllocError>
    ensures { OnOk result (text.new.items ≡ text.old.items ++ race_line shown.entry parting.now) }
{
    let word = word_of(act_at(shown, parting.earlier).deed);
    push_word(text, shown.labels, b"  they race: both access word ", word)?;
    text.extend_from_slice(b", and neither happens before the other\n")
}

#[tactic(auto, unfolding(crate::specs::Ordered::race_text))]
fn push_race(
    text: &mut Vec<u8>,
    shown: Shown<'_, '_>,
    parting: &Parting,
    first: &Standing,
    second: &Standing,
) -> Result<(), AllocError>
    ensures { OnOk result (text.new.items
        ≡ text.old.items ++ race_text shown.entry parting.now first.now second.now) }
{
    push_race_line(text, shown, parting)?;
    push_parting(text, shown, parting)?;
    push_held(text, shown.labels, parting, first, second)?;
    push_remedy(text, shown, parting)
}

#[tactic(auto, unfolding(crate::specs::Ordered::apart_text))]
fn push_apart(text: &mut Vec<u8>, shown: Shown<'_, '_>, parting: &Parting) -> Result<(), AllocError>
    ensures { OnOk result (text.new.items ≡ text.old.items ++ apart_text shown.entry parting.now) }
{
    text.extend_from_slice(b"  neither happens before the other\n")?;
    push_parting(text, shown, parting)
}

#[tactic(auto, unfolding(crate::specs::Ordered::relation_text))]
/// Adds the lines that tell how the acts at two positions are ordered.
pub fn push_relation(
    text: &mut Vec<u8>,
    shown: Shown<'_, '_>,
    earlier: usize,
    later: usize,
    relation: &Relation,
) -> Result<(), AllocError>
    ensures { OnOk result (text.new.items
        ≡ text.old.items ++ relation_text shown.entry earlier later relation.now) }
{
    match relation {
        Relation::SameNode => push_same(text, shown, earlier, later),
        Relation::Before(chain) => push_before(text, shown, earlier, later, chain),
        Relation::Apart(parting) => push_apart(text, shown, parting),
        Relation::Race(parting, first, second) => push_race(text, shown, parting, first, second),
    }
}
