// The lines of races.

ghost use Rattle.std.specs.Prelude.{◌≡◌, ◌++◌, ◌<◌, ◌≤◌, All, IfOk, OnOk, length};
ghost use Rattle.lrc_judge.specs.declared.TheConstants.{NODES};
ghost use Rattle.lrc_judge.specs.Order.{IsOrderOf};
ghost use Rattle.lrc_text.specs.Each.{each};
ghost use Rattle.lrc_step.specs.RaceLines.{TellsRaces, group_line, races_text, rest_line};

use crate::groups::{alone, of_group};
use crate::push_race_line;
use crate::shown::{Part, shown_pairs};
use lrc_explain::{leaders_of, site_of};
use lrc_judge::first_pairs::first_pairs;
use lrc_judge::order::Order;
use lrc_judge::pairs::Pair;
use lrc_trace::act::Act;
use std::alloc::{AllocError, Global};

// Adds the line of the group of a first pair, which stands at this place among the groups.
fn push_group(
    alloc: Global,
    text: &mut Vec<u8>,
    acts: &[Act],
    lines: &[u32],
    pairs: &[Pair],
    place: usize,
    leader: Pair,
) -> Result<(), AllocError>
    requires { place < 18446744073709551615 }
    ensures { OnOk result (text.new.items
        ≡ text.old.items ++ group_line acts.now lines.now pairs.now place leader) }
{
    let found = of_group(alloc, acts, lines, leader, pairs)?;
    let site = site_of(acts, lines, leader);
    push_race_line(text, Some(place + 1), Some(site), &found)
}

fn push_groups(
    alloc: Global,
    text: &mut Vec<u8>,
    acts: &[Act],
    lines: &[u32],
    pairs: &[Pair],
    leaders: &[Pair],
) -> Result<(), AllocError>
    ensures { OnOk result (text.new.items
        ≡ text.old.items ++ each (group_line acts.now lines.now pairs.now) leaders.now) }
{
    for place in 0..leaders.len() {
        push_group(alloc, text, acts, lines, pairs, place, leaders[place])?;
    }
    Ok(())
}

fn push_rest(text: &mut Vec<u8>, pairs: &[Pair]) -> Result<(), AllocError>
    ensures { OnOk result (text.new.items ≡ text.old.items ++ rest_line pairs.now) }
{
    match pairs {
        [] => Ok(()),
        _ => push_race_line(text, None, None, pairs),
    }
}

fn races_of(
    alloc: Global,
    acts: &[Act],
    lines: &[u32],
    leaders: &[Pair],
    pairs: &[Pair],
) -> Result<Vec<u8>, AllocError>
    ensures { IfOk result (λ part. part.items
        ≡ races_text acts.now lines.now leaders.now pairs.now) }
{
    let mut text = Vec::new(alloc);
    push_groups(alloc, &mut text, acts, lines, pairs, leaders)?;
    let rest = alone(alloc, acts, lines, leaders, pairs)?;
    push_rest(&mut text, &rest)?;
    Ok(text)
}

/// Returns the lines about the races of a part of a run, whose acts have these program lines. Each group of the run
/// with reasons has a line. The pairs in no group have one more line, if there are any.
pub fn races_part(
    alloc: Global,
    acts: &[Act],
    lines: &[u32],
    order: &Order,
    nodes: u8,
    part: Part,
) -> Result<Vec<u8>, AllocError>
    requires order { IsOrderOf acts.now order.now }
    requires few { nodes ≤ NODES }
    requires nodes { All (λ act. act.node < nodes) acts.now }
    requires within { part.until ≤ length acts.now }
    ensures { IfOk result (λ text. TellsRaces acts.now lines.now part text.items) }
{
    let firsts = first_pairs(alloc, order, acts)?;
    let leaders = leaders_of(alloc, acts, lines, &firsts)?;
    let pairs = shown_pairs(alloc, acts, order, nodes, part)?;
    let text = races_of(alloc, acts, lines, &leaders, &pairs)?;
    Ok(text)
}
