// What is printed of a run, with reasons.

ghost use Rattle.std.specs.Prelude.{◌≡◌, ◌<◌, ◌++◌, List, All, IfOk, OnOk, map};
ghost use Rattle.lrc_judge.specs.declared.TheConstants.{NODES};
ghost use Rattle.lrc_judge.specs.declared.lanes.Pair.{Pair as PairRecord};
ghost use Rattle.lrc_judge.specs.FirstPairs.{AreFirstPairs};
ghost use Rattle.lrc_judge.specs.Order.{IsOrderOf};
ghost use Rattle.lrc_labels.specs.Reading.{label_seen};
ghost use Rattle.lrc_named_core.specs.View.{trap_of};
ghost use Rattle.lrc_text.specs.Parts.{whole_text};
ghost use Rattle.lrc_text.specs.RaceText.{first_race_text};
ghost use Rattle.lrc_explain.specs.Explain.{explain_text, fates_text, print_of, print_text, prints_text};
ghost use Rattle.lrc_explain_waits.specs.Circles.{deadlocks_text};

use crate::access::push_node;
use crate::groups::groups_part;
use lrc_exec::code::Code;
use lrc_explain_waits::{Stand, push_deadlocks, push_end, stands_of, trap_at};
use lrc_judge::NODES;
use lrc_judge::first_pairs::first_pairs;
use lrc_judge::order::Order;
use lrc_labels::label::Label;
use lrc_lines::walks::follow_acts;
use lrc_named_core::tree::Trap;
use lrc_text::{first_race_part, push_number};
use lrc_trace::act::{Act, Deed};
use std::alloc::{AllocError, Global};

fn push_print(text: &mut Vec<u8>, node: usize, deed: Deed) -> Result<(), AllocError>
    ensures { OnOk result (text.new.items ≡ text.old.items ++ print_text node deed) }
{
    match deed {
        Deed::Print(value) => {
            push_node(text, node as u64)?;
            push_number(text, b" prints ", value)?;
            text.extend_from_slice(b"\n")
        }
        _ => Ok(()),
    }
}

fn push_print_of(text: &mut Vec<u8>, node: usize, act: Act) -> Result<(), AllocError>
    ensures { OnOk result (text.new.items ≡ text.old.items ++ print_of node act) }
{
    if usize::from(act.node) == node {
        push_print(text, node, act.deed)
    } else {
        Ok(())
    }
}

// Adds what a node printed.
fn push_prints(text: &mut Vec<u8>, node: usize, acts: &[Act]) -> Result<(), AllocError>
    ensures { OnOk result (text.new.items ≡ text.old.items ++ prints_text node acts.now) }
{
    for act in acts {
        push_print_of(text, node, *act)?;
    }
    Ok(())
}

// What each node printed, how it ended and why.
fn nodes_part(
    alloc: Global,
    labels: &[Label<'_>],
    traps: &[Trap<'_>],
    acts: &[Act],
    stands: &[Stand],
) -> Result<Vec<u8>, AllocError>
    ensures { IfOk result (λ part. part.items
        ≡ fates_text (map label_seen labels.now) (map trap_of traps.now) acts.now stands.now) }
{
    let mut text = Vec::new(alloc);
    for node in 0..stands.len() {
        push_prints(&mut text, node, acts)?;
        let trap = trap_at(traps, node);
        push_end(alloc, &mut text, labels, trap, stands, node, stands[node])?;
    }
    Ok(text)
}

fn deadlocks_part(alloc: Global, stands: &[Stand]) -> Result<Vec<u8>, AllocError>
    ensures { IfOk result (λ part. part.items ≡ deadlocks_text stands.now) }
{
    let mut text = Vec::new(alloc);
    push_deadlocks(alloc, &mut text, stands)?;
    Ok(text)
}

fn parts_of(
    alloc: Global,
    told: Vec<u8>,
    deadlocks: Vec<u8>,
    groups: Vec<u8>,
    first_race: Option<usize>,
) -> Result<Vec<Vec<u8>>, AllocError>
    ensures { IfOk result (λ parts. whole_text parts.items
        ≡ told.items ++ deadlocks.items ++ groups.items ++ first_race_text first_race) }
{
    let mut parts = Vec::new(alloc);
    parts.push(told)?;
    parts.push(deadlocks)?;
    parts.push(groups)?;
    parts.push(first_race_part(alloc, first_race)?)?;
    Ok(parts)
}

/// Returns what is printed of a run with its reasons, in parts: for each node what it printed, how it ended and why;
/// the circles of waiting; the races by groups; and the first race. `lines` has the lines of the program's statements,
/// and of the text's end behind them. Each node has `steps` steps. The labels of words and locks follow their numbers.
/// `traps` has, for each node, what the text says of a trap of the statement to which it has come; or it is empty.
/// `order` is the happens-before order of the acts.
pub fn explain(
    alloc: Global,
    labels: &[Label<'_>],
    traps: &[Trap<'_>],
    code: &Code<'_>,
    lines: &[u32],
    nodes: u8,
    steps: u32,
    acts: &[Act],
    order: &Order,
    first_race: Option<usize>,
) -> Result<Vec<Vec<u8>>, AllocError>
    requires nodes { All (λ act. act.node < NODES) acts.now }
    requires order { IsOrderOf acts.now order.now }
    ensures { IfOk result (λ parts. (pairs : List PairRecord) × AreFirstPairs acts.now pairs
        × (whole_text parts.items
        ≡ explain_text (map label_seen labels.now) (map trap_of traps.now) code.now nodes lines.now
        steps acts.now pairs first_race)) }
{
    let followed = follow_acts(alloc, code, lines, nodes, acts)?;
    let stands = stands_of(alloc, &followed, nodes, Some(steps), acts)?;
    let pairs = first_pairs(alloc, order, acts)?;
    let told = nodes_part(alloc, labels, traps, acts, &stands)?;
    let deadlocks = deadlocks_part(alloc, &stands)?;
    let groups = groups_part(alloc, labels, acts, &followed.lines, &pairs)?;
    let parts = parts_of(alloc, told, deadlocks, groups, first_race)?;
    Ok(parts)
}
