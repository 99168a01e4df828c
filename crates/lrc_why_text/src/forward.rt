// Who learns of an act, in words.

ghost use Rattle.std.specs.Prelude.{◌≡◌, ◌++◌, OnOk};
ghost use Rattle.lrc_why_text.specs.Learning.{forward_text, from_line, learner_line, learner_text, learners_text, nobody_line, spread_text, telling_line};

use lrc_text::push_number;
use lrc_why::reasons::{Forward, Since, Spread};
use lrc_why_lines::lists::push_nodes_line;
use lrc_why_lines::look::node_at;
use lrc_why_lines::places::{push_chain, push_there};
use lrc_why_lines::shown::Shown;
use std::alloc::AllocError;

#[tactic(auto, unfolding(crate::specs::Learning::nobody_line))]
fn push_nobody(text: &mut Vec<u8>, node: u64) -> Result<(), AllocError>
    ensures { OnOk result (text.new.items ≡ text.old.items ++ nobody_line node) }
{
    push_number(text, b"  nobody can learn of it: node ", node)?;
    text.extend_from_slice(b" releases no lock and comes to no barrier after it\n")
}

#[tactic(auto, unfolding(crate::specs::Learning::telling_line))]
fn push_telling(text: &mut Vec<u8>, shown: Shown<'_, '_>, from: usize) -> Result<(), AllocError>
    ensures { OnOk result (text.new.items ≡ text.old.items ++ telling_line shown.entry from) }
{
    text.extend_from_slice(b"  others can learn of it from ")?;
    push_there(text, shown, from)?;
    text.extend_from_slice(b" on\n")
}

#[tactic(auto, unfolding(crate::specs::Learning::from_line))]
fn push_from(
    text: &mut Vec<u8>,
    shown: Shown<'_, '_>,
    position: usize,
    from: usize,
) -> Result<(), AllocError>
    ensures { OnOk result (text.new.items ≡ text.old.items ++ from_line shown.entry position from) }
{
    if from == position {
        return Ok(());
    }
    push_telling(text, shown, from)
}

#[tactic(auto, unfolding(crate::specs::Learning::learner_line))]
fn push_learner_line(
    text: &mut Vec<u8>,
    shown: Shown<'_, '_>,
    node: usize,
    since: &Since,
) -> Result<(), AllocError>
    ensures { OnOk result (text.new.items
        ≡ text.old.items ++ learner_line shown.entry node since.now) }
{
    push_number(text, b"  node ", node as u64)?;
    text.extend_from_slice(b" learns of it at ")?;
    push_there(text, shown, since.first)?;
    push_chain(text, &since.chain)?;
    text.extend_from_slice(b"\n")
}

#[tactic(auto, unfolding(crate::specs::Learning::learner_text))]
fn push_learner(
    text: &mut Vec<u8>,
    shown: Shown<'_, '_>,
    node: usize,
    since: &Option<Since>,
) -> Result<(), AllocError>
    ensures { OnOk result (text.new.items
        ≡ text.old.items ++ learner_text shown.entry node since.now) }
{
    match since {
        Some(since) => push_learner_line(text, shown, node, since),
        None => Ok(()),
    }
}

fn push_learners(
    text: &mut Vec<u8>,
    shown: Shown<'_, '_>,
    learners: &[Option<Since>],
) -> Result<(), AllocError>
    ensures { OnOk result (text.new.items
        ≡ text.old.items ++ learners_text shown.entry learners.now) }
{
    for node in 0..learners.len() {
        push_learner(text, shown, node, &learners[node])?;
    }
    Ok(())
}

#[tactic(auto, unfolding(crate::specs::Learning::spread_text))]
fn push_spread(
    text: &mut Vec<u8>,
    shown: Shown<'_, '_>,
    position: usize,
    spread: &Spread,
) -> Result<(), AllocError>
    ensures { OnOk result (text.new.items
        ≡ text.old.items ++ spread_text shown.entry position spread.now) }
{
    push_from(text, shown, position, spread.from)?;
    push_learners(text, shown, &spread.learners)?;
    push_nodes_line(text, b"  never known at ", &spread.never)
}

#[tactic(auto, unfolding(crate::specs::Learning::forward_text))]
/// Adds the lines that tell which nodes learn of the act at a position.
pub(crate) fn push_forward(
    text: &mut Vec<u8>,
    shown: Shown<'_, '_>,
    position: usize,
    forward: &Forward,
) -> Result<(), AllocError>
    ensures { OnOk result (text.new.items
        ≡ text.old.items ++ forward_text shown.entry position forward.now) }
{
    match forward {
        Forward::Unsaid => Ok(()),
        Forward::Nobody => push_nobody(text, node_at(shown, position)),
        Forward::Others(spread) => push_spread(text, shown, position, spread),
    }
}
