// What is printed of acts that are asked of.

ghost use Rattle.std.specs.Prelude.{◌≡◌, ◌≢◌, ◌<◌, ◌++◌, All, IfOk, IfSome, OnOk, length};
ghost use Rattle.lrc_judge.specs.declared.TheConstants.{NODES};
ghost use Rattle.lrc_judge.specs.Firsts.{AreIntervals};
ghost use Rattle.lrc_judge.specs.Order.{IsOrderOf};
ghost use Rattle.lrc_why_text.specs.Answers.{IsThere, TellsOf, TellsReasons, TellsRelation, act_line, reasons_text};

use crate::about::push_about;
use crate::asked::Asked;
use crate::forward::push_forward;
use crate::known::{push_all_news, push_interval};
use lrc_judge::order::Order;
use lrc_why::reasons::Reasons;
use lrc_why::whole::{reasons, relation};
use lrc_why_lines::look::act_at;
use lrc_why_lines::opponents::push_opponents;
use lrc_why_lines::places::push_act;
use lrc_why_lines::relation::push_relation;
use lrc_why_lines::shown::Shown;
use std::alloc::{AllocError, Global};

#[tactic(auto, unfolding(crate::specs::Answers::act_line))]
fn push_act_line(
    text: &mut Vec<u8>,
    shown: Shown<'_, '_>,
    position: usize,
) -> Result<(), AllocError>
    ensures { OnOk result (text.new.items ≡ text.old.items ++ act_line shown.entry position) }
{
    push_act(text, shown, position)?;
    text.extend_from_slice(b"\n")
}

#[tactic(auto, unfolding(crate::specs::Answers::reasons_text))]
// Adds the lines of an act, with these lines behind the first.
fn push_reasons(
    text: &mut Vec<u8>,
    shown: Shown<'_, '_>,
    size: u32,
    position: usize,
    told: &Reasons,
) -> Result<(), AllocError>
    requires { 0 < size }
    ensures { OnOk result (text.new.items
        ≡ text.old.items ++ reasons_text shown.entry size position told.now) }
{
    let deed = act_at(shown, position).deed;
    push_about(text, shown, deed, &told.about)?;
    push_opponents(text, shown, &told.opponents)?;
    push_interval(text, shown, size, position, &told.time, &told.words)?;
    push_all_news(text, shown, size, deed, &told.news, &told.unknown)?;
    push_forward(text, shown, position, &told.forward)
}

/// Returns the lines with the reasons of the act at a position. The lines in `private` follow the first of them.
pub(crate) fn reasons_part(
    alloc: Global,
    shown: Shown<'_, '_>,
    order: &Order,
    nodes: u8,
    size: u32,
    position: usize,
    private: &[u8],
) -> Result<Vec<u8>, AllocError>
    requires size { 0 < size }
    requires nodes { All (λ act. act.node < NODES) shown.acts.now }
    requires order { IsOrderOf shown.acts.now order.now }
    requires intervals { AreIntervals shown.acts.now (length shown.acts.now) shown.intervals.now }
    requires within { position < length shown.acts.now }
    ensures { IfOk result (λ text. TellsReasons shown.entry nodes size position private.now
        text.items) }
{
    let told = reasons(alloc, shown.acts, order, shown.intervals, nodes, position)?;
    let mut text = Vec::new(alloc);
    push_act_line(&mut text, shown, position)?;
    text.extend_from_slice(private)?;
    push_reasons(&mut text, shown, size, position, &told)?;
    Ok(text)
}

/// Returns the lines that tell how the acts at two positions are ordered.
pub(crate) fn relation_part(
    alloc: Global,
    shown: Shown<'_, '_>,
    order: &Order,
    earlier: usize,
    later: usize,
) -> Result<Vec<u8>, AllocError>
    requires order { IsOrderOf shown.acts.now order.now }
    requires earlier { earlier < later }
    requires within { later < length shown.acts.now }
    ensures { IfOk result (λ text. TellsRelation shown.entry earlier later text.items) }
{
    let told = relation(alloc, shown.acts, order, earlier, later)?;
    let mut text = Vec::new(alloc);
    push_act_line(&mut text, shown, earlier)?;
    push_act_line(&mut text, shown, later)?;
    push_relation(&mut text, shown, earlier, later, &told)?;
    Ok(text)
}

/// Returns what is printed about the asked acts: the reasons of one act, with the lines in `private`; or how two acts
/// are ordered, without those lines.
pub fn why_part(
    alloc: Global,
    shown: Shown<'_, '_>,
    order: &Order,
    nodes: u8,
    size: u32,
    asked: Asked,
    private: &[u8],
) -> Result<Vec<u8>, AllocError>
    requires size { 0 < size }
    requires nodes { All (λ act. act.node < NODES) shown.acts.now }
    requires order { IsOrderOf shown.acts.now order.now }
    requires intervals { AreIntervals shown.acts.now (length shown.acts.now) shown.intervals.now }
    requires there { IsThere asked.act asked.and (length shown.acts.now) }
    requires apart { IfSome asked.and (λ other. other ≢ asked.act) }
    ensures { IfOk result (λ text. TellsOf shown.entry nodes size asked.act asked.and private.now
        text.items) }
{
    match asked.and {
        None => reasons_part(alloc, shown, order, nodes, size, asked.act, private),
        Some(other) => {
            let earlier = asked.act.min(other);
            let later = asked.act.max(other);
            relation_part(alloc, shown, order, earlier, later)
        }
    }
}
