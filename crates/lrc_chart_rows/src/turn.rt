// The turns of a run in the order in which its nodes made them.

ghost use Rattle.std.specs.Prelude.{◌≡◌, ◌++◌, IfOk, OnOk};
ghost use Rattle.lrc_protocol.specs.Run.{turns_of_logs};
ghost use Rattle.lrc_turns_text.specs.Turns.{next, turns_told};
ghost use Rattle.lrc_chart_rows.specs.Counts.{Counts};

use crate::counts::Made;
use lrc_log::Entry;
use lrc_turns_text::entry_of;
use std::alloc::{AllocError, Global};
use std::marker::Model;

/// A turn of a run, and the node that made it.
#[derive(Drop)]
pub struct TurnOf<'a> {
    pub node: u8,
    pub entry: &'a Entry,
}

impl<'a> Model for TurnOf<'a> {
    ghost use Rattle.lrc_turns_text.specs.Turns.{Made};

    ghost Value = { Made };

    ghost view = { λ t. record { node = t.node; entry = t.entry.now } };
}

// Adds the next turn of a node, if its log has one.
fn push_next<'a>(
    turns: &mut Vec<TurnOf<'a>>,
    made: &mut Made,
    logs: &'a [Vec<Entry>],
    node: u8,
) -> Result<(), AllocError>
    requires { Counts turns.old.items made.old.counts }
    ensures turns { OnOk result (turns.new.items
        ≡ turns.old.items ++ next (turns_of_logs logs.now) turns.old.items node) }
    ensures counts { OnOk result (Counts turns.new.items made.new.counts) }
{
    if let Some(entry) = entry_of(logs, node, made.by(node)) {
        made.note(node);
        turns.push(TurnOf { node, entry })?;
    }
    Ok(())
}

/// Returns the turns that the nodes made, in this order. Each is the next entry of its node's log. A node whose log has
/// no more entries adds no turn.
pub fn turns_of<'a>(
    alloc: Global,
    logs: &'a [Vec<Entry>],
    order: &[u8],
) -> Result<Vec<TurnOf<'a>>, AllocError>
    ensures { IfOk result (λ turns. turns.items
        ≡ turns_told (turns_of_logs logs.now) order.now) }
{
    let mut turns = Vec::new(alloc);
    let mut made = Made::new();
    for node in order {
        push_next(&mut turns, &mut made, logs, *node)?;
    }
    Ok(turns)
}
