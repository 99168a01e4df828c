// Acts where they stand.

ghost use Rattle.std.specs.Prelude.{◌≡◌, ◌++◌, OnOk};
ghost use Rattle.lrc_why_lines.specs.Places.{act_text, chain_text, line_text, since_text, there_text};

use crate::deed::push_shown_deed;
use crate::lists::push_joined;
use crate::look::{act_at, line_at, node_at};
use crate::shown::Shown;
use lrc_text::push_number;
use lrc_why::reasons::Since;
use std::alloc::AllocError;

#[tactic(auto, unfolding(crate::specs::Places::line_text))]
fn push_line(text: &mut Vec<u8>, shown: Shown<'_, '_>, position: usize) -> Result<(), AllocError>
    ensures { OnOk result (text.new.items ≡ text.old.items ++ line_text shown.entry position) }
{
    push_number(text, b", line ", line_at(shown, position))?;
    text.extend_from_slice(b": ")?;
    push_shown_deed(text, shown.labels, act_at(shown, position).deed)
}

#[tactic(auto, unfolding(crate::specs::Places::act_text))]
/// Adds the act at a position, with its node and source line.
pub fn push_act(text: &mut Vec<u8>, shown: Shown<'_, '_>, position: usize) -> Result<(), AllocError>
    ensures { OnOk result (text.new.items ≡ text.old.items ++ act_text shown.entry position) }
{
    push_number(text, b"act ", position as u64)?;
    push_number(text, b", node ", node_at(shown, position))?;
    push_line(text, shown, position)
}

#[tactic(auto, unfolding(crate::specs::Places::there_text))]
/// Adds the act at a position with its source line, but without its node, which the context tells.
pub fn push_there(
    text: &mut Vec<u8>,
    shown: Shown<'_, '_>,
    position: usize,
) -> Result<(), AllocError>
    ensures { OnOk result (text.new.items ≡ text.old.items ++ there_text shown.entry position) }
{
    push_number(text, b"act ", position as u64)?;
    push_line(text, shown, position)
}

#[tactic(auto, unfolding(crate::specs::Places::chain_text))]
/// Adds the positions of a chain of acts.
pub fn push_chain(text: &mut Vec<u8>, chain: &[usize]) -> Result<(), AllocError>
    ensures { OnOk result (text.new.items ≡ text.old.items ++ chain_text chain.now) }
{
    text.extend_from_slice(b", by acts ")?;
    push_joined(text, b", ", chain)
}

#[tactic(auto, unfolding(crate::specs::Places::since_text))]
/// Adds since when a node knows a position: its first act that knows it, and the chain of acts that leads there.
pub fn push_since(text: &mut Vec<u8>, shown: Shown<'_, '_>, since: &Since) -> Result<(), AllocError>
    ensures { OnOk result (text.new.items ≡ text.old.items ++ since_text shown.entry since.now) }
{
    text.extend_from_slice(b"since ")?;
    push_there(text, shown, since.first)?;
    push_chain(text, &since.chain)
}
