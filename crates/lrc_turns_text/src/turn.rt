// A turn in words.

ghost use Rattle.std.specs.Prelude.{◌≡◌, ◌++◌, OnOk};
ghost use Rattle.lrc_log.specs.Input.{seen_input};
ghost use Rattle.lrc_turns_text.specs.TurnsText.{input_text, turn_act_text, turn_text};

use lrc_log::{Entry, Input};
use lrc_messages::{push_all_sent, push_taken};
use lrc_text::push_act_line;
use lrc_trace::act::Act;
use std::alloc::{AllocError, Global};

// Adds the line of the message that a turn takes, if it takes one.
fn push_input(
    alloc: Global,
    text: &mut Vec<u8>,
    node: u8,
    input: &Input,
    again: bool,
) -> Result<(), AllocError>
    ensures { OnOk result (text.new.items
        ≡ text.old.items ++ input_text node (seen_input input.now) again) }
{
    match input {
        Input::Run => Ok(()),
        Input::Taken(envelope) => push_taken(alloc, text, node, envelope, again),
    }
}

// Adds the line of a turn's act, if it makes one.
fn push_act(text: &mut Vec<u8>, act: Option<Act>, line: u32) -> Result<(), AllocError>
    ensures { OnOk result (text.new.items ≡ text.old.items ++ turn_act_text act line) }
{
    match act {
        Some(act) => push_act_line(text, act, line),
        None => Ok(()),
    }
}

/// Adds a turn: the message that it takes, its act with this line of the program's text, and the messages that it
/// sends.
pub(crate) fn push_turn(
    alloc: Global,
    text: &mut Vec<u8>,
    node: u8,
    entry: &Entry,
    again: bool,
    line: u32,
) -> Result<(), AllocError>
    ensures { OnOk result (text.new.items
        ≡ text.old.items ++ turn_text (record { node = node; entry = entry.now }) again line) }
{
    push_input(alloc, text, node, &entry.input, again)?;
    push_act(text, entry.turn.act, line)?;
    push_all_sent(alloc, text, node, entry.turn.out.as_slice())
}
