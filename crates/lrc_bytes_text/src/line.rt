// The line of a turn.

ghost use Rattle.std.specs.Prelude.{◌≡◌, ◌++◌, OnOk, option_map};
ghost use Rattle.lrc_bytes_text.specs.BytesText.{act_or_null, again_member, line_seen, sends_member, take_member, turn_head, turn_line};

use crate::message::{push_sent, push_taken};
use lrc_envelope::Envelope;
use lrc_events::push_event;
use lrc_protocol::Event;
use lrc_text::{push_deed, push_number};
use lrc_trace::act::Act;
use std::alloc::{AllocError, Global};

/// A turn of a run.
#[derive(Clone, Copy)]
pub struct Line<'a> {
    /// How many turns come before it.
    pub number: u64,
    /// The event that makes it.
    pub event: Event,
    /// The node that makes it.
    pub node: u8,
    /// The message that it takes, if it takes one.
    pub taken: Option<&'a Envelope>,
    /// Whether the node took that message before.
    pub again: bool,
    /// How many acts come before it.
    pub position: u64,
    /// Its act, if it makes one.
    pub act: Option<Act>,
    /// The messages that it sends, in the order in which it sends them.
    pub out: &'a [Envelope],
}

/// Adds the line of a turn: an object of JSON, in which each message has its bytes in version 2, as hexadecimal digits.
pub fn push_line(alloc: Global, text: &mut Vec<u8>, line: &Line<'_>) -> Result<(), AllocError>
    ensures { OnOk result (text.new.items ≡ text.old.items ++ turn_line (line_seen line.now)) }
{
    push_head(text, line)?;
    push_take(alloc, text, line.taken)?;
    text.extend_from_slice(again_member(line.again))?;
    push_act(text, line.position, line.act)?;
    push_sends(alloc, text, line.out)
}

// Adds the number of a turn, its event and its node.
#[tactic(auto, unfolding(crate::specs::BytesText::turn_head))]
fn push_head(text: &mut Vec<u8>, line: &Line<'_>) -> Result<(), AllocError>
    ensures { OnOk result (text.new.items
        ≡ text.old.items ++ turn_head line.now.number line.now.event line.now.node) }
{
    push_number(text, b"{\"turn\":", line.number)?;
    text.extend_from_slice(b",\"event\":\"")?;
    push_event(text, line.event)?;
    push_number(text, b"\",\"node\":", u64::from(line.node))
}

// Adds the message that a turn takes.
#[tactic(auto, unfolding(crate::specs::BytesText::take_member))]
fn push_take(alloc: Global, text: &mut Vec<u8>, taken: Option<&Envelope>) -> Result<(), AllocError>
    ensures { OnOk result (text.new.items
        ≡ text.old.items ++ take_member (option_map (λ envelope. envelope.now) taken.entry)) }
{
    text.extend_from_slice(b",\"take\":")?;
    push_taken(alloc, text, taken)
}

// Whether the message was taken before.
#[tactic(auto, unfolding(crate::specs::BytesText::again_member))]
fn again_member(again: bool) -> &'static [u8]
    ensures { result.now ≡ again_member again }
{
    if again {
        b",\"again\":true,\"act\":"
    } else {
        b",\"again\":false,\"act\":"
    }
}

// Adds the act at this position, or `null` if there is none.
#[tactic(auto, unfolding(crate::specs::BytesText::act_or_null))]
fn push_act(text: &mut Vec<u8>, position: u64, act: Option<Act>) -> Result<(), AllocError>
    ensures { OnOk result (text.new.items ≡ text.old.items ++ act_or_null position act) }
{
    let Some(act) = act else {
        return text.extend_from_slice(b"null");
    };
    push_number(text, b"{\"position\":", position)?;
    text.extend_from_slice(b",\"deed\":\"")?;
    push_deed(text, act.deed)?;
    text.extend_from_slice(b"\"}")
}

// Adds what a turn sends, and the end of the line.
#[tactic(auto, unfolding(crate::specs::BytesText::sends_member))]
fn push_sends(alloc: Global, text: &mut Vec<u8>, out: &[Envelope]) -> Result<(), AllocError>
    ensures { OnOk result (text.new.items ≡ text.old.items ++ sends_member out.now) }
{
    text.extend_from_slice(b",\"sends\":[")?;
    push_sent(alloc, text, out)?;
    text.extend_from_slice(b"]}\n")
}
