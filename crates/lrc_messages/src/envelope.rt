// A line for each message that a node takes or sends.

ghost use Rattle.std.specs.Prelude.{◌≡◌, ◌<◌, ◌≤◌, ◌++◌, IfOk, MatchOption, OnErr, OnOk, length};
ghost use Rattle.std.specs.Prelude.{codes, decimal, if◌then◌else◌};
ghost use Rattle.lrc_text.specs.Front.{BeginsWith};
ghost use Rattle.lrc_wire.specs.declared.limits.TheConstants.{MOST_BODY_BYTES};
ghost use Rattle.lrc_wire.specs.declared.version.Version.TheVariants.{Two};
ghost use Rattle.lrc_wire.specs.Runs.{runs_of};
ghost use Rattle.lrc_wire.specs.Spelling.{body, bytes_of};
ghost use Rattle.lrc_messages.specs.MessageText.{message_text};
ghost use Rattle.lrc_messages.specs.TurnText.{sent_text, sent_texts, size_text, taken_text};

use crate::message::push_message;
use lrc_envelope::{Envelope, Message};
use lrc_text::push_number;
use lrc_wire::{EncodeFault, encode};
use std::alloc::{AllocError, Global};

// Adds a node, what it does with the message of this number, and the other node.
fn push_head(
    text: &mut Vec<u8>,
    node: u8,
    does: &[u8],
    number: u32,
    way: &[u8],
    other: u8,
) -> Result<(), AllocError>
    ensures ok { OnOk result (text.new.items
        ≡ text.old.items ++ (codes "# node " ++ decimal node ++ does.now ++ decimal number
        ++ way.now ++ decimal other)) }
    ensures err { OnErr result (BeginsWith text.new.items text.old.items) }
{
    push_number(text, b"# node ", u64::from(node))?;
    push_number(text, does, u64::from(number))?;
    push_number(text, way, u64::from(other))
}

/// Adds the line of a message that a node takes. If the node took it before (`again`), the line does not repeat what it
/// says. On error `text` still begins with its old bytes.
pub fn push_taken(
    alloc: Global,
    text: &mut Vec<u8>,
    node: u8,
    envelope: &Envelope,
    again: bool,
) -> Result<(), AllocError>
    ensures ok { OnOk result (text.new.items
        ≡ text.old.items ++ taken_text node envelope.now again) }
    ensures err { OnErr result (BeginsWith text.new.items text.old.items) }
{
    push_head(
        text,
        node,
        b" takes ",
        envelope.number,
        b" from ",
        envelope.from,
    )?;
    push_said(alloc, text, &envelope.message, again)?;
    text.extend_from_slice(b"\n")
}

// Adds what a message says, or that it was taken before.
fn push_said(
    alloc: Global,
    text: &mut Vec<u8>,
    message: &Message,
    again: bool,
) -> Result<(), AllocError>
    ensures ok { OnOk result (text.new.items
        ≡ text.old.items ++ (if again then codes " again" else codes ": "
        ++ message_text message.now)) }
    ensures err { OnErr result (BeginsWith text.new.items text.old.items) }
{
    if again {
        return text.extend_from_slice(b" again");
    }
    text.extend_from_slice(b": ")?;
    push_message(alloc, text, message)
}

// How many bytes an envelope has, or none where it has more than may be sent.
#[tactic(auto, using(crate::proofs::Sizes::written_long, crate::proofs::Sizes::written_short))]
fn size_of(alloc: Global, envelope: &Envelope) -> Result<Option<u64>, AllocError>
    ensures { IfOk result (λ size. MatchOption size
        (MOST_BODY_BYTES < length (body Two runs_of envelope.now.message))
        (λ count. (count ≡ length (bytes_of envelope.now))
        × (length (body Two runs_of envelope.now.message) ≤ MOST_BODY_BYTES))) }
{
    match encode(alloc, envelope) {
        Ok(bytes) => Ok(Some(bytes.len() as u64)),
        Err(EncodeFault::TooLong) => Ok(None),
        Err(EncodeFault::NoMemory) => Err(AllocError),
    }
}

/// Adds the number of bytes of an envelope, or `no` if its message is too long to be sent. On error `text` still begins
/// with its old bytes.
pub fn push_size(alloc: Global, text: &mut Vec<u8>, envelope: &Envelope) -> Result<(), AllocError>
    ensures ok { OnOk result (text.new.items ≡ text.old.items ++ size_text envelope.now) }
    ensures err { OnErr result (BeginsWith text.new.items text.old.items) }
{
    match size_of(alloc, envelope)? {
        Some(count) => push_number(text, b"", count),
        None => text.extend_from_slice(b"no"),
    }
}

// Adds the size of an envelope, and the words around it.
fn push_bytes(alloc: Global, text: &mut Vec<u8>, envelope: &Envelope) -> Result<(), AllocError>
    ensures ok { OnOk result (text.new.items
        ≡ text.old.items ++ (codes ", " ++ size_text envelope.now ++ codes " bytes: ")) }
    ensures err { OnErr result (BeginsWith text.new.items text.old.items) }
{
    text.extend_from_slice(b", ")?;
    push_size(alloc, text, envelope)?;
    text.extend_from_slice(b" bytes: ")
}

/// Adds the line of a message that a node sends. On error `text` still begins with its old bytes.
pub fn push_sent(
    alloc: Global,
    text: &mut Vec<u8>,
    node: u8,
    envelope: &Envelope,
) -> Result<(), AllocError>
    ensures ok { OnOk result (text.new.items ≡ text.old.items ++ sent_text node envelope.now) }
    ensures err { OnErr result (BeginsWith text.new.items text.old.items) }
{
    push_head(
        text,
        node,
        b" sends ",
        envelope.number,
        b" to ",
        envelope.to,
    )?;
    push_bytes(alloc, text, envelope)?;
    push_message(alloc, text, &envelope.message)?;
    text.extend_from_slice(b"\n")
}

/// Adds a line for each message that a node sends. On error `text` still begins with its old bytes.
pub fn push_all_sent(
    alloc: Global,
    text: &mut Vec<u8>,
    node: u8,
    out: &[Envelope],
) -> Result<(), AllocError>
    ensures ok { OnOk result (text.new.items ≡ text.old.items ++ sent_texts node out.now) }
    ensures err { OnErr result (BeginsWith text.new.items text.old.items) }
{
    for envelope in out {
        push_sent(alloc, text, node, envelope)?;
    }
    Ok(())
}
