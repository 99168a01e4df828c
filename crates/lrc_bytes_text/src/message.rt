// Messages with their bytes, as objects of JSON.

ghost use Rattle.std.specs.Prelude.{◌≡◌, ◌<◌, ◌≤◌, ◌++◌, IfOk, MatchOption, OnOk, codes, length, option_map};
ghost use Rattle.std.specs.String.{string_bytes};
ghost use Rattle.hex.specs.Hex.{encode_lower};
ghost use Rattle.lrc_wire.specs.declared.limits.TheConstants.{MOST_BODY_BYTES};
ghost use Rattle.lrc_wire.specs.declared.version.Version.TheVariants.{Two};
ghost use Rattle.lrc_wire.specs.Runs.{runs_of};
ghost use Rattle.lrc_wire.specs.Spelling.{body, bytes_of};
ghost use Rattle.lrc_messages.specs.Lists.{before};
ghost use Rattle.lrc_bytes_text.specs.BytesText.{message_object, sent_list, sent_object, taken_or_null, wire_text};

use lrc_envelope::Envelope;
use lrc_text::push_number;
use lrc_wire::{EncodeFault, spell};
use std::alloc::{AllocError, Global};

// The digits of a message's bytes, or none where it has more than may be sent.
#[tactic(auto, using(crate::proofs::Wiring::digits_are, lrc_messages::proofs::Sizes::written_short))]
fn digits_of(alloc: Global, envelope: &Envelope) -> Result<Option<String>, AllocError>
    ensures { IfOk result (λ digits. MatchOption digits
        (MOST_BODY_BYTES < length (body Two runs_of envelope.now.message))
        (λ text. (string_bytes text ≡ encode_lower (bytes_of envelope.now))
        × (length (body Two runs_of envelope.now.message) ≤ MOST_BODY_BYTES))) }
{
    match spell(alloc, envelope) {
        Ok(bytes) => Ok(Some(hex::encode(alloc, bytes.as_slice())?)),
        Err(EncodeFault::TooLong) => Ok(None),
        Err(EncodeFault::NoMemory) => Err(AllocError),
    }
}

// Adds the bytes of a message as digits, or `no` where it is too long to be sent.
#[tactic(auto, unfolding(crate::specs::BytesText::wire_text))]
fn push_wire(alloc: Global, text: &mut Vec<u8>, envelope: &Envelope) -> Result<(), AllocError>
    ensures { OnOk result (text.new.items ≡ text.old.items ++ wire_text envelope.now) }
{
    match digits_of(alloc, envelope)? {
        Some(digits) => text.extend_from_slice(digits.as_bytes()),
        None => text.extend_from_slice(b"no"),
    }
}

// Adds a message with its other end, which stands behind these words.
#[tactic(auto, unfolding(crate::specs::BytesText::message_object))]
fn push_object(
    alloc: Global,
    text: &mut Vec<u8>,
    way: &[u8],
    other: u8,
    envelope: &Envelope,
) -> Result<(), AllocError>
    ensures { OnOk result (text.new.items
        ≡ text.old.items ++ message_object way.now other envelope.now) }
{
    push_number(text, way, u64::from(other))?;
    push_number(text, b",\"number\":", u64::from(envelope.number))?;
    text.extend_from_slice(b",\"bytes\":\"")?;
    push_wire(alloc, text, envelope)?;
    text.extend_from_slice(b"\"}")
}

/// Adds the message that a turn takes, or `null` if it takes none.
pub(crate) fn push_taken(
    alloc: Global,
    text: &mut Vec<u8>,
    taken: Option<&Envelope>,
) -> Result<(), AllocError>
    ensures { OnOk result (text.new.items
        ≡ text.old.items ++ taken_or_null (option_map (λ envelope. envelope.now) taken.entry)) }
{
    match taken {
        Some(envelope) => push_object(alloc, text, b"{\"from\":", envelope.from, envelope),
        None => text.extend_from_slice(b"null"),
    }
}

// Adds a message that a turn sends at this place of a list.
fn push_listed(
    alloc: Global,
    text: &mut Vec<u8>,
    place: usize,
    envelope: &Envelope,
) -> Result<(), AllocError>
    ensures { OnOk result (text.new.items
        ≡ text.old.items ++ before place (codes ",") ++ sent_object envelope.now) }
{
    push_comma(text, place)?;
    push_object(alloc, text, b"{\"to\":", envelope.to, envelope)
}

// Adds a comma before the item at this place, or nothing before the first.
fn push_comma(text: &mut Vec<u8>, place: usize) -> Result<(), AllocError>
    ensures { OnOk result (text.new.items ≡ text.old.items ++ before place (codes ",")) }
{
    if place == 0 {
        return Ok(());
    }
    text.extend_from_slice(b",")
}

/// Adds the messages that a turn sends, separated by commas.
pub(crate) fn push_sent(
    alloc: Global,
    text: &mut Vec<u8>,
    out: &[Envelope],
) -> Result<(), AllocError>
    ensures { OnOk result (text.new.items ≡ text.old.items ++ sent_list out.now) }
{
    for (place, envelope) in out.iter().enumerate() {
        push_listed(alloc, text, place, envelope)?;
    }
    Ok(())
}
