//! Writing envelopes.

ghost use Rattle.std.specs.Prelude.{◌≡◌, ◌++◌, ◌<◌, ◌≤◌, ◌↔◌, [], length, IfOk, OnOk, IsErrOf};
ghost use Rattle.lrc_wire.specs.declared.limits.TheConstants.{MOST_BODY_BYTES};
ghost use Rattle.lrc_wire.specs.Ranges.{HasBits};
ghost use Rattle.lrc_wire.specs.declared.version.Version.TheVariants.{Two};
ghost use Rattle.lrc_wire.specs.Runs.{runs_of};
ghost use Rattle.lrc_wire.specs.Spelling.{Spells, header, body};

use crate::fault::EncodeFault;
use crate::limits::HEADER_BYTES;
use bodies::put_body;
use bytes::{BufMut, Bytes};
use lrc_envelope::{Envelope, Message};
use sizes::body_len;
use std::alloc::{AllocError, Global};

mod bodies;
mod changes;
mod intervals;
mod runs;
mod sizes;

// The number of each kind.
fn kind(message: &Message) -> u8
    ensures { result ≡ Rattle.lrc_wire.specs.Spelling.kind message.now }
{
    match message {
        Message::LockRequest(_) => 1,
        Message::LockForward(_) => 2,
        Message::LockGrant(_) => 3,
        Message::Arrive(_) => 4,
        Message::Depart(_) => 5,
        Message::Clean(_) => 6,
        Message::Discard(_) => 7,
        Message::ChangesRequest(_) => 8,
        Message::ChangesReply(_) => 9,
        Message::PageRequest(_) => 10,
        Message::PageReply(_) => 11,
    }
}

// Version, kind, sender, receiver, number, and how many bytes the body has.
#[tactic(auto, unfolding(crate::specs::Spelling::header, crate::specs::Spelling::byte, crate::specs::Spelling::number))]
fn put_header(out: &mut Vec<u8>, envelope: &Envelope, body_len: usize) -> Result<(), AllocError>
    requires exact { body_len ≡ length (body Two runs_of envelope.now.message) }
    requires short { body_len ≤ MOST_BODY_BYTES }
    ensures written { OnOk result (out.new.items
        ≡ out.old.items ++ header Two runs_of envelope.now) }
    ensures number_bits { OnOk result (HasBits 32 envelope.now.number) }
{
    let [n0, n1, n2, n3] = envelope.number.to_be_bytes();
    let [l0, l1, l2, l3] = (body_len as u32).to_be_bytes();
    let kind = kind(&envelope.message);
    let (from, to) = (envelope.from, envelope.to);
    out.put_slice(&[2, kind, from, to, n0, n1, n2, n3, l0, l1, l2, l3])
}

// Header and body.
fn put_envelope(out: &mut Vec<u8>, envelope: &Envelope, body_len: usize) -> Result<(), AllocError>
    requires exact { body_len ≡ length (body Two runs_of envelope.now.message) }
    requires short { body_len ≤ MOST_BODY_BYTES }
    requires empty { out.old.items ≡ [] }
    ensures { OnOk result (Spells Two envelope.now out.new.items) }
{
    put_header(out, envelope, body_len)?;
    put_body(out, &envelope.message)?;
    Ok(())
}

/// Returns the bytes of an envelope in version 2, as a list that only the caller holds. It fails with `TooLong` exactly
/// if the body would have more than `MOST_BODY_BYTES` bytes.
pub fn spell(alloc: Global, envelope: &Envelope) -> Result<Vec<u8>, EncodeFault>
    ensures written { IfOk result (λ bytes. Spells Two envelope.now bytes.items) }
    ensures too_long { IsErrOf result EncodeFault.TooLong
        ↔ (MOST_BODY_BYTES < length (body Two runs_of envelope.now.message)) }
{
    spell_over(Vec::new(alloc), envelope)
}

/// Does the same as `spell`, but reuses the memory of a list that is no longer needed.
pub fn spell_over(mut out: Vec<u8>, envelope: &Envelope) -> Result<Vec<u8>, EncodeFault>
    ensures written { IfOk result (λ bytes. Spells Two envelope.now bytes.items) }
    ensures too_long { IsErrOf result EncodeFault.TooLong
        ↔ (MOST_BODY_BYTES < length (body Two runs_of envelope.now.message)) }
{
    let Some(body_len) = body_len(&envelope.message) else {
        return Err(EncodeFault::TooLong);
    };
    out.clear();
    out.reserve(HEADER_BYTES + body_len)?;
    put_envelope(&mut out, envelope, body_len)?;
    Ok(out)
}

/// Returns the bytes of an envelope in version 2. It fails with `TooLong` exactly if the body would have more than
/// `MOST_BODY_BYTES` bytes.
pub fn encode(alloc: Global, envelope: &Envelope) -> Result<Bytes, EncodeFault>
    ensures written { IfOk result (λ bytes. Spells Two envelope.now bytes) }
    ensures too_long { IsErrOf result EncodeFault.TooLong
        ↔ (MOST_BODY_BYTES < length (body Two runs_of envelope.now.message)) }
{
    let bytes = spell(alloc, envelope)?;
    Ok(Bytes::from_vec(bytes)?)
}
