//! Reading envelopes.

ghost use Rattle.std.specs.Prelude.{◌≡◌, ◌≤◌, ◌*◌, length, IfOk, Ok};
ghost use Rattle.lrc_wire.specs.declared.version.Version.{Version};
ghost use Rattle.lrc_envelope.specs.Envelope.{EnvelopeRecord};
ghost use Rattle.lrc_wire.specs.Spelling.{Spells};
ghost use Rattle.lrc_wire.specs.Reading.{Gives, whole_body_of, envelope_of};

use crate::fault::WireFault;
use crate::kind::MessageKind;
use crate::limits::HEADER_BYTES;
use crate::version::Version;
use bodies::read_body;
use header::read_header;
use lrc_envelope::{Envelope, Message};
use std::alloc::Global;

mod bodies;
mod changes;
mod fields;
mod header;
mod indices;
mod intervals;
mod numbers;
mod pages;
mod parts;
mod times;

// How many elements to make room for: as many as are counted, but no more than the bytes can hold, where each takes
// at least so many.
fn room(count: u32, bytes: &[u8], each: usize) -> usize
    requires { 1 ≤ each }
    ensures counted { result ≤ count }
    ensures held { result * each ≤ length bytes.now }
{
    (count as usize).min(bytes.len() / each)
}

// A body of so many bytes, and no byte after it.
#[tactic(auto, unfolding(crate::specs::Reading::whole_body_of))]
fn whole_body(
    alloc: Global,
    version: Version,
    kind: MessageKind,
    len: u32,
    mut bytes: &[u8],
) -> Result<Message, WireFault>
    ensures { Gives (λ message. message) result (whole_body_of version kind len bytes.entry.now) }
{
    let len = len as usize;
    if bytes.len() < len {
        return Err(WireFault::Short);
    }
    if bytes.len() > len {
        return Err(WireFault::Long);
    }
    let message = read_body(alloc, version, kind, &mut bytes)?;
    if !bytes.is_empty() {
        return Err(WireFault::Long);
    }
    Ok(message)
}

// The envelope that all of the bytes spell.
#[tactic(auto, unfolding(crate::specs::Reading::envelope_of))]
fn read_envelope(alloc: Global, mut bytes: &[u8]) -> Result<Envelope, WireFault>
    ensures { Gives (λ envelope. envelope) result (envelope_of bytes.entry.now) }
{
    if bytes.len() < HEADER_BYTES {
        return Err(WireFault::Short);
    }
    let header = read_header(&mut bytes)?;
    let message = whole_body(alloc, header.version, header.kind, header.body_len, bytes)?;
    Ok(Envelope {
        from: header.from,
        to: header.to,
        number: header.number,
        message,
    })
}

/// Reads the envelope that the bytes spell, in either version. The envelope must use all the bytes.
///
/// Otherwise it returns the first fault from the left. `NoMemory` may come in place of an envelope or of another fault.
/// No memory is taken for elements that a count promises but the bytes do not contain.
pub fn decode(alloc: Global, bytes: &[u8]) -> Result<Envelope, WireFault>
    // What is read is spelled so, in one of the versions.
    ensures found { IfOk result (λ envelope. (version : Version)
        × Spells version envelope bytes.now) }
    // What is spelled so is read.
    ensures only { (version : Version) (envelope : EnvelopeRecord)
        → Spells version envelope bytes.now → Gives (λ read. read) result (Ok envelope) }
    // Which fault it is.
    ensures exact { Gives (λ read. read) result (envelope_of bytes.now) }
{
    read_envelope(alloc, bytes)
}
