//! Reading headers.

ghost use Rattle.std.specs.Prelude.{◌≡◌, ◌<◌, IfOk};
ghost use Rattle.lrc_wire.specs.Reading.{Gives, version_at, kind_at, header_at};

use super::fields::read_node;
use super::numbers::{read_u8, read_u32};
use crate::fault::WireFault;
use crate::kind::{self, MessageKind};
use crate::limits::MOST_BODY_BYTES;
use crate::version::Version;
use lrc_envelope::MOST_NODES;
use std::marker::Model;

/// The header of a message.
#[derive(Drop)]
pub(super) struct Header {
    pub version: Version,
    pub kind: MessageKind,
    pub from: u8,
    pub to: u8,
    pub number: u32,
    pub body_len: u32,
}

impl Model for Header {
    ghost use Rattle.std.specs.Prelude.{◌<◌};
    ghost use Rattle.lrc_envelope.specs.declared.limits.TheConstants.{MOST_NODES};
    ghost use Rattle.lrc_wire.specs.Reading.{HeaderRecord};

    ghost Value = { HeaderRecord };

    ghost view = { λ h. record { version = h.version; kind = h.kind; from = h.from; to = h.to; number = h.number; body_len = h.body_len } };

    ghost invariant = { λ h. (h.from < MOST_NODES) × (h.to < MOST_NODES) };
}

#[tactic(auto, unfolding(crate::specs::Reading::version_at))]
fn read_version(bytes: &mut &[u8]) -> Result<Version, WireFault>
    ensures { Gives (λ version. (version, bytes.new.now)) result (version_at bytes.old.now) }
{
    Version::numbered(read_u8(bytes)?).ok_or(WireFault::BadVersion)
}

#[tactic(auto, unfolding(crate::specs::Reading::kind_at))]
fn read_kind(bytes: &mut &[u8]) -> Result<MessageKind, WireFault>
    ensures { Gives (λ kind. (kind, bytes.new.now)) result (kind_at bytes.old.now) }
{
    kind::numbered(read_u8(bytes)?).ok_or(WireFault::BadKind)
}

#[tactic(auto, unfolding(crate::specs::Reading::header_at, crate::specs::Reading::tested))]
pub(super) fn read_header(bytes: &mut &[u8]) -> Result<Header, WireFault>
    ensures { Gives (λ header. (header, bytes.new.now)) result (header_at bytes.old.now) }
{
    let mut rest = *bytes;
    let version = read_version(&mut rest)?;
    let kind = read_kind(&mut rest)?;
    let from = read_node(&mut rest)?;
    let to = read_node(&mut rest)?;
    let number = read_u32(&mut rest)?;
    let body_len = read_u32(&mut rest)?;
    if body_len as usize > MOST_BODY_BYTES {
        return Err(WireFault::BadCount);
    }
    *bytes = rest;
    Ok(Header {
        version,
        kind,
        from,
        to,
        number,
        body_len,
    })
}
