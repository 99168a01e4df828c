//! Reading the body of each kind of message.

ghost use Rattle.std.specs.Prelude.{◌≡◌};
ghost use Rattle.lrc_wire.specs.Reading.{Gives, lock_request_at, lock_forward_at, lock_grant_at, arrive_at, depart_at, clean_at, discard_at};
ghost use Rattle.lrc_wire.specs.Reading.{changes_request_at, changes_reply_at, page_request_at, page_reply_at, body_at};

use super::fields::{read_episode, read_flag, read_lock, read_node, read_page};
use super::indices::read_indices;
use super::intervals::read_news;
use super::pages::read_page_values;
use super::parts::read_parts;
use super::times::read_time;
use crate::fault::WireFault;
use crate::kind::MessageKind;
use crate::version::Version;
use lrc_envelope::{
    Arrive, ChangesReply, ChangesRequest, Clean, Depart, Discard, LockForward, LockGrant,
    LockRequest, Message, PageReply, PageRequest,
};
use std::alloc::Global;

#[tactic(auto, unfolding(crate::specs::Reading::lock_request_at))]
fn read_lock_request(bytes: &mut &[u8]) -> Result<LockRequest, WireFault>
    ensures { Gives (λ m. (m, bytes.new.now)) result (lock_request_at bytes.old.now) }
{
    let lock = read_lock(bytes)?;
    let time = read_time(bytes)?;
    Ok(LockRequest { lock, time })
}

#[tactic(auto, unfolding(crate::specs::Reading::lock_forward_at))]
fn read_lock_forward(bytes: &mut &[u8]) -> Result<LockForward, WireFault>
    ensures { Gives (λ m. (m, bytes.new.now)) result (lock_forward_at bytes.old.now) }
{
    let lock = read_lock(bytes)?;
    let asker = read_node(bytes)?;
    let time = read_time(bytes)?;
    Ok(LockForward { lock, asker, time })
}

#[tactic(auto, unfolding(crate::specs::Reading::lock_grant_at))]
fn read_lock_grant(
    alloc: Global,
    version: Version,
    bytes: &mut &[u8],
) -> Result<LockGrant, WireFault>
    ensures { Gives (λ m. (m, bytes.new.now)) result (lock_grant_at version bytes.old.now) }
{
    let lock = read_lock(bytes)?;
    let news = read_news(alloc, version, bytes)?;
    Ok(LockGrant { lock, news })
}

#[tactic(auto, unfolding(crate::specs::Reading::arrive_at))]
fn read_arrive(alloc: Global, version: Version, bytes: &mut &[u8]) -> Result<Arrive, WireFault>
    ensures { Gives (λ m. (m, bytes.new.now)) result (arrive_at version bytes.old.now) }
{
    let episode = read_episode(bytes)?;
    let ask = read_flag(bytes)?;
    let news = read_news(alloc, version, bytes)?;
    Ok(Arrive { episode, ask, news })
}

#[tactic(auto, unfolding(crate::specs::Reading::depart_at))]
fn read_depart(alloc: Global, version: Version, bytes: &mut &[u8]) -> Result<Depart, WireFault>
    ensures { Gives (λ m. (m, bytes.new.now)) result (depart_at version bytes.old.now) }
{
    let episode = read_episode(bytes)?;
    let collect = read_flag(bytes)?;
    let news = read_news(alloc, version, bytes)?;
    Ok(Depart {
        episode,
        collect,
        news,
    })
}

fn read_clean(bytes: &mut &[u8]) -> Result<Clean, WireFault>
    ensures { Gives (λ m. (m, bytes.new.now)) result (clean_at bytes.old.now) }
{
    let episode = read_episode(bytes)?;
    Ok(Clean { episode })
}

fn read_discard(bytes: &mut &[u8]) -> Result<Discard, WireFault>
    ensures { Gives (λ m. (m, bytes.new.now)) result (discard_at bytes.old.now) }
{
    let episode = read_episode(bytes)?;
    Ok(Discard { episode })
}

#[tactic(auto, unfolding(crate::specs::Reading::changes_request_at))]
fn read_changes_request(
    alloc: Global,
    version: Version,
    bytes: &mut &[u8],
) -> Result<ChangesRequest, WireFault>
    ensures { Gives (λ m. (m, bytes.new.now)) result (changes_request_at version bytes.old.now) }
{
    let page = read_page(version, bytes)?;
    let indices = read_indices(alloc, bytes)?;
    Ok(ChangesRequest { page, indices })
}

#[tactic(auto, unfolding(crate::specs::Reading::changes_reply_at))]
fn read_changes_reply(
    alloc: Global,
    version: Version,
    bytes: &mut &[u8],
) -> Result<ChangesReply, WireFault>
    ensures { Gives (λ m. (m, bytes.new.now)) result (changes_reply_at version bytes.old.now) }
{
    let page = read_page(version, bytes)?;
    let parts = read_parts(alloc, version, bytes)?;
    Ok(ChangesReply { page, parts })
}

fn read_page_request(version: Version, bytes: &mut &[u8]) -> Result<PageRequest, WireFault>
    ensures { Gives (λ m. (m, bytes.new.now)) result (page_request_at version bytes.old.now) }
{
    let page = read_page(version, bytes)?;
    Ok(PageRequest { page })
}

#[tactic(auto, unfolding(crate::specs::Reading::page_reply_at))]
fn read_page_reply(
    alloc: Global,
    version: Version,
    bytes: &mut &[u8],
) -> Result<PageReply, WireFault>
    ensures { Gives (λ m. (m, bytes.new.now)) result (page_reply_at version bytes.old.now) }
{
    let page = read_page(version, bytes)?;
    let copy = read_page_values(alloc, version, bytes)?;
    Ok(PageReply { page, copy })
}

/// Reads the body of a message of the given kind. Bytes may remain.
#[tactic(auto, unfolding(crate::specs::Reading::body_at, crate::specs::Reading::as_message))]
pub(super) fn read_body(
    alloc: Global,
    version: Version,
    kind: MessageKind,
    bytes: &mut &[u8],
) -> Result<Message, WireFault>
    ensures { Gives (λ message. (message, bytes.new.now)) result
        (body_at version kind bytes.old.now) }
{
    match kind {
        MessageKind::LockRequest => read_lock_request(bytes).map(Message::LockRequest),
        MessageKind::LockForward => read_lock_forward(bytes).map(Message::LockForward),
        MessageKind::LockGrant => read_lock_grant(alloc, version, bytes).map(Message::LockGrant),
        MessageKind::Arrive => read_arrive(alloc, version, bytes).map(Message::Arrive),
        MessageKind::Depart => read_depart(alloc, version, bytes).map(Message::Depart),
        MessageKind::Clean => read_clean(bytes).map(Message::Clean),
        MessageKind::Discard => read_discard(bytes).map(Message::Discard),
        MessageKind::ChangesRequest => {
            read_changes_request(alloc, version, bytes).map(Message::ChangesRequest)
        }
        MessageKind::ChangesReply => {
            read_changes_reply(alloc, version, bytes).map(Message::ChangesReply)
        }
        MessageKind::PageRequest => read_page_request(version, bytes).map(Message::PageRequest),
        MessageKind::PageReply => read_page_reply(alloc, version, bytes).map(Message::PageReply),
    }
}
