//! Writing the body of each kind of message.

ghost use Rattle.std.specs.Prelude.{◌≡◌, ◌++◌, ◌<◌, ◌≤◌, ◌^◌, length, OnOk};
ghost use Rattle.std.specs.Int.{w16, w32};
ghost use Rattle.lrc_wire.specs.declared.version.Version.TheVariants.{Two};
ghost use Rattle.lrc_wire.specs.Ranges.{IsEpisode, IsMessage};
ghost use Rattle.lrc_wire.specs.Runs.{runs_of};
ghost use Rattle.lrc_wire.specs.Spelling.{number, body};
ghost use Rattle.lrc_wire.specs.declared.limits.TheConstants.{MOST_BODY_BYTES};
ghost use Rattle.lrc_envelope.specs.declared.message.Message.TheVariants as kinds;

use super::changes::{put_indices, put_page_values, put_parts};
use super::intervals::{put_flag, put_news, put_time};
use bytes::BufMut;
use lrc_envelope::{
    Arrive, ChangesReply, ChangesRequest, Depart, LockForward, LockGrant, LockRequest, Message,
    PageReply,
};
use std::alloc::AllocError;

#[tactic(auto, unfolding(crate::specs::Spelling::byte))]
fn put_lock_request(out: &mut Vec<u8>, m: &LockRequest) -> Result<(), AllocError>
    ensures written { OnOk result (out.new.items
        ≡ out.old.items ++ body Two runs_of (kinds.LockRequest m.now)) }
    ensures fits { OnOk result (IsMessage Two (kinds.LockRequest m.now)) }
{
    out.put_u8(m.lock)?;
    put_time(out, &m.time)
}

#[tactic(auto, unfolding(crate::specs::Spelling::byte))]
fn put_lock_forward(out: &mut Vec<u8>, m: &LockForward) -> Result<(), AllocError>
    ensures written { OnOk result (out.new.items
        ≡ out.old.items ++ body Two runs_of (kinds.LockForward m.now)) }
    ensures fits { OnOk result (IsMessage Two (kinds.LockForward m.now)) }
{
    out.put_u8(m.lock)?;
    out.put_u8(m.asker)?;
    put_time(out, &m.time)
}

#[tactic(auto, unfolding(crate::specs::Spelling::byte))]
fn put_lock_grant(out: &mut Vec<u8>, m: &LockGrant) -> Result<(), AllocError>
    requires { length m.now.intervals < 2 ^ 32 }
    ensures written { OnOk result (out.new.items
        ≡ out.old.items ++ body Two runs_of (kinds.LockGrant m.now)) }
    ensures fits { OnOk result (IsMessage Two (kinds.LockGrant m.now)) }
{
    out.put_u8(m.lock)?;
    put_news(out, &m.news)
}

#[tactic(auto, unfolding(crate::specs::Spelling::number))]
fn put_arrive(out: &mut Vec<u8>, m: &Arrive) -> Result<(), AllocError>
    requires { length m.now.intervals < 2 ^ 32 }
    ensures written { OnOk result (out.new.items
        ≡ out.old.items ++ body Two runs_of (kinds.Arrive m.now)) }
    ensures fits { OnOk result (IsMessage Two (kinds.Arrive m.now)) }
{
    out.put_u32(m.episode)?;
    put_flag(out, m.ask)?;
    put_news(out, &m.news)
}

#[tactic(auto, unfolding(crate::specs::Spelling::number))]
fn put_depart(out: &mut Vec<u8>, m: &Depart) -> Result<(), AllocError>
    requires { length m.now.intervals < 2 ^ 32 }
    ensures written { OnOk result (out.new.items
        ≡ out.old.items ++ body Two runs_of (kinds.Depart m.now)) }
    ensures fits { OnOk result (IsMessage Two (kinds.Depart m.now)) }
{
    out.put_u32(m.episode)?;
    put_flag(out, m.collect)?;
    put_news(out, &m.news)
}

#[tactic(auto, unfolding(crate::specs::Spelling::number))]
fn put_changes_request(out: &mut Vec<u8>, m: &ChangesRequest) -> Result<(), AllocError>
    requires { length m.now.indices < 2 ^ 32 }
    ensures written { OnOk result (out.new.items
        ≡ out.old.items ++ body Two runs_of (kinds.ChangesRequest m.now)) }
    ensures fits { OnOk result (IsMessage Two (kinds.ChangesRequest m.now)) }
{
    out.put_u16(m.page)?;
    put_indices(out, &m.indices)
}

#[tactic(auto, unfolding(crate::specs::Spelling::number))]
fn put_changes_reply(out: &mut Vec<u8>, m: &ChangesReply) -> Result<(), AllocError>
    requires { length m.now.parts < 2 ^ 32 }
    ensures written { OnOk result (out.new.items
        ≡ out.old.items ++ body Two runs_of (kinds.ChangesReply m.now)) }
    ensures fits { OnOk result (IsMessage Two (kinds.ChangesReply m.now)) }
{
    out.put_u16(m.page)?;
    put_parts(out, &m.parts)
}

#[tactic(auto, unfolding(crate::specs::Spelling::number))]
fn put_page_reply(out: &mut Vec<u8>, m: &PageReply) -> Result<(), AllocError>
    ensures written { OnOk result (out.new.items
        ≡ out.old.items ++ body Two runs_of (kinds.PageReply m.now)) }
    ensures fits { OnOk result (IsMessage Two (kinds.PageReply m.now)) }
{
    out.put_u16(m.page)?;
    put_page_values(out, &m.copy)
}

#[tactic(auto, unfolding(crate::specs::Spelling::number))]
fn put_episode(out: &mut Vec<u8>, episode: u32) -> Result<(), AllocError>
    requires { 1 ≤ episode }
    ensures written { OnOk result (out.new.items ≡ out.old.items ++ number w32 episode) }
    ensures fits { IsEpisode episode }
{
    out.put_u32(episode)
}

#[tactic(auto, unfolding(crate::specs::Spelling::number))]
fn put_page(out: &mut Vec<u8>, page: u16) -> Result<(), AllocError>
    ensures { OnOk result (out.new.items ≡ out.old.items ++ number w16 page) }
{
    out.put_u16(page)
}

/// Appends the body of a message.
pub(super) fn put_body(out: &mut Vec<u8>, message: &Message) -> Result<(), AllocError>
    requires { length (body Two runs_of message.now) ≤ MOST_BODY_BYTES }
    ensures written { OnOk result (out.new.items ≡ out.old.items ++ body Two runs_of message.now) }
    ensures fits { OnOk result (IsMessage Two message.now) }
{
    match message {
        Message::LockRequest(m) => put_lock_request(out, m),
        Message::LockForward(m) => put_lock_forward(out, m),
        Message::LockGrant(m) => put_lock_grant(out, m),
        Message::Arrive(m) => put_arrive(out, m),
        Message::Depart(m) => put_depart(out, m),
        Message::Clean(m) => put_episode(out, m.episode),
        Message::Discard(m) => put_episode(out, m.episode),
        Message::ChangesRequest(m) => put_changes_request(out, m),
        Message::ChangesReply(m) => put_changes_reply(out, m),
        Message::PageRequest(m) => put_page(out, m.page),
        Message::PageReply(m) => put_page_reply(out, m),
    }
}
