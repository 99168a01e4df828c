// Messages in words.

ghost use Rattle.std.specs.Prelude.{◌≡◌, ◌++◌, OnErr, OnOk};
ghost use Rattle.lrc_text.specs.Front.{BeginsWith};
ghost use Rattle.lrc_messages.specs.MessageText.{arrive_text, changes_reply_text, changes_request_text, depart_text, named};
ghost use Rattle.lrc_messages.specs.MessageText.{lock_forward_text, lock_grant_text, lock_request_text, message_text, page_reply_text};

use crate::changes::{push_parts, push_words};
use crate::kind::kind_name;
use crate::lists::push_indices;
use crate::news::{push_collect, push_news, push_time};
use lrc_envelope::{
    Arrive, ChangesReply, ChangesRequest, Depart, LockForward, LockGrant, LockRequest, Message,
    PageReply,
};
use lrc_text::push_number;
use lrc_wire::MessageKind;
use std::alloc::{AllocError, Global};

// Adds a kind, and a number behind a word.
fn push_named(
    text: &mut Vec<u8>,
    kind: MessageKind,
    word: &[u8],
    number: u64,
) -> Result<(), AllocError>
    ensures ok { OnOk result (text.new.items ≡ text.old.items ++ named kind word.now number) }
    ensures err { OnErr result (BeginsWith text.new.items text.old.items) }
{
    text.extend_from_slice(kind_name(kind))?;
    push_number(text, word, number)
}

fn push_lock_request(text: &mut Vec<u8>, m: &LockRequest) -> Result<(), AllocError>
    ensures ok { OnOk result (text.new.items ≡ text.old.items ++ lock_request_text m.now) }
    ensures err { OnErr result (BeginsWith text.new.items text.old.items) }
{
    push_named(text, MessageKind::LockRequest, b" ", u64::from(m.lock))?;
    push_time(text, &m.time)
}

fn push_lock_forward(text: &mut Vec<u8>, m: &LockForward) -> Result<(), AllocError>
    ensures ok { OnOk result (text.new.items ≡ text.old.items ++ lock_forward_text m.now) }
    ensures err { OnErr result (BeginsWith text.new.items text.old.items) }
{
    push_named(text, MessageKind::LockForward, b" ", u64::from(m.lock))?;
    push_number(text, b" for ", u64::from(m.asker))?;
    push_time(text, &m.time)
}

fn push_lock_grant(text: &mut Vec<u8>, m: &LockGrant) -> Result<(), AllocError>
    ensures ok { OnOk result (text.new.items ≡ text.old.items ++ lock_grant_text m.now) }
    ensures err { OnErr result (BeginsWith text.new.items text.old.items) }
{
    push_named(text, MessageKind::LockGrant, b" ", u64::from(m.lock))?;
    push_news(text, &m.news)
}

fn push_arrive(text: &mut Vec<u8>, m: &Arrive) -> Result<(), AllocError>
    ensures ok { OnOk result (text.new.items ≡ text.old.items ++ arrive_text m.now) }
    ensures err { OnErr result (BeginsWith text.new.items text.old.items) }
{
    push_named(text, MessageKind::Arrive, b" ", u64::from(m.episode))?;
    push_news(text, &m.news)?;
    push_collect(text, m.ask)
}

fn push_depart(text: &mut Vec<u8>, m: &Depart) -> Result<(), AllocError>
    ensures ok { OnOk result (text.new.items ≡ text.old.items ++ depart_text m.now) }
    ensures err { OnErr result (BeginsWith text.new.items text.old.items) }
{
    push_named(text, MessageKind::Depart, b" ", u64::from(m.episode))?;
    push_news(text, &m.news)?;
    push_collect(text, m.collect)
}

fn push_changes_request(text: &mut Vec<u8>, m: &ChangesRequest) -> Result<(), AllocError>
    ensures ok { OnOk result (text.new.items ≡ text.old.items ++ changes_request_text m.now) }
    ensures err { OnErr result (BeginsWith text.new.items text.old.items) }
{
    push_named(
        text,
        MessageKind::ChangesRequest,
        b" page ",
        u64::from(m.page),
    )?;
    text.extend_from_slice(b" intervals ")?;
    push_indices(text, &m.indices)
}

fn push_changes_reply(text: &mut Vec<u8>, m: &ChangesReply) -> Result<(), AllocError>
    ensures ok { OnOk result (text.new.items ≡ text.old.items ++ changes_reply_text m.now) }
    ensures err { OnErr result (BeginsWith text.new.items text.old.items) }
{
    push_named(
        text,
        MessageKind::ChangesReply,
        b" page ",
        u64::from(m.page),
    )?;
    text.extend_from_slice(b" changes ")?;
    push_parts(text, &m.parts)
}

fn push_page_reply(alloc: Global, text: &mut Vec<u8>, m: &PageReply) -> Result<(), AllocError>
    ensures ok { OnOk result (text.new.items ≡ text.old.items ++ page_reply_text m.now) }
    ensures err { OnErr result (BeginsWith text.new.items text.old.items) }
{
    push_named(text, MessageKind::PageReply, b" page ", u64::from(m.page))?;
    text.extend_from_slice(b" words ")?;
    push_words(alloc, text, &m.copy)
}

/// Adds a message in words: its kind, and what it says. On error `text` still begins with its old bytes.
pub fn push_message(alloc: Global, text: &mut Vec<u8>, message: &Message) -> Result<(), AllocError>
    ensures ok { OnOk result (text.new.items ≡ text.old.items ++ message_text message.now) }
    ensures err { OnErr result (BeginsWith text.new.items text.old.items) }
{
    match message {
        Message::LockRequest(m) => push_lock_request(text, m),
        Message::LockForward(m) => push_lock_forward(text, m),
        Message::LockGrant(m) => push_lock_grant(text, m),
        Message::Arrive(m) => push_arrive(text, m),
        Message::Depart(m) => push_depart(text, m),
        Message::Clean(m) => push_named(text, MessageKind::Clean, b" ", u64::from(m.episode)),
        Message::Discard(m) => push_named(text, MessageKind::Discard, b" ", u64::from(m.episode)),
        Message::ChangesRequest(m) => push_changes_request(text, m),
        Message::ChangesReply(m) => push_changes_reply(text, m),
        Message::PageRequest(m) => push_named(
            text,
            MessageKind::PageRequest,
            b" page ",
            u64::from(m.page),
        ),
        Message::PageReply(m) => push_page_reply(alloc, text, m),
    }
}
