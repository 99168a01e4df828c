// What lines have more that tell also in members: events, deeds, messages and waits as objects of their parts.

ghost use Rattle.std.specs.Prelude.{◌≡◌, ◌++◌, IfOk, OnOk, codes};
ghost use Rattle.lrc_messages.specs.Lists.{before};
ghost use Rattle.lrc_need.specs.Wait.{seen_wait};
ghost use Rattle.lrc_states.specs.Members.{access_members, deed_members, deed_object, did_members, doing_members, done_or_null, envelope_parts, event_object, going_kind};
ghost use Rattle.lrc_states.specs.Members.{kind_object, mail_members, number_of, numbered_object, parts_list, parts_object, parts_of, parts_or_null, standing_object};
ghost use Rattle.lrc_states.specs.Members.{stands_member, value_member, wait_object, wait_of};

use crate::push_comma;
use crate::told::Telling;
use lrc_envelope::{Envelope, Message};
use lrc_log::Turn;
use lrc_messages::kind_name;
use lrc_need::Wait;
use lrc_node::NodeState;
use lrc_protocol::Event;
use lrc_text::{deed_name, push_number};
use lrc_trace::act::{Act, Deed};
use lrc_trace::end::End;
use lrc_wire::MessageKind;
use std::alloc::{AllocError, Global};

/// The kind of a message, and the number of its lock, its barrier or its page.
#[derive(Clone, Copy)]
pub(crate) struct MessageParts {
    kind: MessageKind,
    number: u32,
}

// The number of a message's lock, barrier or page.
fn number_of(message: &Message) -> u32
    ensures { result ≡ number_of message.now }
{
    match message {
        Message::LockRequest(m) => u32::from(m.lock),
        Message::LockForward(m) => u32::from(m.lock),
        Message::LockGrant(m) => u32::from(m.lock),
        Message::Arrive(m) => m.episode,
        Message::Depart(m) => m.episode,
        Message::Clean(m) => m.episode,
        Message::Discard(m) => m.episode,
        Message::ChangesRequest(m) => u32::from(m.page),
        Message::ChangesReply(m) => u32::from(m.page),
        Message::PageRequest(m) => u32::from(m.page),
        Message::PageReply(m) => u32::from(m.page),
    }
}

/// Returns the parts of a message.
#[tactic(auto, unfolding(crate::specs::Members::parts_of))]
pub(crate) fn parts_of(message: &Message) -> MessageParts
    ensures { result ≡ parts_of message.now }
{
    MessageParts {
        kind: MessageKind::of(message),
        number: number_of(message),
    }
}

// Adds something of a kind.
#[tactic(auto, unfolding(crate::specs::Members::kind_object))]
fn push_kind(text: &mut Vec<u8>, kind: &[u8]) -> Result<(), AllocError>
    ensures { OnOk result (text.new.items ≡ text.old.items ++ kind_object kind.now) }
{
    text.extend_from_slice(b"{\"kind\":\"")?;
    text.extend_from_slice(kind)?;
    text.extend_from_slice(b"\"}")
}

// Adds something of a kind, with a number.
#[tactic(auto, unfolding(crate::specs::Members::numbered_object))]
fn push_numbered(text: &mut Vec<u8>, kind: &[u8], number: u64) -> Result<(), AllocError>
    ensures { OnOk result (text.new.items ≡ text.old.items ++ numbered_object kind.now number) }
{
    text.extend_from_slice(b"{\"kind\":\"")?;
    text.extend_from_slice(kind)?;
    push_number(text, b"\",\"of\":", number)?;
    text.extend_from_slice(b"}")
}

// Adds an event.
#[tactic(auto, unfolding(crate::specs::Members::event_object))]
fn push_event(text: &mut Vec<u8>, event: Event) -> Result<(), AllocError>
    ensures { OnOk result (text.new.items ≡ text.old.items ++ event_object event) }
{
    match event {
        Event::Run(node) => push_numbered(text, b"run", u64::from(node)),
        Event::Deliver(place) => push_numbered(text, b"deliver", u64::from(place)),
        Event::Repeat(place) => push_numbered(text, b"repeat", u64::from(place)),
    }
}

// Adds a value, as a text.
fn push_value(text: &mut Vec<u8>, value: u64) -> Result<(), AllocError>
    ensures { OnOk result (text.new.items ≡ text.old.items ++ value_member value) }
{
    push_number(text, b",\"value\":\"", value)?;
    text.extend_from_slice(b"\"")
}

// Adds the word that is accessed, and its value.
fn push_access(text: &mut Vec<u8>, word: u32, value: u64) -> Result<(), AllocError>
    ensures { OnOk result (text.new.items ≡ text.old.items ++ access_members word value) }
{
    push_number(text, b",\"word\":", u64::from(word))?;
    push_value(text, value)
}

// Adds what a deed has besides its kind.
#[tactic(auto, unfolding(crate::specs::Members::deed_members))]
fn push_deed_members(text: &mut Vec<u8>, deed: Deed) -> Result<(), AllocError>
    ensures { OnOk result (text.new.items ≡ text.old.items ++ deed_members deed) }
{
    match deed {
        Deed::Print(value) => push_value(text, value),
        Deed::Read(word, value) | Deed::Write(word, value) => push_access(text, word, value),
        Deed::Acquire(lock) | Deed::Release(lock) => {
            push_number(text, b",\"lock\":", u64::from(lock))
        }
        Deed::Trap(cause) => push_number(text, b",\"cause\":", u64::from(cause as u8)),
        Deed::Quiet | Deed::Arrive | Deed::Depart | Deed::End => Ok(()),
    }
}

// Adds a deed.
#[tactic(auto, unfolding(crate::specs::Members::deed_object))]
fn push_deed(text: &mut Vec<u8>, deed: Deed) -> Result<(), AllocError>
    ensures { OnOk result (text.new.items ≡ text.old.items ++ deed_object deed) }
{
    text.extend_from_slice(b"{\"kind\":\"")?;
    text.extend_from_slice(deed_name(deed))?;
    text.extend_from_slice(b"\"")?;
    push_deed_members(text, deed)?;
    text.extend_from_slice(b"}")
}

// Adds what an act does, or `null` if there is none.
#[tactic(auto, unfolding(crate::specs::Members::done_or_null))]
fn push_done(text: &mut Vec<u8>, act: Option<Act>) -> Result<(), AllocError>
    ensures { OnOk result (text.new.items ≡ text.old.items ++ done_or_null act) }
{
    match act {
        Some(act) => push_deed(text, act.deed),
        None => text.extend_from_slice(b"null"),
    }
}

// Adds the parts of a message.
#[tactic(auto, unfolding(crate::specs::Members::parts_object))]
fn push_parts(text: &mut Vec<u8>, parts: MessageParts) -> Result<(), AllocError>
    ensures { OnOk result (text.new.items ≡ text.old.items ++ parts_object parts) }
{
    push_numbered(text, kind_name(parts.kind), u64::from(parts.number))
}

// Adds the parts of the message that is taken, or `null` if none is.
#[tactic(auto, unfolding(crate::specs::Members::parts_or_null))]
fn push_taken(text: &mut Vec<u8>, taken: Option<MessageParts>) -> Result<(), AllocError>
    ensures { OnOk result (text.new.items ≡ text.old.items ++ parts_or_null taken) }
{
    match taken {
        Some(parts) => push_parts(text, parts),
        None => text.extend_from_slice(b"null"),
    }
}

/// Adds the parts of a message at this place of a list.
pub(crate) fn push_listed_parts(
    text: &mut Vec<u8>,
    place: usize,
    envelope: &Envelope,
) -> Result<(), AllocError>
    ensures { OnOk result (text.new.items
        ≡ text.old.items ++ before place (codes ",") ++ envelope_parts envelope.now) }
{
    push_comma(text, place)?;
    push_parts(text, parts_of(&envelope.message))
}

// Adds the parts of messages, separated by commas.
fn push_sent(text: &mut Vec<u8>, envelopes: &[Envelope]) -> Result<(), AllocError>
    ensures { OnOk result (text.new.items ≡ text.old.items ++ parts_list envelopes.now) }
{
    for (place, envelope) in envelopes.iter().enumerate() {
        push_listed_parts(text, place, envelope)?;
    }
    Ok(())
}

#[tactic(auto, unfolding(crate::specs::Members::going_kind))]
fn going_kind(may_begin: bool) -> &'static [u8]
    ensures { result.now ≡ going_kind may_begin }
{
    if may_begin { b"no" } else { b"steps used up" }
}

// Adds how a node stands that awaits nothing.
#[tactic(auto, unfolding(crate::specs::Members::standing_object))]
fn push_standing(text: &mut Vec<u8>, end: End, may_begin: bool) -> Result<(), AllocError>
    ensures { OnOk result (text.new.items ≡ text.old.items ++ standing_object end may_begin) }
{
    match end {
        End::Unfinished => push_kind(text, going_kind(may_begin)),
        End::Trapped(cause) => push_numbered(text, b"trapped", u64::from(cause as u8)),
        End::Ended => push_kind(text, b"ended"),
    }
}

// Adds what a node waits for. If it waits for nothing, it adds how its text ended so far (`end`), or else whether the
// node may begin its next statement. `episode` is how often the node has arrived at a barrier.
#[tactic(auto, unfolding(crate::specs::Members::wait_object))]
fn push_wait(
    text: &mut Vec<u8>,
    end: End,
    may_begin: bool,
    episode: u32,
    wait: &Wait,
) -> Result<(), AllocError>
    ensures { OnOk result (text.new.items
        ≡ text.old.items ++ wait_object end may_begin episode (seen_wait wait.now)) }
{
    match wait {
        Wait::Nothing => push_standing(text, end, may_begin),
        Wait::Grant(lock) => push_numbered(text, b"grant", u64::from(*lock)),
        Wait::Departure => push_numbered(text, b"depart", u64::from(episode)),
        Wait::Access(need) => push_numbered(text, b"page", u64::from(need.page())),
        Wait::Upkeep(_, _) => push_numbered(text, b"upkeep", u64::from(episode)),
        Wait::Discard(_) => push_numbered(text, b"discard", u64::from(episode)),
    }
}

/// Adds what the node of this state waits for.
#[tactic(auto, unfolding(crate::specs::Members::wait_of))]
pub(crate) fn push_wait_of(text: &mut Vec<u8>, state: &NodeState<'_>) -> Result<(), AllocError>
    ensures { OnOk result (text.new.items ≡ text.old.items ++ wait_of state.now) }
{
    let course = state.text();
    let episode = state.barrier().episode();
    let wait = state.mail().wait();
    push_wait(text, course.end(), course.is_ready(), episode, wait)
}

// Adds the event of a turn, and what its act does.
fn push_doing(text: &mut Vec<u8>, event: Event, act: Option<Act>) -> Result<(), AllocError>
    ensures { OnOk result (text.new.items ≡ text.old.items ++ doing_members event act) }
{
    text.extend_from_slice(b",\"by\":")?;
    push_event(text, event)?;
    text.extend_from_slice(b",\"done\":")?;
    push_done(text, act)
}

// Adds the message that a turn takes, and those that it sends.
fn push_mail(
    text: &mut Vec<u8>,
    taken: Option<MessageParts>,
    out: &[Envelope],
) -> Result<(), AllocError>
    ensures { OnOk result (text.new.items ≡ text.old.items ++ mail_members taken out.now) }
{
    text.extend_from_slice(b",\"took\":")?;
    push_taken(text, taken)?;
    text.extend_from_slice(b",\"sent\":[")?;
    push_sent(text, out)?;
    text.extend_from_slice(b"]")
}

// Adds both.
fn push_did(
    text: &mut Vec<u8>,
    event: Event,
    taken: Option<MessageParts>,
    turn: &Turn,
) -> Result<(), AllocError>
    ensures { OnOk result (text.new.items ≡ text.old.items
        ++ (doing_members event turn.now.act ++ mail_members taken turn.now.out)) }
{
    push_doing(text, event, turn.act)?;
    push_mail(text, taken, &turn.out)
}

/// Returns the members about what a turn does that are not told in words.
#[tactic(auto, unfolding(crate::specs::Members::did_members))]
pub(crate) fn did_members(
    alloc: Global,
    telling: Telling,
    event: Event,
    taken: Option<MessageParts>,
    turn: &Turn,
) -> Result<Vec<u8>, AllocError>
    ensures { IfOk result (λ members. members.items ≡ did_members telling event taken turn.now) }
{
    let mut members = Vec::new(alloc);
    match telling {
        Telling::InWords => Ok(members),
        Telling::AlsoInMembers => {
            push_did(&mut members, event, taken, turn)?;
            Ok(members)
        }
    }
}

/// Adds the member about what the node of this state waits for, which is not told in words.
#[tactic(auto, unfolding(crate::specs::Members::stands_member))]
pub(crate) fn push_stands(
    text: &mut Vec<u8>,
    telling: Telling,
    state: &NodeState<'_>,
) -> Result<(), AllocError>
    ensures { OnOk result (text.new.items ≡ text.old.items ++ stands_member telling state.now) }
{
    match telling {
        Telling::InWords => Ok(()),
        Telling::AlsoInMembers => {
            text.extend_from_slice(b",\"stands\":")?;
            push_wait_of(text, state)
        }
    }
}
