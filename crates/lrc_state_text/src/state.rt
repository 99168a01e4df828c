// A node's state as an object.

ghost use Rattle.std.specs.Prelude.{◌≡◌, ◌++◌, IfOk, OnOk, length, map};
ghost use Rattle.lrc_state_text.specs.Intervals.{stored_in};
ghost use Rattle.lrc_state_text.specs.Place.{named_seen};
ghost use Rattle.lrc_state_text.specs.State.{collected_member, control_members, course_members, mail_members, memory_with, state_text, state_with, taken_counts};
ghost use Rattle.lrc_state_text.specs.Waits.{clock_members, wait_members, waits_member};

use crate::copies::push_pages;
use crate::intervals::push_intervals;
use crate::json::{push_numbers, push_time};
use crate::known::Known;
use crate::locks::push_locks;
use crate::manager::push_barrier;
use crate::needs::push_needs_member;
use crate::place::{Place, push_place};
use crate::stored::StoredInterval;
use crate::waits::push_wait;
use lrc_mail::Mail;
use lrc_node::NodeState;
use lrc_text::push_number;
use lrc_time::Time;
use std::alloc::{AllocError, Global};

// Adds the node's time, and the number of its open interval.
fn push_clock(text: &mut Vec<u8>, state: &NodeState<'_>) -> Result<(), AllocError>
    ensures { OnOk result (text.new.items ≡ text.old.items ++ clock_members state.now) }
{
    let clock = state.clock();
    text.extend_from_slice(b"\"time\":")?;
    push_time(text, clock.time())?;
    push_number(
        text,
        b",\"open\":",
        u64::from(clock.time().at(state.me())) + 1,
    )
}

#[tactic(auto, unfolding(crate::specs::Waits::waits_member))]
// Adds what the node waits for.
fn push_wait_member(text: &mut Vec<u8>, state: &NodeState<'_>) -> Result<(), AllocError>
    ensures { OnOk result (text.new.items ≡ text.old.items ++ waits_member state.now) }
{
    let course = state.text();
    let episode = state.barrier().episode();
    let wait = state.mail().wait();
    text.extend_from_slice(b",\"waits\":\"")?;
    push_wait(text, course.end(), course.is_ready(), episode, wait)
}

// Adds what the node waits for, and what is needed then.
fn push_waits(text: &mut Vec<u8>, state: &NodeState<'_>) -> Result<(), AllocError>
    ensures { OnOk result (text.new.items ≡ text.old.items ++ wait_members state.now) }
{
    push_wait_member(text, state)?;
    push_needs_member(text, state.mail().wait().needs())
}

// Adds how far the node has come.
fn push_course(
    text: &mut Vec<u8>,
    state: &NodeState<'_>,
    place: &Place<'_>,
) -> Result<(), AllocError>
    ensures { OnOk result (text.new.items
        ≡ text.old.items ++ course_members state.now place.now.at
        (map named_seen place.now.names.now)) }
{
    push_clock(text, state)?;
    push_waits(text, state)?;
    push_place(text, place.at, place.names)
}

// Adds what the node has of locks and barriers.
fn push_control(text: &mut Vec<u8>, state: &NodeState<'_>) -> Result<(), AllocError>
    ensures { OnOk result (text.new.items ≡ text.old.items ++ control_members state.now) }
{
    // For the proof: the node is one of its nodes.
    let _here = state.me();
    push_locks(text, state.clock(), state.locks())?;
    push_barrier(text, state.barrier(), state.nodes())
}

// Adds the time of the last collection.
fn push_collected(text: &mut Vec<u8>, time: &Time) -> Result<(), AllocError>
    ensures { OnOk result (text.new.items ≡ text.old.items ++ collected_member time.now) }
{
    text.extend_from_slice(b",\"collected\":")?;
    push_time(text, time)
}

// Adds what the node knows of the shared memory, of the intervals these.
fn push_memory(
    text: &mut Vec<u8>,
    state: &NodeState<'_>,
    stored: &[StoredInterval],
) -> Result<(), AllocError>
    ensures { OnOk result (text.new.items ≡ text.old.items ++ memory_with state.now stored.now) }
{
    let memory = state.memory();
    push_pages(text, memory, state.pages())?;
    push_intervals(text, memory.size(), stored)?;
    push_collected(text, memory.collected())
}

// How many messages were sent to each of so many nodes.
fn sent_counts(alloc: Global, mail: &Mail, nodes: u8) -> Result<Vec<u64>, AllocError>
    requires { nodes ≡ length mail.now.sent }
    ensures { IfOk result (λ counts. counts.items ≡ mail.now.sent) }
{
    let mut counts = Vec::new(alloc);
    for to in 0..nodes {
        counts.push(mail.sent(to))?;
    }
    Ok(counts)
}

// How many messages were taken from each of so many nodes.
fn taken_counts(alloc: Global, mail: &Mail, nodes: u8) -> Result<Vec<u64>, AllocError>
    requires { nodes ≡ length mail.now.taken }
    ensures { IfOk result (λ counts. counts.items ≡ taken_counts mail.now) }
{
    let mut counts = Vec::new(alloc);
    for from in 0..nodes {
        counts.push(mail.taken(from))?;
    }
    Ok(counts)
}

// Adds how many messages the node has sent and taken.
fn push_mail(text: &mut Vec<u8>, mail: &Mail, nodes: u8) -> Result<(), AllocError>
    requires sent { nodes ≡ length mail.now.sent }
    requires taken { nodes ≡ length mail.now.taken }
    ensures { OnOk result (text.new.items ≡ text.old.items ++ mail_members mail.now) }
{
    let sent = sent_counts(*text.allocator(), mail, nodes)?;
    let taken = taken_counts(*text.allocator(), mail, nodes)?;
    text.extend_from_slice(b",\"sent\":")?;
    push_numbers(text, &sent)?;
    text.extend_from_slice(b",\"taken\":")?;
    push_numbers(text, &taken)
}

// Adds a node's state as an object, of its intervals these.
fn push_members(
    text: &mut Vec<u8>,
    state: &NodeState<'_>,
    place: &Place<'_>,
    stored: &[StoredInterval],
) -> Result<(), AllocError>
    ensures { OnOk result (text.new.items
        ≡ text.old.items ++ state_with state.now place.now.at
        (map named_seen place.now.names.now) stored.now) }
{
    text.extend_from_slice(b"{")?;
    push_course(text, state, place)?;
    push_control(text, state)?;
    push_memory(text, state, stored)?;
    push_mail(text, state.mail(), state.nodes())?;
    text.extend_from_slice(b"}")
}

/// Adds a node's state as an object. `place` gives what the state does not have: the line of the next statement, and
/// the private names whose value is not 0. Of the intervals that the node stores, it shows those that are not in
/// `known` or have other changes there.
pub fn push_state(
    text: &mut Vec<u8>,
    state: &NodeState<'_>,
    place: &Place<'_>,
    known: &Known,
) -> Result<(), AllocError>
    ensures { OnOk result (text.new.items
        ≡ text.old.items ++ state_text state.now place.now.at
        (map named_seen place.now.names.now) known.now) }
{
    let stored = known.new_in(*text.allocator(), state)?;
    push_members(text, state, place, &stored)
}

/// Adds a node's state as `push_state` does. From then on all intervals that the node stores are in `known`. The node's
/// next state costs less so than with a `Known` made anew.
pub fn push_next_state(
    text: &mut Vec<u8>,
    state: &NodeState<'_>,
    place: &Place<'_>,
    known: &mut Known,
) -> Result<(), AllocError>
    ensures text { OnOk result (text.new.items
        ≡ text.old.items ++ state_text state.now place.now.at
        (map named_seen place.now.names.now) known.old) }
    ensures known { OnOk result (known.new ≡ stored_in state.now.memory) }
{
    let stored = known.renew(*text.allocator(), state)?;
    push_members(text, state, place, &stored)
}
