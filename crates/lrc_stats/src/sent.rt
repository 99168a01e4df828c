// Messages that were sent, and their bytes.

ghost use Rattle.std.specs.Prelude.{◌≡◌, ◌++◌, IfOk, OnOk, map};
ghost use Rattle.std.specs.List.{flat_map};
ghost use Rattle.lrc_protocol.specs.Run.{turns_of_logs};
ghost use Rattle.lrc_stats.specs.Sent.{bytes_in, is_wanted, sent_by_turn, sent_messages, sent_of, size_of, wanted_count};

use crate::turns::add;
use lrc_envelope::Envelope;
use lrc_log::Entry;
use lrc_wire::{EncodeFault, MessageKind, encode};
use std::alloc::{AllocError, Global};

/// What is counted of a message.
#[derive(Clone, Copy)]
pub(crate) struct Sent {
    pub kind: MessageKind,
    /// Whether its sender is its receiver.
    pub to_itself: bool,
    pub bytes: u64,
}

/// Which messages are counted.
#[derive(Clone, Copy)]
pub(crate) enum Wanted {
    /// Those of a kind.
    Kind(MessageKind),
    /// All messages.
    Each,
    /// Those whose sender is their receiver.
    ToItself,
}

/// The number of messages that were sent, and their bytes.
#[derive(Clone, Copy)]
pub(crate) struct Total {
    pub count: u64,
    pub bytes: u64,
}

// How many bytes are sent for an envelope: none where it is longer than may be sent.
#[tactic(auto, using(crate::proofs::Sizes::written_size))]
fn size_of(alloc: Global, envelope: &Envelope) -> Result<u64, AllocError>
    ensures { IfOk result (λ size. size ≡ size_of envelope.now) }
{
    match encode(alloc, envelope) {
        Ok(bytes) => Ok(bytes.len() as u64),
        Err(EncodeFault::TooLong) => Ok(0),
        Err(EncodeFault::NoMemory) => Err(AllocError),
    }
}

fn sent_of(alloc: Global, envelope: &Envelope) -> Result<Sent, AllocError>
    ensures { IfOk result (λ sent. sent ≡ sent_of envelope.now) }
{
    let bytes = size_of(alloc, envelope)?;
    Ok(Sent {
        kind: MessageKind::of(&envelope.message),
        to_itself: envelope.from == envelope.to,
        bytes,
    })
}

/// Returns all messages that the nodes sent.
#[tactic(auto, using(crate::proofs::Logs::flat_more))]
pub(crate) fn sent_messages(alloc: Global, logs: &[Vec<Entry>]) -> Result<Vec<Sent>, AllocError>
    ensures { IfOk result (λ sent. sent.items ≡ sent_messages (turns_of_logs logs.now)) }
{
    let mut sent = Vec::new(alloc);
    for log in logs {
        add_log(alloc, &mut sent, log)?;
    }
    Ok(sent)
}

fn add_log(alloc: Global, sent: &mut Vec<Sent>, log: &[Entry]) -> Result<(), AllocError>
    ensures { OnOk result (sent.new.items ≡ sent.old.items ++ flat_map sent_by_turn log.now) }
{
    for entry in log {
        add_messages(alloc, sent, &entry.turn.out)?;
    }
    Ok(())
}

fn add_messages(alloc: Global, sent: &mut Vec<Sent>, out: &[Envelope]) -> Result<(), AllocError>
    ensures { OnOk result (sent.new.items ≡ sent.old.items ++ map sent_of out.now) }
{
    for envelope in out {
        sent.push(sent_of(alloc, envelope)?)?;
    }
    Ok(())
}

fn is_wanted(wanted: Wanted, sent: Sent) -> bool
    ensures { result ≡ is_wanted wanted sent }
{
    match wanted {
        Wanted::Kind(kind) => sent.kind == kind,
        Wanted::Each => true,
        Wanted::ToItself => sent.to_itself,
    }
}

/// Counts the messages that are wanted, and their bytes.
pub(crate) fn total_of(wanted: Wanted, sent: &[Sent]) -> Result<Total, AllocError>
    ensures count { IfOk result (λ total. total.count ≡ wanted_count wanted sent.now) }
    ensures bytes { IfOk result (λ total. total.bytes ≡ bytes_in wanted sent.now) }
{
    let count = sent.iter().filter(|one| is_wanted(wanted, **one)).count() as u64;
    let mut bytes = 0;
    for one in sent {
        if is_wanted(wanted, *one) {
            bytes = add(bytes, one.bytes)?;
        }
    }
    Ok(Total { count, bytes })
}
