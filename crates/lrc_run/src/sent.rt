// Whether the messages that the nodes took were sent.

ghost use Rattle.std.specs.Prelude.{◌≡◌, ◌↔◌, IfOk, IsTrue};
ghost use Rattle.lrc_protocol.specs.Run.{taken, turns_of_logs};
ghost use Rattle.lrc_wire.specs.declared.version.Version.TheVariants.{Two};
ghost use Rattle.lrc_wire.specs.Spelling.{Spells};
ghost use Rattle.lrc_weave.specs.Sent.{AreTakesSent};
ghost use Rattle.lrc_run.specs.Sources.{AreSentTo, HasSource, IsAmong, IsNextTo, IsSentIn, IsTakeSent};

use lrc_envelope::Envelope;
use lrc_log::{Entry, Input};
use lrc_wire::{EncodeFault, encode};
use std::alloc::{AllocError, Global};

/// Returns whether each message that a log takes was sent to its node by some turn of the logs.
pub(crate) fn are_takes_sent(alloc: Global, logs: &[Vec<Entry>]) -> Result<bool, AllocError>
    ensures { IfOk result (λ are. IsTrue are ↔ AreTakesSent (turns_of_logs logs.now)) }
{
    for node in 0..logs.len() {
        if !are_sent_to(alloc, logs, node, logs[node].as_slice())? {
            return Ok(false);
        }
    }
    Ok(true)
}

// Whether each message that a node's log takes was sent to the node.
fn are_sent_to(
    alloc: Global,
    logs: &[Vec<Entry>],
    node: usize,
    log: &[Entry],
) -> Result<bool, AllocError>
    ensures { IfOk result (λ are. IsTrue are
        ↔ AreSentTo (turns_of_logs logs.now) node log.now) }
{
    let mut last = 0;
    for entry in log {
        if !is_take_sent(alloc, logs, node, last, entry)? {
            return Ok(false);
        }
        last = entry.stamp;
    }
    Ok(true)
}

// Whether the message that a node took in a turn was sent to the node, if it took one. The node's turn before had this stamp.
fn is_take_sent(
    alloc: Global,
    logs: &[Vec<Entry>],
    node: usize,
    last: u64,
    entry: &Entry,
) -> Result<bool, AllocError>
    ensures { IfOk result (λ is. IsTrue is
        ↔ IsTakeSent (turns_of_logs logs.now) node last entry.now) }
{
    match &entry.input {
        Input::Run => Ok(true),
        Input::Taken(envelope) => has_source(alloc, logs, node, last, entry.stamp, envelope),
    }
}

// Whether a turn of the logs sent a message to a node, with a stamp that gives this one behind the last.
fn has_source(
    alloc: Global,
    logs: &[Vec<Entry>],
    node: usize,
    last: u64,
    stamp: u64,
    envelope: &Envelope,
) -> Result<bool, AllocError>
    ensures { IfOk result (λ is. IsTrue is
        ↔ HasSource (turns_of_logs logs.now) node last stamp envelope.now) }
{
    if usize::from(envelope.to) != node {
        return Ok(false);
    }
    // What was taken was put, and so it is not too long. Were it, that would be answered as want of memory.
    let Ok(bytes) = encode(alloc, envelope) else {
        return Err(AllocError);
    };
    for log in logs {
        if is_sent_in(alloc, log.as_slice(), last, stamp, envelope, &bytes)? {
            return Ok(true);
        }
    }
    Ok(false)
}

// Whether a turn of a log sent a message, with a stamp that gives this one behind the last.
fn is_sent_in(
    alloc: Global,
    log: &[Entry],
    last: u64,
    stamp: u64,
    envelope: &Envelope,
    bytes: &[u8],
) -> Result<bool, AllocError>
    requires { Spells Two envelope.now bytes.now }
    ensures { IfOk result (λ is. IsTrue is ↔ IsSentIn log.now last stamp envelope.now) }
{
    for turn in log {
        if is_next_to(last, turn.stamp, stamp)
            && is_among(alloc, turn.turn.out.as_slice(), envelope, bytes)?
        {
            return Ok(true);
        }
    }
    Ok(false)
}

// Whether a stamp is the next one behind the last and the one that came.
fn is_next_to(last: u64, came: u64, stamp: u64) -> bool
    ensures { IsTrue result ↔ IsNextTo last came stamp }
{
    let greater = if last < came { came } else { last };
    greater < stamp && stamp - 1 == greater
}

// Whether a message is among some.
fn is_among(
    alloc: Global,
    out: &[Envelope],
    envelope: &Envelope,
    bytes: &[u8],
) -> Result<bool, AllocError>
    requires { Spells Two envelope.now bytes.now }
    ensures { IfOk result (λ is. IsTrue is ↔ IsAmong out.now envelope.now) }
{
    for sent in out {
        if is_same(alloc, sent, envelope, bytes)? {
            return Ok(true);
        }
    }
    Ok(false)
}

// Whether a message is the one that these bytes spell. One of another number is not written.
fn is_same(
    alloc: Global,
    sent: &Envelope,
    envelope: &Envelope,
    bytes: &[u8],
) -> Result<bool, AllocError>
    requires { Spells Two envelope.now bytes.now }
    ensures { IfOk result (λ is. IsTrue is ↔ (sent.now ≡ envelope.now)) }
{
    if sent.number != envelope.number {
        return Ok(false);
    }
    match encode(alloc, sent) {
        Ok(written) => Ok(*written == *bytes),
        Err(EncodeFault::TooLong) => Ok(false),
        Err(EncodeFault::NoMemory) => Err(AllocError),
    }
}
