// What a node does to its own mailbox, turn by turn.

ghost use Rattle.std.specs.Prelude.{◌≡◌, ◌++◌, ◌∷◌, ◌↔◌, [], IsTrue, length, position};
ghost use Rattle.lrc_protocol.specs.Run.{turns_of_logs};
ghost use Rattle.lrc_log.specs.Input.{seen_input};
ghost use Rattle.lrc_weave.specs.Compared.{AreAllOwn, AreOwn, AreOwnNext, IsNextOwn};
ghost use Rattle.lrc_weave.specs.Matched.{is_own, is_put, own_in, own_puts, own_takes};

use lrc_envelope::Envelope;
use lrc_log::{Entry, Input};
use lrc_post::{Mailbox, Wire};

/// Returns whether each mailbox holds the owner's takes and its puts to itself in the order in which its turns made
/// them. There is one mailbox for each node.
pub(crate) fn are_all_own(logs: &[Vec<Entry>], wires: &[Mailbox]) -> bool
    requires each { length wires.now ≡ length logs.now }
    ensures { IsTrue result ↔ AreAllOwn (turns_of_logs logs.now) wires.now }
{
    for node in 0..logs.len() {
        if !are_own(node, logs[node].as_slice(), wires[node].history()) {
            return false;
        }
    }
    true
}

// Whether the takes of a mailbox's history and the owner's puts stand there as the owner's turns made them: of each turn first the
// take of its message, then the puts of what it sends to the owner.
fn are_own(owner: usize, log: &[Entry], history: &[Wire]) -> bool
    ensures { IsTrue result ↔ AreOwn owner log.now history.now }
{
    let mut rest = history;
    for entry in log {
        if !is_turn_next(owner, &entry.input, entry.turn.out.as_slice(), &mut rest) {
            return false;
        }
    }
    next_own(owner, &mut rest).is_none()
}

// Whether the owner's next entries are those of a turn with this input, which sends these messages. What stands behind them is left.
fn is_turn_next(owner: usize, input: &Input, out: &[Envelope], rest: &mut &[Wire]) -> bool
    ensures { AreOwnNext (own_takes (seen_input input.now) ++ own_puts owner out.now)
        (own_in owner rest.old.now)
        (own_in owner rest.new.now) result }
{
    if !is_input_next(owner, input, rest) {
        return false;
    }
    are_puts_next(owner, out, rest)
}

// Whether the owner's next entry is a take, if the input is a message. What stands behind it is left.
fn is_input_next(owner: usize, input: &Input, rest: &mut &[Wire]) -> bool
    ensures { AreOwnNext (own_takes (seen_input input.now)) (own_in owner rest.old.now)
        (own_in owner rest.new.now) result }
{
    match input {
        Input::Run => true,
        Input::Taken(_) => is_next(owner, false, rest),
    }
}

// Whether the owner's next entries are puts, one for each of these messages that is for the owner. What stands behind them is left.
fn are_puts_next(owner: usize, out: &[Envelope], rest: &mut &[Wire]) -> bool
    ensures { AreOwnNext (own_puts owner out.now) (own_in owner rest.old.now)
        (own_in owner rest.new.now) result }
{
    for envelope in out {
        if !is_put_next(owner, envelope, rest) {
            return false;
        }
    }
    true
}

// Whether the owner's next entry is a put, if a message is for the owner. What stands behind it is left.
fn is_put_next(owner: usize, envelope: &Envelope, rest: &mut &[Wire]) -> bool
    ensures { AreOwnNext (own_puts owner (envelope.now ∷ [])) (own_in owner rest.old.now)
        (own_in owner rest.new.now) result }
{
    if usize::from(envelope.to) == owner {
        is_next(owner, true, rest)
    } else {
        true
    }
}

// Whether the owner's next entry is a put, or a take, as asked. What stands behind it is left.
fn is_next(owner: usize, put: bool, rest: &mut &[Wire]) -> bool
    ensures { AreOwnNext (put ∷ []) (own_in owner rest.old.now) (own_in owner rest.new.now) result }
{
    match next_own(owner, rest) {
        Some(is) => is == put,
        None => false,
    }
}

// Whether the owner's next entry is a put, if there is one. What stands behind it is left.
fn next_own(owner: usize, history: &mut &[Wire]) -> Option<bool>
    ensures { IsNextOwn owner history.old.now history.new.now result }
{
    let at = own_place(owner, history)?;
    let is = is_put(&history[at]);
    *history = &history[at + 1..];
    Some(is)
}

// The place of the owner's first entry.
fn own_place(owner: usize, history: &[Wire]) -> Option<usize>
    ensures { result ≡ position (is_own owner) history.now }
{
    history.iter().position(|wire| is_own(owner, wire))
}

// Whether an entry is its owner's: a take, or a put by the owner.
fn is_own(owner: usize, wire: &Wire) -> bool
    ensures { result ≡ is_own owner wire.now }
{
    match wire {
        Wire::Put { from, .. } => usize::from(*from) == owner,
        Wire::Took { .. } => true,
    }
}

// Whether an entry is a put.
fn is_put(wire: &Wire) -> bool
    ensures { result ≡ is_put wire.now }
{
    match wire {
        Wire::Put { .. } => true,
        Wire::Took { .. } => false,
    }
}
