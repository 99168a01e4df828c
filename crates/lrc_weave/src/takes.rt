// What a node took from its own mailbox, compared with what its log takes.

ghost use Rattle.std.specs.Prelude.{◌≡◌, ◌↔◌, [], IfOk, IsTrue};
ghost use Rattle.lrc_protocol.specs.Run.{taken};
ghost use Rattle.lrc_weave.specs.Compared.{IsLeft, IsTakenAs, taken_left};
ghost use Rattle.lrc_weave.specs.Matched.{Takes, message_of, takes_in};

use crate::history::next_take;
use crate::spelled::Speller;
use lrc_envelope::Envelope;
use lrc_log::{Entry, Input};
use lrc_post::Wire;
use std::alloc::AllocError;

/// Returns whether the takes of a mailbox's history are what its owner's log takes, in order, each with its stamp.
pub(crate) fn are_takes(
    speller: &mut Speller,
    log: &[Entry],
    history: &[Wire],
) -> Result<bool, AllocError>
    ensures { IfOk result (λ are. IsTrue are ↔ Takes [] log.now (takes_in history.now)) }
{
    let mut left = TakesLeft {
        history,
        rest: history,
    };
    let mut before = 0;
    for entry in log {
        if !left.take_turn(speller, before, entry)? {
            return Ok(false);
        }
        before = entry.stamp;
    }
    Ok(next_take(&mut left.rest).is_none())
}

// The takes of a mailbox that are still to be compared.
#[derive(Clone, Copy)]
struct TakesLeft<'h> {
    // The history of the mailbox.
    history: &'h [Wire],
    // The part of it that is not compared yet.
    rest: &'h [Wire],
}

impl<'h> TakesLeft<'h> {
    // Whether a turn takes what the next take gives, or nothing. What stands behind that take is left. The node's turn before has the
    // stamp `before`.
    fn take_turn(
        &mut self,
        speller: &mut Speller,
        before: u64,
        entry: &Entry,
    ) -> Result<bool, AllocError>
        ensures left { IfOk result (λ is. IsLeft before entry.now.stamp entry.now.input
            (taken_left self.old)
            (taken_left self.new) is) }
        ensures history { self.new.history ≡ self.old.history }
    {
        match &entry.input {
            Input::Run => Ok(true),
            Input::Taken(envelope) => self.take_message(speller, envelope, before, entry.stamp),
        }
    }

    // Whether the next take gives a message to a turn with this stamp.
    fn take_message(
        &mut self,
        speller: &mut Speller,
        envelope: &Envelope,
        before: u64,
        stamp: u64,
    ) -> Result<bool, AllocError>
        ensures left { IfOk result (λ is. IsLeft before stamp (taken envelope.now)
            (taken_left self.old)
            (taken_left self.new) is) }
        ensures history { self.new.history ≡ self.old.history }
    {
        let Some(place) = next_take(&mut self.rest) else {
            return Ok(false);
        };
        if place >= self.history.len() {
            return Ok(false);
        }
        is_taken_from(speller, &self.history[place], envelope, before, stamp)
    }
}

// Whether an entry is the put of this message, and its taker, whose turn before has the stamp `before`, takes it at `stamp`: the greater
// of `before` and the put's stamp, plus one.
fn is_taken_from(
    speller: &mut Speller,
    wire: &Wire,
    envelope: &Envelope,
    before: u64,
    stamp: u64,
) -> Result<bool, AllocError>
    ensures { IfOk result (λ is. IsTrue is
        ↔ IsTakenAs (message_of wire.now) envelope.now before stamp) }
{
    match wire {
        Wire::Put {
            stamp: sent,
            bytes,
            ..
        } if stamp.checked_sub(before.max(*sent)) == Some(1) => {
            speller.is_written(bytes, envelope)
        }
        _ => Ok(false),
    }
}
