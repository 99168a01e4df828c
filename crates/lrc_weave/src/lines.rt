// What a node put into the mailboxes, compared with what its log sends.

ghost use Rattle.std.specs.Prelude.{◌≡◌, ◌==◌, ◌<◌, ◌∷◌, ◌↔◌, [], All, IfOk, IsTrue, Some, length, map, slice_index_or};
ghost use Rattle.std.specs.List.{list_all};
ghost use Rattle.lrc_protocol.specs.Run.{sent_by};
ghost use Rattle.lrc_weave.specs.Compared.{AreAllNext, AreNext, AreSent, messages_left, puts_in, puts_left};
ghost use Rattle.lrc_weave.specs.Matched.{message_of, sent_as};

use crate::putting::PutsByNode;
use crate::spelled::Speller;
use lrc_envelope::Envelope;
use lrc_log::Entry;
use lrc_post::Wire;
use std::alloc::{AllocError, Global};

/// What one node put into each mailbox, in order, as far as it is still to be compared.
#[derive(Drop)]
pub(crate) struct Lines<'p, 'w> {
    lines: Vec<&'p [&'w Wire]>,
}

impl<'p, 'w> Lines<'p, 'w> {
    /// Returns all that a node put into each mailbox.
    pub(crate) fn of(
        alloc: Global,
        puts: &'p [PutsByNode<'w>],
        node: usize,
    ) -> Result<Lines<'p, 'w>, AllocError>
        requires { All (λ own. node < length own.lines.items) puts.now }
        ensures { IfOk result (λ lines. puts_left lines
            ≡ map (λ own. slice_index_or (puts_in own) node []) puts.now) }
    {
        let mut lines = Vec::new(alloc);
        for own in puts {
            lines.push(own.lines[node].as_slice())?;
        }
        Ok(Lines { lines })
    }

    /// Returns whether this is what a log sends to each node, in order.
    pub(crate) fn are_sent(
        &mut self,
        speller: &mut Speller,
        log: &[Entry],
    ) -> Result<bool, AllocError>
        ensures { IfOk result (λ are. IsTrue are ↔ AreSent log.now (messages_left self.old)) }
    {
        for entry in log {
            if !self.take_turn(speller, entry)? {
                return Ok(false);
            }
        }
        Ok(self.are_over())
    }

    // Whether nothing is left of any line.
    fn are_over(&self) -> bool
        ensures { result ≡ list_all (λ line. length line.now == 0) self.now.lines.items }
    {
        self.lines.iter().all(|line| line.is_empty())
    }

    // Whether the next puts are what a turn sends. What stands behind them is left.
    fn take_turn(&mut self, speller: &mut Speller, entry: &Entry) -> Result<bool, AllocError>
        ensures { IfOk result (λ are. AreAllNext (sent_by entry.now)
            (messages_left self.old)
            (messages_left self.new) are) }
    {
        for envelope in entry.turn.out.as_slice() {
            if !self.take_sent(speller, entry.stamp, envelope)? {
                return Ok(false);
            }
        }
        Ok(true)
    }

    // Whether the next put of its receiver's line is a message with this stamp, if the receiver has a line. What stands behind it is left.
    fn take_sent(
        &mut self,
        speller: &mut Speller,
        stamp: u64,
        envelope: &Envelope,
    ) -> Result<bool, AllocError>
        ensures { IfOk result (λ is. AreAllNext (sent_as stamp envelope.now ∷ [])
            (messages_left self.old)
            (messages_left self.new) is) }
    {
        let to = usize::from(envelope.to);
        if to < self.lines.len() {
            take_put(speller, stamp, envelope, &mut self.lines[to])
        } else {
            Ok(true)
        }
    }
}

// Whether the next put of a line is this message with this stamp. The line moves past that put.
fn take_put(
    speller: &mut Speller,
    stamp: u64,
    envelope: &Envelope,
    line: &mut &[&Wire],
) -> Result<bool, AllocError>
    ensures { IfOk result (λ is. AreNext (sent_as stamp envelope.now ∷ [])
        (map (λ wire. message_of wire.now) line.old.now)
        (map (λ wire. message_of wire.now) line.new.now) is) }
{
    if line.is_empty() {
        return Ok(false);
    }
    let is = is_message(speller, line[0], stamp, envelope)?;
    *line = &line[1..];
    Ok(is)
}

// Whether an entry is the put of a message with this stamp.
#[tactic(auto, using(crate::proofs::Spellings::put_of))]
fn is_message(
    speller: &mut Speller,
    wire: &Wire,
    stamp: u64,
    envelope: &Envelope,
) -> Result<bool, AllocError>
    ensures { IfOk result (λ is. IsTrue is
        ↔ (message_of wire.now ≡ Some (sent_as stamp envelope.now))) }
{
    match wire {
        Wire::Put {
            stamp: sent,
            bytes,
            ..
        } if *sent == stamp => speller.is_written(bytes, envelope),
        _ => Ok(false),
    }
}
