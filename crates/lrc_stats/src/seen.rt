// Which messages a node has taken.

ghost use Rattle.std.specs.Prelude.{◌≡◌, ◌++◌, ◌∷◌, [], List, IfOk, OnOk, false, vec_len};
ghost use Rattle.lrc_envelope.specs.declared.limits.TheConstants.{MOST_NODES};

use lrc_envelope::{Envelope, MOST_NODES};
use lrc_log::{Entry, Input};
use lrc_mail::Numbers;
use std::alloc::{AllocError, Global};

/// The messages that a node has taken: for each sender, their numbers.
#[derive(Drop)]
pub(crate) struct Seen {
    numbers: Vec<Numbers>,
    ghost all: { vec_len numbers ≡ MOST_NODES },
}

impl Seen {
    ghost use Rattle.lrc_protocol.specs.Run.{EntryRecord};
    ghost use Rattle.lrc_stats.specs.Seen.{HasSeen, has_seen};

    /// Returns the set for a node that has taken no message.
    pub(crate) fn new(alloc: Global) -> Result<Seen, AllocError>
        ensures { IfOk result (HasSeen []) }
    {
        let mut numbers = Vec::new(alloc);
        for _sender in 0..MOST_NODES {
            numbers.push(Numbers::empty(alloc))?;
        }
        Ok(Seen { numbers })
    }

    /// Returns whether a message makes this turn and is in the set.
    pub(crate) fn has(&self, entry: &Entry) -> bool
        ensures { result ≡ has_seen self.now entry.now.input }
    {
        match &entry.input {
            Input::Run => false,
            Input::Taken(envelope) => {
                let envelope: &Envelope = envelope;
                self.numbers[usize::from(envelope.from)].contains(envelope.number)
            }
        }
    }

    /// Adds the message that makes this turn, if a message makes it. The message must not be in the set yet.
    pub(crate) fn add(&mut self, entry: &Entry) -> Result<(), AllocError>
        requires { has_seen self.old entry.now.input ≡ false }
        ensures { (before : List EntryRecord) → HasSeen before self.old
            → OnOk result (HasSeen (before ++ entry.now ∷ []) self.new) }
    {
        match &entry.input {
            Input::Run => Ok(()),
            Input::Taken(envelope) => {
                let envelope: &Envelope = envelope;
                self.numbers[usize::from(envelope.from)].add(envelope.number)
            }
        }
    }
}
