// What a run leaves of its post.

ghost use Rattle.std.specs.Prelude.{◌≡◌};
ghost use Rattle.lrc_post.specs.Post.{AreWires};

use crate::mailbox::Mailbox;
use std::marker::Model;

/// The mailboxes of a run, one for each node, from 0 up. The type guarantees three facts: each mailbox belongs to its
/// node, each history is legal, and each take is of the parcel that the mailbox's picker chooses among those in flight
/// at that moment.
#[derive(Drop)]
pub struct Wires {
    pub(crate) mailboxes: Vec<Mailbox>,
}

impl Model for Wires {
    ghost use Rattle.std.specs.Prelude.{List};
    ghost use Rattle.lrc_post.specs.Mailbox.{MailboxRecord};
    ghost use Rattle.lrc_post.specs.Post.{AreWires};

    ghost Value = { List MailboxRecord };

    ghost view = { λ w. w.mailboxes.items };

    ghost invariant = { λ w. AreWires w.mailboxes.items };
}

impl Wires {
    /// Returns the mailboxes, in the order of their nodes.
    pub fn mailboxes(&self) -> &[Mailbox]
        ensures all { result.now ≡ self.now }
        ensures legal { AreWires self.now }
    {
        self.mailboxes.as_slice()
    }
}
