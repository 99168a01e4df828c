// Messages before they have numbers.

use lrc_envelope::Message;
use std::marker::Model;

/// A message to a node, before it has a number.
#[derive(Drop)]
pub struct Letter {
    /// The receiver, counted from 0.
    pub to: u8,
    pub message: Message,
}

impl Model for Letter {
    ghost use Rattle.lrc_protocol.specs.Node as mail;

    ghost Value = { mail.Letter };

    ghost view = { λ l. record { to = l.to; message = l.message } };
}
