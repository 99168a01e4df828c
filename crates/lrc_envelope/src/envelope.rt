//! Messages in flight.

use crate::message::Message;
use std::marker::Model;

/// A message on its way from one node to another.
#[derive(Drop)]
pub struct Envelope {
    /// The sender, below `MOST_NODES`.
    pub from: u8,
    /// The receiver, below `MOST_NODES`.
    pub to: u8,
    /// The message's place among those from this sender to this receiver.
    pub number: u32,
    pub message: Message,
}

impl Model for Envelope {
    ghost use Rattle.lrc_envelope.specs.Envelope.{EnvelopeRecord, IsEnvelope};

    ghost Value = { EnvelopeRecord };

    ghost view = { λ e. record { from = e.from; to = e.to; number = e.number; message = e.message } };

    ghost invariant = { λ e. IsEnvelope (record { from = e.from; to = e.to; number = e.number; message = e.message }) };
}
