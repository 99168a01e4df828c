//! What a node logs of each of its turns: what led to it, its stamp, its act, and the messages that it sends.
#![tactic(auto)]

use lrc_envelope::Envelope;
use lrc_trace::act::Act;
use std::marker::Model;

/// The input of a turn.
#[derive(Drop)]
pub enum Input {
    /// The node goes on by itself.
    Run,
    /// This message is delivered to the node.
    Taken(Box<Envelope>),
}

/// A turn with its input and its stamp.
#[derive(Drop)]
pub struct Entry {
    pub input: Input,
    pub stamp: u64,
    pub turn: Turn,
}

impl Model for Entry {
    ghost use Rattle.lrc_protocol.specs.Run.{EntryRecord};

    ghost Value = { EntryRecord };

    ghost use Rattle.lrc_log.specs.Input.{seen_input};

    ghost view = { λ e. record { input = seen_input e.input; stamp = e.stamp; turn = e.turn } };
}

/// What a node's turn does: its act, if it makes one, and the messages that it sends, in order.
#[derive(Drop)]
pub struct Turn {
    pub act: Option<Act>,
    pub out: Vec<Envelope>,
}

impl Model for Turn {
    ghost use Rattle.lrc_protocol.specs.Turn.{TurnRecord};

    ghost Value = { TurnRecord };

    ghost view = { λ t. record { act = t.act; out = t.out.items } };
}
