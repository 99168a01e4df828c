//! What a node tells another about the intervals that it knows.

use lrc_store::Intervals;
use lrc_time::Time;
use std::marker::Model;

/// A node's time, and intervals that go with it. Write notices travel with grants and barrier messages (Keleher, Cox
/// and Zwaenepoel 1992).
#[derive(Drop)]
pub struct News {
    /// What the sender knew.
    pub time: Time,
    /// Intervals, strictly ascending by node, then index. Each stamp has as many entries as `time`.
    pub intervals: Intervals,
}

impl Model for News {
    ghost use Rattle.std.specs.Prelude.{length};
    ghost use Rattle.lrc_envelope.specs.Records.{NewsRecord, GoWith};

    ghost Value = { NewsRecord };

    ghost view = { λ n. record { time = n.time; intervals = n.intervals } };

    ghost invariant = { λ n. GoWith (length n.time) n.intervals };
}
