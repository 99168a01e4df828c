// How a node's thread lets others go on while the node only looks, as one does that spins under a lock.

use lrc_trace::act::Deed;

/// The most times that a node's thread yields after one look.
const MOST_RESTS: u32 = 64;

/// When a node's thread yields to other threads. A node only looks if it releases a lock and has neither written
/// anything since its release before nor taken a message. Then it looks for what another node must do first, and only a
/// message can tell it of that. So its thread yields: once after its first look, and once more after each further one,
/// up to a bound, or until a message comes. This decides when a turn is made, and nothing else.
#[derive(Clone, Copy)]
pub(crate) struct Spin {
    /// How many looks came in a row, at most [`MOST_RESTS`].
    looks: u32,
    /// Whether the node has written something or taken a message since its last release.
    went_on: bool,
    /// How many times the thread must still yield.
    rests: u32,
}

impl Spin {
    /// Returns the state of a node that has not looked yet.
    pub(crate) fn new() -> Spin {
        Spin {
            looks: 0,
            went_on: true,
            rests: 0,
        }
    }

    /// Returns whether the thread must yield once, and counts it.
    pub(crate) fn rest(&mut self) -> bool {
        if self.rests == 0 {
            return false;
        }
        self.rests -= 1;
        true
    }

    /// Notes that the node took a message.
    pub(crate) fn note_message(&mut self) {
        *self = Spin::new();
    }

    /// Notes that the node made a turn by itself, with this deed if it made an act. Returns whether the node must look
    /// for a message now: after each release, because another node may ask for the lock.
    pub(crate) fn note_turn(&mut self, deed: Option<Deed>) -> bool {
        match deed {
            Some(Deed::Write(_, _)) => {
                self.went_on = true;
                false
            }
            Some(Deed::Release(_)) => {
                self.note_release();
                true
            }
            _ => false,
        }
    }

    // The node released a lock.
    fn note_release(&mut self) {
        self.looks = if self.went_on {
            0
        } else if self.looks < MOST_RESTS {
            self.looks + 1
        } else {
            self.looks
        };
        self.went_on = false;
        self.rests = self.looks;
    }
}
