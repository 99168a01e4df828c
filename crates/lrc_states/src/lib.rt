//! Shows the turns of a run with the states of its nodes: a line of JSON for the state before the first turn shown, and
//! a line for each turn. The run is replayed from its events.
//!
//! `objects` writes what lines about turns contain: messages, labels, acts, and the last write to a word. (The size of a
//! message that is too long to be sent is written as `no`. No run has such a message.) `members` writes what the lines have
//! more that tell also in members.
//!
//! Decisions:
//!
//! - A node shows its parts by calls that change nothing. Changes (diffs) that the code has not made yet are shown
//!   as made, as the machine has them.
#![tactic(auto)]

mod fault;
mod first;
mod members;
mod names;
mod objects;
mod player;
mod start;
mod states;
mod told;

pub use fault::StatesFault;
pub use objects::{
    push_act, push_comma, push_envelope, push_envelopes, push_labels, push_listed, push_notes,
    truth,
};
pub use states::states_parts;
pub use told::{Range, Telling, Told};
