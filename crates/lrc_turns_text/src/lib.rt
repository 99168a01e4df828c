//! Writes the turns of a run in words. The acts come in order, and among them the messages that the turns take and
//! send.
#![tactic(auto)]

mod part;
mod told;
mod turn;

pub use part::{entry_of, messages_part};
