//! The replay of a run, event by event. It holds the nodes and the messages in flight, makes the turn of each event,
//! and keeps what the acts so far have led to: the positions of the nodes in the text, their private names, and the
//! last Writes.
#![tactic(auto)]

mod course;
mod notes;
mod plan;
mod replay;

pub use course::Course;
pub use notes::{Note, Spot};
pub use plan::Plan;
pub use replay::Replay;
