//! Reads and writes the events of a run as text, one event on each line. The program, the number of nodes, the options
//! and the events determine a run, so a run can be replayed from such a text.
#![tactic(auto)]

pub mod events;
pub mod laws;
mod writing;

pub use writing::{events_part, push_event};
