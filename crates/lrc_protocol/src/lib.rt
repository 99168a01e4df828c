//! The protocol as a pure machine. Its definitions say what each turn of a node does, and what run a list of events
//! gives. Its laws say what these definitions have in common.
#![tactic(auto)]

mod event;
pub mod laws;

pub use event::Event;
