//! Finds the events by which the nodes of the protocol make the acts of a run in their order, where all messages are
//! delivered before a node goes on.
#![tactic(auto)]

pub mod drained;
mod player;
