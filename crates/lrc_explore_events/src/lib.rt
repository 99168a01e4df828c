//! Finds the events that lead the nodes of the protocol along a given order of acts.
#![tactic(auto)]

mod asked;
pub mod order;
mod player;
