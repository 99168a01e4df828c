//! The reasons of the acts of a run: chains of acts by which one act happens before another, what a node knows and
//! which locks it holds at an act, and which writes determine what a read may give.
//!
//! Everything is defined on the acts alone, and holds for any list of acts.
#![tactic(auto)]

pub mod chains;
pub mod held;
pub mod known;
pub mod laws;
pub mod numbers;
mod onward;
mod starts;
pub mod writes;

/// The number of nodes, and of locks, that an act can name.
const NAMES: usize = 256;
