//! Prints what a search of all exact runs of a program finds: their outcomes, or the acts of a run that has one of them, or
//! the events that make these.
#![tactic(auto)]

mod calm;
pub mod events;
mod layout;
pub mod listed;
pub mod one;
