//! Prints what a search of every order of a program finds. It tells whether an order races, whether one gets stuck and
//! whether a node traps in one, or which outcomes the nodes can reach.
#![tactic(auto)]

pub mod ends;
pub mod explored;
mod last_races;
pub mod laws;
mod met;
pub mod orders;
pub mod outcome_run;
pub mod outcomes;
mod trapped;
