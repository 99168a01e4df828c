//! Finds every outcome of the exact runs of a program, and for each outcome a run that has it, by a search through the
//! orders in which the nodes acquire locks.
#![tactic(auto)]

pub mod run;
pub mod search;
