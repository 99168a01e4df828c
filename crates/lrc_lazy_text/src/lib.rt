//! Prints what a search of all lazy runs of a program finds: their outcomes, each with the least seed whose run has it,
//! or the acts of a run that has one of them.
#![tactic(auto)]

pub mod listed;
pub mod one;
