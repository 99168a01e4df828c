//! The exact runs of a program that has no race: they are the runs of the plain machine, and have the outcomes of its orders.
#![tactic(auto)]

pub mod laws;
