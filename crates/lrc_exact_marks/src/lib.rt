//! The marks of the exact memory, which decide between changes that no order joins, and the weights that they are made of.
#![tactic(auto)]

pub mod laws;
