//! Which acts are undisputed, found by following the texts of the other nodes.
#![tactic(auto)]

pub mod laws;
