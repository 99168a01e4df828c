//! Laws of what the statements of named programs do, of the acts of a node that stands before their core.
#![tactic(auto)]

pub mod laws;
