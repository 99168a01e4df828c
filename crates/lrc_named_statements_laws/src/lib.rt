//! Laws of the core of statements of named programs: a statement has one core.
#![tactic(auto)]

pub mod laws;
