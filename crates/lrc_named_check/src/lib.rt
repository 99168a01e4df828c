//! The check of a named program that the grammar allows: it finds the first of its faults, or, where it has none, what its
//! names mean and that its core can be made.
#![tactic(auto)]

mod program;

pub use program::names_of;
