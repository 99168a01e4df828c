//! Prints events along the order that a search of every order of a program tells.
#![tactic(auto)]

pub mod outcome;
mod showing;
pub mod told;
