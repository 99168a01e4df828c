//! Undisputed acts of the states that rows stand for. What is known of two threads is kept, for a search that makes such
//! acts at once.
#![tactic(auto)]

pub mod clash;
pub mod reaches;
