//! The core of a whole named program: its words, its locks, and its statements, each with what it comes from.
#![tactic(auto)]

mod layout;
mod program;

pub use layout::{locks, words};
pub use program::{CoreProgram, core_of};
