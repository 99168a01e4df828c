//! The answer of `treadmarks` to a choice: the text to print with the exit status, or a fault with its line.
#![tactic(auto)]

pub mod fault;
pub mod printout;
