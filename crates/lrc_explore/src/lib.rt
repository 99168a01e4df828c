//! Searches the settled states of a program, breadth first. It finds a race, a state at which the program is stuck, or
//! every outcome of its orders, and the runs that lead there.
#![tactic(auto)]

pub mod answers;
pub mod ended;
pub mod found;
pub mod laws;
pub mod met;
mod notes;
pub mod seek;
pub mod task;
pub mod told;
