//! What says more behind the line of a fault, where standard error is a terminal, of files, numbers and the output: the
//! lines, and what they are known by. A writer keeps why a write to it failed, and files note why one could not be read.
#![tactic(auto)]

pub mod more;
pub mod noting;
pub mod outlet;
