//! What the nodes of a run do. A run is a list of acts, each of one node. On such lists the crate defines the terms of
//! the theorems: happens before, races, intervals, and the values that a read may give. It also keeps traces: which
//! words a node read and wrote in each of its intervals.
#![tactic(auto)]

pub mod act;
pub mod end;
pub mod laws;
pub mod race;
pub mod touched;
pub mod trace;
