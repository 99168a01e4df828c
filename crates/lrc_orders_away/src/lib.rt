//! Acts that are known to be undisputed: the text of each other node is followed up to its next barriers, with a range
//! for the values of each private name, and comes to no act that conflicts.
#![tactic(auto)]

pub mod conflict;
pub mod undisputed;
