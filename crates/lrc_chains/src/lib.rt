//! Chains: by which positions of a list one position leads to another, each by a relation directly before the next. The
//! chain that is told is the least of the shortest. The definitions and the lemmas hold for every relation that goes
//! forward; the code keeps the best starts of chains.
#![tactic(auto)]

pub mod starts;
pub mod table;
