//! The orders of a program: what it is that one races, that one gets stuck, and what a program's outcomes are. A
//! program has a race exactly if the plain machine, in some order of its nodes, reaches a state at which two nodes are
//! about to make conflicting accesses. Here are the definitions, the notes that an outcome is made of, what a search
//! answers, and the laws of them; the search itself is `lrc_explore`.
#![tactic(auto)]

pub mod laws;
pub mod noted;
pub mod notes;
pub mod outcomes;
pub mod search;
pub mod seen;
pub mod traps;
