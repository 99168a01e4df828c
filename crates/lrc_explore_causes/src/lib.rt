//! Explains a race: finds the acts that happen before its two accesses, and tells the earliest race of a run of the
//! plain machine by these acts and then the two accesses.
#![tactic(auto)]

pub mod causes;
pub mod told;
