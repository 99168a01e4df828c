//! Sure races: those races of a trace of which another trace of the same program shows the two accesses side by side. A
//! race that isn't sure may owe its place to an earlier one: a thread read what another wrote without order, and went
//! where it would not have gone otherwise.
//!
//! The definitions are in `specs/`: the order of what was read, sure races and the pairs of them that are reported, and
//! the reorderings of a trace that show them. `laws` has what holds of every trace.
#![tactic(auto)]

pub mod laws;
