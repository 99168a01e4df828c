//! The definitions that a race detector has to meet: the events of a trace, their happens-before order, the races, and
//! the pairs of accesses that are reported. A pair joins an access with another thread's last earlier access that races
//! with it.
//!
//! The definitions are in `specs/`. They hold for every list of events.
#![tactic(auto)]

pub mod event;
pub mod fault;
pub mod group;
pub mod laws;
