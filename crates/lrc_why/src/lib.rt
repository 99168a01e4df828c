//! The reasons of an act as data: what the act is about, which acts race with it, what is known at it, and who learns
//! of it; and how two acts are ordered. All of it follows from the definitions on acts alone, for any list of acts.
//!
//! Decisions:
//!
//! - A node knows a position before an act if the node's first act that knows it is earlier than the act.
//! - A private name is set by an act that completes an assignment or a shared read. The statement of a node at a
//!   depart is the barrier, which reads no name.
#![tactic(auto)]

mod about;
mod known;
pub mod lanes;
pub mod least;
mod opponents;
mod parting;
mod positions;
pub mod reasons;
mod since;
mod spread;
pub mod whole;
