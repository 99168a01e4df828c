//! Finds every outcome of the lazy runs of a program, by a search through the states of the lazy machine.
//!
//! Decisions:
//!
//! - Where a node can do something other than acquire a lock, the search goes on with the lowest such node alone,
//!   since its acts commute with those of all others. So it branches only at acquires, and at the values of one
//!   node's read.
//! - It skips storing states for at most 64 such acts in a row, so that a node that computes alone for ever does
//!   not keep the search from ending.
//! - A state is kept as a row of numbers: what a node is at, what the nodes share and know, and what was noted is kept
//!   once for all states that have it. Only the states that wait for a visit are kept whole.
//! - A state counts arrivals from the first barrier that some node has not left. So a loop of barriers has
//!   finitely many states, if its numbers do not grow without end.
#![tactic(auto)]

mod found;
mod parts;
pub mod search;
pub mod state;
