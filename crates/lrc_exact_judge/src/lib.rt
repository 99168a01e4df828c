//! A judge of the exact memory: whether the reads of a list of acts give what the memory has for their nodes.
//!
//! It keeps the copies of all nodes, one act after the other. The closed intervals are kept once, a barrier is settled
//! at its first depart, and a collection takes the pages that are stale.
#![tactic(auto)]

pub mod first;
mod keepers;
pub mod layout;
mod looked_at;
pub mod memory;
