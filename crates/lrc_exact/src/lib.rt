//! The exact memory: what lazy release consistency gives to each read, by the acts alone. No page state, twin, notice or
//! message stands in its definition.
//!
//! Each node has of each word a value and a mark. An act changes what its own node has, by a local rule: of the node's
//! state, at an acquire of the state at the lock's last release, and at a depart of the states at all arrives.
#![tactic(auto)]

pub mod laws;
