//! The invariants of one node of the protocol machine, whatever messages reach it: of its memory, of what it waits for,
//! and of its tokens. A node is reached if turns lead to it from a fresh node. The crate has laws only.
#![tactic(auto)]

pub mod laws;
