//! What a node of the protocol machine has of its pages where barriers collect: beside the exact memory's words, which pages are
//! stale, and what stands for a copy that was dropped. The crate has laws only.
#![tactic(auto)]

pub mod laws;
