//! When a node asks for a collection, as the exact memory counts. The crate has laws only.
#![tactic(auto)]

pub mod laws;
