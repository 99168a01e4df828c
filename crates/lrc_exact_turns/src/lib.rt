//! A turn of a node of the protocol machine, beside the exact memory, where barriers collect. The crate has laws only.
#![tactic(auto)]

pub mod laws;
