//! What a node of the protocol machine has of its pages in a collection, beside the exact memory: it repairs the pages that it
//! keeps, and drops invalid copies, for which stands what the keepers have. The crate has laws only.
#![tactic(auto)]

pub mod laws;
