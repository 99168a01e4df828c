//! What a node of the exact memory knows, in the terms of happens before: which intervals, and what each of them did.
#![tactic(auto)]

pub mod laws;
