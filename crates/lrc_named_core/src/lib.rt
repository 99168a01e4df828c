//! The core of a named program: a program of the language without names for what is shared, in which each private name
//! stands as it is spelled, and each statement knows from which statement of the named program it comes.
#![tactic(auto)]

mod copy;
pub mod tree;

pub use copy::binary;
