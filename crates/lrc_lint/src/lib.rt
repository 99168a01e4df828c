//! The answer of `lint` to any text. For a text that is not a program it is the first fault, and for a program its
//! warnings.
#![tactic(auto)]

pub mod laws;
mod linted;
mod seen;
mod told;

pub use linted::lint;
