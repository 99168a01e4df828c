//! The answer of `lint` to a text that is read as a named program and has a fault: in the text as such, in what its names
//! mean, or in its core.
#![tactic(auto)]

mod linted;

pub use linted::lint_named;
