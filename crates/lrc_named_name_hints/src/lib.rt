//! The hints of `lint` on how to mend the first fault of the names of a named program, but for indices out of range.
#![tactic(auto)]

pub mod hint;
mod hints;
mod near;
mod owner;
pub mod seen;

pub use hints::hint_for;
