//! The faults of the statements of a named program: names that are unknown or wrongly used, wrong numbers of indices,
//! indices that are out of range, and too many private names. The crate says of statements, by what is declared before
//! them, which of their faults comes first.
#![tactic(auto)]

pub mod parts;
mod privates;
mod statements;

pub use statements::{first_fault, reserved};
