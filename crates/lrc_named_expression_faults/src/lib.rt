//! The faults of the expressions of a named program: names that are unknown or wrongly used, wrong numbers of indices and
//! arguments, indices that are out of range, and what is not constant where it has to be. The crate says of an expression,
//! by what is declared before it, which of its faults comes first.
#![tactic(auto)]

mod counts;
mod expressions;
pub mod extent;
pub mod fault;
pub mod scope;
pub mod spelled;

pub use expressions::{indexed, wrong_indices};
