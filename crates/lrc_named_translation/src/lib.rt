//! The core of the expressions of named programs: which statements of the core come before an expression, and which
//! expression of the core it then is.
#![tactic(auto)]

mod expressions;
pub mod laws;
pub mod meanings;
pub mod own;
pub mod parts;
mod turn;

pub use expressions::{Arguments, Translator};
