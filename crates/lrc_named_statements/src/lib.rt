//! The core of the statements of named programs: which statements of the core a statement of a named program is. The crate
//! translates the statements that have no statements within.
#![tactic(auto)]

mod assign;
pub mod origins;
mod simple;
mod statements;

pub use simple::barrier;
pub use statements::{Statements, lock_item};
