//! The part of `lint` that answers for a text that is not a program. It reports the first fault: its place, the tokens
//! that may stand there, and a hint on how to mend it.
//!
//! Decisions:
//!
//! - A name begins a statement if `=` may follow it. A number that is not expected is shown as it was written
//!   (`007`).
#![tactic(auto)]

pub mod bad_byte;
pub mod brackets;
pub mod fault;
pub mod hint;
mod hints;
mod linted;
pub mod unexpected;

pub use linted::{Linted, lint_fault, no_program, too_long};
