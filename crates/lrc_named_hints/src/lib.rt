//! The hints of `lint` on how to mend the first fault of a text that is no named program as such. They are a table: of each
//! kind of fault rows, of which the first that applies is told.
#![tactic(auto)]

mod bad_byte;
pub mod brackets;
pub mod fault;
pub mod hint;
mod hints;
mod unexpected;

pub use hints::hint_for;
