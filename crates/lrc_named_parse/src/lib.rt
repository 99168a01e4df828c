//! The parser of named programs. It takes the tokens of a text one by one, finds the first fault of a text that is no
//! named program as such, and makes the tree of one that is. It does not ask what a name stands for.
#![tactic(auto)]

pub mod laws;
pub mod limits;
mod named;
pub mod parser;
pub mod state;

pub use named::is_named;
pub use parser::{MOST_BYTES, Parsed, TextFault, parse};
