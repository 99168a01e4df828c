//! Writes the line of a turn with the bytes of its messages: what a node is given, what it does, and what it sends. Whoever
//! builds a node of their own compares it with these lines.
//!
//! (The bytes of a message that is too long to be sent are written as `no`. No run has such a message.)
#![tactic(auto)]

mod line;
mod message;

pub use line::{Line, push_line};
