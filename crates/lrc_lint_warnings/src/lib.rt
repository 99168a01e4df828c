//! Collects the warnings of a program: all kinds together, in the order in which they are told, with their words.
#![tactic(auto)]

mod collect;
mod order;
pub mod warning;
mod words;

pub use order::warnings;
pub use words::push_words;
