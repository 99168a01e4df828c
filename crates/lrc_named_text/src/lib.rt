//! The text of a core: a program of the language, with the labels of what the named program shares, and behind each
//! statement the line of the named program that it comes from.
#![tactic(auto)]

mod expression;
mod labels;
mod statements;

pub use statements::push_core;
