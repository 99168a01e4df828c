//! The source of a run: a text of the core as it is read, by itself or by the named program that it is the core of; the
//! program and its flat code; and the line of each statement, the labels and the private names.
#![tactic(auto)]

pub mod laws;
pub mod read_text;
pub mod source;
pub mod text;
