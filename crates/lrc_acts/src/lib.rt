//! The text format of acts, one act on each line, and the lines in which a judge reports what it finds in them.
#![tactic(auto)]

mod deeds;
pub mod judge_lines;
pub mod laws;
pub mod reading;
pub mod words;
