//! The detector of sure races: it takes one event at a time and reports the pairs that are sure, in one pass over a trace
//! of any length.
//!
//! It works as the detector of races does, but its vectors say by way of which events a thread was reached: a thread that
//! reads a variable learns of the variable's last write, and of all that was known at that write. So it stores a vector
//! for each variable besides. An access is asked about before what it reads itself is learned.
#![tactic(auto)]

pub mod detector;
pub mod trace;
