//! The race detector for traces: it takes one event at a time and reports its pairs, in one pass over a trace of any
//! length.
//!
//! It uses vectors that say what is known of each thread. It has one for each thread, for each lock, and for the open
//! cycle of each barrier, and one for each thread of a closed cycle. For each variable and each thread that accesses
//! it, it stores the last access and the last write, in the order of the first accesses, and beside them where they stand,
//! ascending by thread. Of a variable whose accesses all happen before its last one it looks at that alone. So memory grows with threads, locks and
//! barriers, and with the threads of each variable, but not with the length of the trace. Vectors share what they know
//! alike: of a thread that another forks and joins, that thread's vector has few entries of its own. Where all threads of
//! a chunk were joined, of which `joins` keeps count, their entries become one.
//!
//! Beside it, `fault_finder` finds the first event that no program would give: `held` has the holder of each lock,
//! `waits` the threads that wait at a barrier, and `threads` those that were joined and those that are known.
#![tactic(auto)]

pub mod accesses;
pub mod barriers;
mod chunks;
pub mod clocks;
pub mod covers;
pub mod detector;
pub mod fault_finder;
pub mod groups;
mod held;
pub mod joins;
pub mod places;
mod threads;
pub mod trace;
pub mod variables;
pub mod vectors;
mod waits;
