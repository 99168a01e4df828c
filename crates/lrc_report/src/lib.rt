//! Prints the report of a run: what each node printed, how it ended, and the races. It also writes a text to a writer
//! and tells what a failed write leaves.
//!
//! Decisions:
//!
//! - A line "still running" is beyond what was asked for. It never follows an error line.
//! - Standard output has no buffer. The text of a run is complete before the first write, so a buffer would save
//!   no writes and could lose its content.
#![tactic(auto)]

pub mod output;
pub mod report;
