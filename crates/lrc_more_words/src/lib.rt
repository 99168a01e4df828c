//! The lines that say more behind the line of a fault: the name of a file and the system's reason, the range of a number,
//! why the output ends early, and what the events and the threads of a run may not be.
#![tactic(auto)]

mod lines;
pub mod number;
mod reason;

pub use lines::{LONG_EVENTS, NO_THREAD, file_lines, number_lines, output_lines};
