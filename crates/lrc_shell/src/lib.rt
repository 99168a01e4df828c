//! The program `treadmarks` as a function of its arguments, files and outputs. It reads the arguments and the files
//! that they name, carries out the request, and returns the exit status.
#![tactic(auto)]

mod more;
mod played;
mod progress;
mod races;
mod reading;
mod refusal;
mod scoring;
mod starting;
mod topic;
mod tracing;
mod watched;

pub use lrc_shell_more::outlet::{Kept, Outlet};
pub use lrc_shell_sources::sources::{Sources, System, read_up_to};
pub use played::play;
pub use progress::{Late, LateLine, Watch};
pub use starting::start;
