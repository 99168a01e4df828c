//! Runs of a program on threads: each node on a separate thread, with a post between them. The turns of the threads are
//! put into one order by their stamps, so that the parallel run becomes a run of the simulator, and its promises hold.
//! This includes the sequential-consistency theorem for programs without races.
//!
//! Decisions:
//!
//! - A run on threads answers the same `Run` as the simulator, with all turns. So the code that shows a run is
//!   written once.
//! - `are_takes_sent` looks for each taken message among all turns. That is quadratic, but only a run that failed
//!   pays for it.
#![tactic(auto)]

mod failure;
mod fault;
mod halt;
mod live;
mod runs;
mod sent;
mod told;

pub use fault::RunFault;
pub use halt::{Halt, Left, WornOut};
pub use live::{ThreadedRun, run_on_threads};
pub use lrc_threads::{Gate, Line, Mail, OpenGate, Stop, work};
pub use runs::{run, run_gated};
