//! The title of a chart: a shell command line that makes the same chart.
//!
//! Decisions:
//!
//! - The title leaves out `--text`, so a picture and its form for a terminal have the same title. It quotes a
//!   file's name as Python's `shlex.quote` does.
#![tactic(auto)]

mod title;
mod word;

pub use title::{title_of, title_of_acts};
