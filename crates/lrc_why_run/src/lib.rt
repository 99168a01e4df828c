//! Answers the command `why` about one act or two acts of a run, in words. The answer has the source lines, private
//! names and labels of the program's text.
#![tactic(auto)]

mod private;
mod run;

pub use run::{why_each, why_run};
