//! The commands of `treadmarks`: computes the answer to a choice from the texts of its files, and writes the answer or
//! the line of its fault.
#![tactic(auto)]

pub mod answer;
mod cored;
mod events;
mod exact;
mod explored;
mod judged;
mod linted;
mod performance;
mod pictured;
pub mod reading;
mod reasoned;
mod shown;

pub use performance::{answer_any, execute, perform, tell};
