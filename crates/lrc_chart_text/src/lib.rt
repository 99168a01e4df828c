//! Draws the picture of a run as text for a terminal of 100 columns. Each turn has a line, with the nodes' columns at
//! the left and words behind them.
//!
//! Decisions:
//!
//! - The form for a terminal follows no given format. It is ASCII: columns at the left, a sign for each turn, then
//!   words.
//! - A message that is taken twice has a number for each time.
#![tactic(auto)]

mod columns;
pub mod laws;
mod lines;
mod phrases;
mod whole;

pub use whole::sketch;
