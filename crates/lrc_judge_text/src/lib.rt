//! The text that a judge prints of a list of acts: whether they are well synchronized, read lazily, and read in order,
//! and which of them race, with the first race.
#![tactic(auto)]

pub mod broken_off;
pub mod exact;
pub mod judge;
pub mod memory;
pub mod pairs;
mod tell;
