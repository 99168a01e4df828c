//! A race detector over traces. It finds the accesses of different nodes to one word, at least one of them a write,
//! that are unordered by the vector times of their intervals (Perkovic and Keleher 1996).
#![tactic(auto)]

mod detector;
mod entries;
mod epochs;
pub mod laws;
mod places;
mod rising;
mod rows;
mod spans;

pub use detector::races;
pub use entries::are_traces_of;
pub use epochs::epochs_agree;
pub use lrc_judge::first::first_race;
pub use lrc_trace::race::Race;
