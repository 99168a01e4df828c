//! Reports the races of a trace while it is read, its pairs of locations that race, the events that show a sure race, and
//! why two events are ordered. Of the races what is known from the lines read so far is written before the next input is
//! awaited.
//!
//! Decisions:
//!
//! - If memory runs out, or a count would exceed 64 bits, nothing is written for that block of lines. What was
//!   written is the answer to the blocks before.
#![tactic(auto)]

mod answer;
mod hearing;
mod lines;
mod locating;
mod noted;
mod outcome;
mod play;
mod reasoning;
mod score;
mod seeker;
mod strict;
mod teller;
mod witnessing;

pub use locating::play_locations;
pub use play::play_races;
pub use reasoning::play_why;
pub use score::play_score;
pub use witnessing::play_witness;
