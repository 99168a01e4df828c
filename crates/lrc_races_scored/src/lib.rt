//! A detector's report scored: what is said of each of its claims, what it missed, and how many of each sort there are.
#![tactic(auto)]

pub mod missed;
pub mod score;
pub mod sort;
pub mod spelling;
pub mod tally;
pub mod traced;
