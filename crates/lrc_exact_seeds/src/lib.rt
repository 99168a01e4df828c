//! Finds for each outcome of a program the least seed whose run has it. The runs are played in the random orders of seeds,
//! with any setting.
#![tactic(auto)]

mod seed;
pub mod seeds;
