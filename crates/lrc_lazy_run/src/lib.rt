//! Finds a lazy run of a program that has a given outcome, by a search through the states of the machine that makes
//! lazy runs. The search goes from state to state by steps, so that the run has as few as may be, which is tested and
//! not proved. If that finds no run, it goes through all states by single acts, and so it is exact.
//!
//! It keeps states where steps begin and where a node has arrived at a barrier, and between two of them the acts alone.
//! What was printed is part of a state, so a state for each act would make many prints cost the square of their number.
//!
//! Beside it, `seeds` plays the runs of this memory in the random orders of seeds, and finds for each outcome the least
//! seed whose run has it.
#![tactic(auto)]

mod along;
pub mod run;
pub mod seed;
pub mod seeds;
mod sought;
mod walk;
mod ways;
