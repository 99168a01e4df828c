//! The simulator: it runs a program on lazy-release-consistent shared memory (Keleher, Cox and Zwaenepoel 1992), one
//! event at a time. The nodes take their turns in any order. Messages are delivered in any order, any number of times,
//! or never. The events are given, or come in rounds, or come in a random order from a seed.
#![tactic(auto)]

pub mod ends;
pub mod first;
mod flying;
pub mod keep;
pub mod laws;
pub mod lead;
pub mod origins;
mod random;
pub mod report;
mod rounds;
pub mod run;
pub mod setting;
pub mod simulate;
pub mod turned;
mod world;
