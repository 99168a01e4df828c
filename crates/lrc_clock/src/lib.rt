//! The vector times of a run, and the theorem that they characterize happens before.
//!
//! A timed run is a run with a time at each position. If the times follow a local rule, they tell which intervals
//! happen before which positions, and so which accesses race (Mattern 1989, Fidge 1988; for intervals between
//! synchronizations Keleher, Cox and Zwaenepoel 1992). The theorems about order and races assume a well-synchronized
//! run, and some of them also that no node acts between its arrive and its depart. `times_of_acts` computes the times in
//! one pass over the acts.
#![tactic(auto)]

pub mod laws;
mod past;
pub mod times;
