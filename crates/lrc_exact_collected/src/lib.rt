//! When a barrier collects: in every run of the protocol machine it does exactly if the exact memory of the run's acts does, and
//! drops the same intervals. The crate has laws only.
#![tactic(auto)]

pub mod laws;
