//! Runs of the protocol along an order of acts: which event is due, how far such a run goes, and the laws that it makes
//! the acts of the order, and no others but departs behind them.
#![tactic(auto)]

pub mod laws;
pub mod limit;
