//! Orders that can end: what it is that an order is the beginning of one after which no node can make an act, and that
//! such an end is reached by steps between settled states.
#![tactic(auto)]

pub mod laws;
