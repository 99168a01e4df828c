//! Laws of charts: that the turns of a chart are those that the events of its run make, and which pages become invalid at
//! each.
#![tactic(auto)]

pub mod laws;
