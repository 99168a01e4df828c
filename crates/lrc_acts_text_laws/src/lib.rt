//! Laws about the texts of every run of the protocol machine, whatever its events. The order in the trace for race
//! detectors is happens before, and this trace is well formed. The text printed of a run's acts is read, and judged, as
//! these acts.
#![tactic(auto)]

pub mod laws;
pub mod traces;
