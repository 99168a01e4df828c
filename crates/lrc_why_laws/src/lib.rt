//! Laws of reasons: what `why` tells of an act is really the reason. They hold of every list of acts, and of every run
//! of the protocol.
#![tactic(auto)]

pub mod laws;
