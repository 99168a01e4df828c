//! The invariants of synchronization that hold in every run of the protocol machine, whatever its events: locks,
//! barriers, vector times and the order that these times show. The crate has laws only.
#![tactic(auto)]

pub mod barriers;
pub mod cover;
pub mod laws;
pub mod locks;
pub mod synchronization;
pub mod times;
