//! Laws of the runs that the simulator makes, whatever the program, the number of nodes and the options: an order or a
//! seed determines the events, and the epochs of traces count departs. The crate has only laws.
#![tactic(auto)]

pub mod laws;
