//! Laws that each report of the shared memory tells a run of the exact memory, whichever call gave it. So the order in which
//! nodes acquire each lock decides what the reports of racing programs tell.
#![tactic(auto)]

pub mod laws;
