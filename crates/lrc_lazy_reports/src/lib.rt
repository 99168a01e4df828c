//! Laws that a report of the shared memory has one of the lazy outcomes of its program, whichever call gave it.
#![tactic(auto)]

pub mod laws;
