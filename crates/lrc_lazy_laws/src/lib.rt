//! Laws that every run of the shared memory is a lazy run of its program. So the outcomes of the shared memory are lazy
//! outcomes.
#![tactic(auto)]

pub mod laws;
