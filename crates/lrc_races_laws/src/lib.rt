//! Laws of the race reports. The races of a run's acts, and of its RAPID trace, are the races of the run, and no event
//! of either is one that a program cannot give. The printed texts of both are read as exactly the run's acts and steps,
//! and what is told of them are the run's races. What is reported of any trace is a function of its bytes.
#![tactic(auto)]

pub mod text_laws;
pub mod told_laws;
pub mod trace_laws;
