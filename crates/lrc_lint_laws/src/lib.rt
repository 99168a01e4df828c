//! Laws that what a warning says of a text is true in every run, of the plain machine and of the shared memory, each law
//! about one kind of warning; and that no warning of a program is found twice.
#![tactic(auto)]

pub mod once_laws;
pub mod program_laws;
pub mod run_laws;
