//! Laws of the text of a core: it is read as just this core, and it is a program.
#![tactic(auto)]

pub mod laws;
