//! Laws of what `core` prints of a named program: it is a program of the language, and is read as just its core.
#![tactic(auto)]

pub mod laws;
