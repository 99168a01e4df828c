//! The execution of programs on one machine. The crate defines what a program means, translates it to flat code, and
//! runs that code on the plain machine, whose nodes share one flat memory. The plain machine runs in a given order of
//! the nodes, or in rounds.
#![tactic(auto)]

pub mod code;
mod emit;
pub mod laws;
pub mod machine;
pub mod plain;
pub mod rounds;
pub mod spot;
pub mod state;
pub mod value;
