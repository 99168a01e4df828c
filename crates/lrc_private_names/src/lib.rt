//! The private names of a program: how a text spells them, which names a statement reads and sets, and which act of a
//! run last set each name of a node.
#![tactic(auto)]

pub mod laws;
mod names;
mod statement;
mod way;

pub use names::{names_of, spelling};
pub use statement::reads_name;
pub use way::Way;
