//! The lines of the acts of a run. For each act, the crate gives the line of the program's text with the statement that
//! makes the act. It follows each node through the text, and keeps the statements that the node still has to do, with
//! their lines. It also gives the number of each act's statement in the order of the text, from which the line follows.
#![tactic(auto)]

pub mod laws;
pub mod statements;
pub mod walk;
pub mod walks;
mod way;
