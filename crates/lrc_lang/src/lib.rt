//! The language of the programs that run on the shared memory. A program has a number of words and of locks, and
//! statements that read and write words, acquire and release locks, wait at barriers and print. The crate defines the
//! grammar, the lexer and the parser, which finds the first fault of a text that is no program.
#![tactic(auto)]

mod body;
pub mod fault;
pub mod first_fault;
pub mod kind;
pub mod lexemes;
pub mod lexer;
mod limits;
pub mod lines;
mod parser;
mod partial;
pub mod positions;
mod state;
mod symbol;
pub mod token;

pub use parser::{MOST_BYTES, parse, tokens_are_of_one_program};
