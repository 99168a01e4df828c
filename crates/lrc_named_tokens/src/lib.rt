//! The tokens of a named program: a program that names its words, arrays and locks. The crate defines what stands in a
//! text, and where, and cuts a text into tokens. It shares blanks, comments, numbers and words with the language of the
//! core; a named program has more signs and more keywords.
#![tactic(auto)]

pub mod lexemes;
mod lexer;
pub mod token;
mod tokens;

pub use tokens::tokens_of;
