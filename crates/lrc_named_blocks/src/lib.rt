//! The core of blocks of named programs: the core of the statements that have statements within, and of statements one
//! behind the other.
#![tactic(auto)]

mod blocks;

pub use blocks::Blocks;
