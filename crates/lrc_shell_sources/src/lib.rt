//! The files that `treadmarks` reads, whole or block by block, and standard input. The contracts say what is known
//! about the contents. The crate also writes the lines on standard error if a file cannot be read or memory runs out.
#![tactic(auto)]

pub mod blocks;
pub mod refusal;
pub mod sources;
