//! The theorems that compare a run of the shared memory with the plain machine, which has one flat memory. A run
//! without a race is one of the plain machine if it follows the program's text, is well synchronized and reads lazily.
//! A run with races is one up to its first race.
#![tactic(auto)]

pub mod plain;
