//! What the names of a named program mean. A declared name is a constant with a value, an item (a shared word, a lock or an
//! array of them) with its place among the words or locks, or a function. The crate defines the table of what is declared.
#![tactic(auto)]

pub mod item;
pub mod names;
