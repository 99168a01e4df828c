//! The limits that the core of a named program has to keep: the operators of its expressions, the `{` and `(` that are open
//! in its text, and the names of the translation's own. The crate defines them, and says which statement of the named
//! program is the first whose core is over one.
#![tactic(auto)]

pub mod excess;
pub mod measure;
mod statements;

pub use statements::first_excess;
