//! Laws of the labels of a core: from the text that `core` prints of a named program just the labels of what it declares are read.
#![tactic(auto)]

pub mod laws;
