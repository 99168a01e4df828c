//! The faults of named programs that the grammar does not tell: of declarations, and of whole programs. The crate defines
//! them, and finds what a named program declares, where it has no fault, or its first fault.
#![tactic(auto)]

mod declarations;
pub mod items;
pub mod layout;
mod program;
pub mod values;

pub use program::check;
