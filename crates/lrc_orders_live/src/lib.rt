//! Liveness of private names: at each place of a program's code, the names whose values the rest of the code may still
//! use. A search need not tell states apart by any other name.
#![tactic(auto)]

mod forget;
pub mod laws;
mod live;

pub use forget::{forget_dead, forget_spot};
pub use live::live_names;
