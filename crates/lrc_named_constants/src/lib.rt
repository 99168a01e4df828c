//! Constant expressions of named programs: which expressions are constant, and what their values are. With them the crate
//! defines the layout of what is declared.
#![tactic(auto)]

mod combine;
pub mod constancy;
mod expressions;

pub use expressions::{Constants, bind, known_parameter, parameter_place};
