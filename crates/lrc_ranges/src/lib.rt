//! Ranges of values: what values an expression can have if its names have values in these ranges, and what is left of
//! the ranges of names where a condition holds or fails. Each answer is a superset: no value is missed.
#![tactic(auto)]

pub mod evaluate;
pub mod narrow;
pub mod operate;
pub mod range;
