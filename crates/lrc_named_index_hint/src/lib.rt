//! The hint of `lint` on an index that is out of range: its value, and the size that the value is not below.
#![tactic(auto)]

mod line;
mod outside;
mod over;
mod set;
mod spots;

pub use line::index_hint;
