//! The answer of `lint` to a named program without a fault: its warnings.
#![tactic(auto)]

mod core_side;
mod tokens;
mod warned;

pub use warned::lint_sound;
