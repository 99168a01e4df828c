//! The parts from which the texts about a run are put together: numbers, acts and races in words. The crate also reads
//! numbers from decimal digits.
#![tactic(auto)]

mod act;
mod number;
mod race;

pub use act::{deed_name, push_act, push_act_line, push_deed};
pub use number::{push_number, push_wide_number, read_number};
pub use race::{first_race_part, push_race, races_part};
