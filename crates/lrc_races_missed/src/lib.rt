//! What a detector's report missed of a trace: of each sort of claim what is so and was not claimed.
#![tactic(auto)]

pub mod events;
pub mod key;
pub mod keys;
pub mod locations;
pub mod pairs;
pub mod variables;
