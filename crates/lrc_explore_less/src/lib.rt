//! Searches the settled states of a program as `lrc_explore` does, but makes undisputed acts at once, as it makes free
//! ones: of a state from which such an act is known, only this act's step is taken. So far fewer states are met, and
//! what is found is the same.
#![tactic(auto)]

pub mod answers;
pub mod ended;
pub mod less;
pub mod seek;
pub mod soon;
