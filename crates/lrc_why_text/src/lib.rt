//! Answers the command `why` in words. About one act it tells the reasons, about two acts it tells how they are
//! ordered. `why_acts` answers for a text of acts.
#![tactic(auto)]

mod about;
pub mod acts;
pub mod asked;
pub mod fault;
mod forward;
mod known;
pub mod whole;
