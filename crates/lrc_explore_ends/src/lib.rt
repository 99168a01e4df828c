//! Tells whether every order of a program can end. It finds the steps between all settled states, and from which states
//! steps lead to one at which no node can make an act.
#![tactic(auto)]

pub mod answers;
pub mod lost;
pub mod states;
