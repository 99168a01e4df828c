//! The claims of a detector's report judged: whether each is true of a trace, and if not, the first reason why.
#![tactic(auto)]

pub mod access;
pub mod asking;
pub mod firsts;
pub mod judge;
pub mod judge_all;
pub mod judging;
pub mod known;
pub mod naming;
pub mod places;
pub mod racing;
pub mod spelling;
pub mod turns;
pub mod verdict;
