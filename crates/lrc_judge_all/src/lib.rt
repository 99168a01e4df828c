//! A judgement of acts that names every read that gives a value that it may not give, and every read that is not in order,
//! each once and by position, where a plain judgement names the first alone. All else in it is as there.
//!
//! Of each read it is asked what the acts before it allow, as they are: a read that gave a wrong value changes nothing
//! for those behind it.
#![tactic(auto)]

mod disorders;
mod judge;
mod kept;
mod learning;
mod misreads;
mod place;
mod reader;

pub use judge::judge_all;
