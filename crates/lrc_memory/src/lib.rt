//! The memory of one node under lazy release consistency: its copies of the pages, the intervals that it knows with
//! their changes (diffs), and which node keeps the base copy of which page (Keleher, Cox, Dwarkadas and Zwaenepoel
//! 1994; Amza et al. 1996).
#![tactic(auto)]

mod collecting;
mod fetching;
mod learning;
mod memory;
mod seen;
mod settle;

pub use memory::Memory;
pub use seen::SeenCopy;
