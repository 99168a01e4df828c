//! Counts what happened in a run, from the logs of the nodes: turns, acts, misses, what was learned, and messages with
//! their bytes. TreadMarks printed such counts at exit (Keleher, Cox, Dwarkadas and Zwaenepoel 1994).
#![tactic(auto)]

mod deed_kind;
mod learned;
mod seen;
mod sent;
mod stats;
mod turns;

pub use stats::stats_part;
pub use turns::turns_made;
