//! The theorems on what a copy of a page holds in lazy release consistency with multiple writers, whose changes (diffs)
//! are merged (Keleher, Cox and Zwaenepoel 1992). A copy *fits* a list of intervals if each of its words is 0 or the
//! last value that a member wrote there, and is the last writer's value (0 without a writer) if the members that wrote
//! the word are ordered. The theorems say which steps keep the fit, and that reading a copy that fits is lazy. Each
//! function is a law: it does nothing.
#![tactic(auto)]

pub mod page;
pub mod reading;
pub mod times;
pub mod word;
