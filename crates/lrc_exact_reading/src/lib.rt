//! What reads of the exact memory give, in the terms of the writes that happen before them.
//!
//! Acts that read exactly read lazily, and steadily: a read gives the value of a write that happens before it and is the last in
//! its interval, and the same until its node writes the word, acquires or departs. If no two acts race, the exact memory is the
//! one flat memory of the plain machine. All this holds with collections and without.
#![tactic(auto)]

pub mod laws;
