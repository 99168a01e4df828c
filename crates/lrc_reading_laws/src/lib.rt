//! The main theorems about every run of the protocol machine: each read is lazy, and a run without a race is
//! sequentially consistent. Beneath them are the invariants of coherence: what the nodes store, tell one another and
//! hold of the pages. The crate has laws only.
#![tactic(auto)]

pub mod barriers;
pub mod grants;
pub mod made;
pub mod messages;
pub mod requests;
pub mod theorem;
pub mod traces;
