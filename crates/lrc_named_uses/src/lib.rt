//! Where the names of a named program are used: declared names that nothing uses, and loops that wait for shared items but
//! learn of no write of another node.
#![tactic(auto)]

mod deeds;
mod loops;
mod names;
mod shadows;
mod shared;
mod spots;
mod unused;

pub use loops::loops_in;
pub use unused::unused_of;
