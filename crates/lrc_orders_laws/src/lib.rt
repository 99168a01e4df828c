//! Laws of the orders of a program. Settled states: to know every order it is enough to look at the orders that part at
//! reads, writes, acquires, and departs of all nodes. Threads that go on alike, such as threads that differ only in a
//! name that nothing depends on any more: states with such threads have the same steps, runs, races and outcomes.
#![tactic(auto)]

pub mod alike_laws;
pub mod settled_laws;
