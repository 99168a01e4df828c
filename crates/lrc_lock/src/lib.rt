//! Locks, each with one token that moves from node to node (Keleher, Cox, Dwarkadas and Zwaenepoel 1994). A node that
//! has the token of a free lock takes the lock without a message. Any other node asks the lock's manager, which knows
//! the last node that asked and forwards the request to it. That node passes the token on, at once if the lock is free
//! there, and otherwise at its release. No call here allocates memory.
#![tactic(auto)]

mod fault;
mod held;
pub mod laws;
mod managed;
mod state;

pub use fault::LockFault;
pub use held::Held;
pub use managed::Managed;
pub use state::{LockState, MOST_LOCKS, Pass, Waiter};
