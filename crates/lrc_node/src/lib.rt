//! One node of the distributed shared memory: what each of its turns does. In a turn the node goes on by one statement,
//! or takes one message (Keleher, Cox, Dwarkadas and Zwaenepoel 1994; Amza et al. 1996). In contracts a node is that of
//! the protocol machine in `lrc_protocol`.
#![tactic(auto)]

// A node, alone and with its log, and what its calls are given and give.
mod fault;
pub mod laws;
mod logged;
mod node;
mod note;
mod options;
mod state;
mod turn;

// What it does in a turn.
mod turns;

// Its own intervals, and news of those of others.
mod intervals;

// Acquires and releases.
mod locks;

// Arrivals and departures.
mod barriers;

// What is kept at a barrier, and what is discarded.
mod collections;

// Accesses, and what is fetched for them.
mod pages;

pub use fault::NodeFault;
pub use logged::Logged;
pub use lrc_trace::end::End;
pub use node::Node;
pub use options::{Options, options_of};
pub use state::NodeState;
