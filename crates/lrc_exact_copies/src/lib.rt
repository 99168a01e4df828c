//! A node's copy of the exact memory, as a judge keeps it: the words that the node wrote or learned, what its open
//! interval wrote, and how many intervals of each node it knows. What a closed interval did is kept once for all nodes.
#![tactic(auto)]

mod changes;
pub mod copy;
pub mod learning;
pub mod made;
