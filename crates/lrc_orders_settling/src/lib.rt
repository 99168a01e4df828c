//! Settles threads and states, for the search through the settled states of a program. A thread settles by its free
//! acts, until its next act is not free or it turns for ever; a table numbers the settled threads. A step leads from one
//! settled state to the next: a read, a write or an acquire of one node, or the departs of all nodes; the nodes then
//! settle again.
#![tactic(auto)]

pub mod settle;
pub mod settling;
pub mod step;
pub mod table;
pub mod turning;
