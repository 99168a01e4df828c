//! Where a node may come to before its next barrier: its text is followed from where it stands, through every branch
//! that may be taken, with a range for the values of each private name.
#![tactic(auto)]

pub mod ahead;
pub mod follow;
pub mod standing;
