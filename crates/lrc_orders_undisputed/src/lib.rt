//! Laws of undisputed acts. An act of a node is undisputed if no order of the other nodes leads to where one of them is
//! about to make an act that conflicts with it: an access of the same word, one of the two a write, or an acquire of the
//! same lock. A search may make such an act at once: nothing that it looks for is lost. (In the field: a persistent set
//! of one act.)
#![tactic(auto)]

pub mod laws;
