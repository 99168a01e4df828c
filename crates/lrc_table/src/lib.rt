//! The page table of one node: its copy of each page of the shared memory, with the copy's state, the twin of each page
//! that it writes, and the base copies that it keeps for others (Keleher, Cox, Dwarkadas and Zwaenepoel 1994). Several
//! nodes may write a page at the same time. So a node describes its writes by the changes (the diff) between the twin
//! and the page, and applies the changes of the other nodes. Changes are made only when they are needed.
#![tactic(auto)]

pub mod laws;
mod slot;
mod table;

pub use slot::State;
pub use table::PageTable;
