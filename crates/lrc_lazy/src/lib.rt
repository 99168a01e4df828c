//! Laws of the lazy runs of a program: the runs that any memory with lazy reading may make. Without races the lazy runs
//! are exactly those of the plain machine.
//!
//! Neighbouring acts of different nodes may be swapped, if the second is no acquire and was possible where the first
//! was: the swap keeps the happens-before order, the values that reads may give, and the acts that may come next. So an
//! act that may come next and is no acquire may come before all that other nodes do before it. The machine that makes
//! lazy runs is the plain machine without its memory, together with what each node knows of the writes. `over` decides
//! whether a lazy run has ended.
#![tactic(auto)]

pub mod front_laws;
pub mod laws;
pub mod machine_laws;
pub mod over;
pub mod swapped_laws;
