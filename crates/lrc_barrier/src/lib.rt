//! Barriers with one manager (Keleher, Cox, Dwarkadas and Zwaenepoel 1994). Each node arrives with its time and the
//! intervals that it has closed since it last departed. Once all have arrived, each departs with the join of all times
//! and the intervals that it lacks. If a node asks for it, a collection follows: every node brings its copies up to
//! date and sends a Clean, and after the last Clean all may discard what is old (Amza et al. 1996).
#![tactic(auto)]

mod arrival;
mod departing;
mod departure;
mod fault;
pub mod laws;
mod manager;

pub use arrival::Arrival;
pub use departure::{Departure, Departures};
pub use fault::BarrierFault;
pub use manager::Manager;
