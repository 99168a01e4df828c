//! Builds a picture of happens before from a text of acts, which need not come from a run of this program. Each act has
//! a row. An arrow shows that a lock passes from one node to another, if nothing else orders the two acts.
//!
//! Decisions:
//!
//! - The picture of a text of acts shows line numbers up to 999,999,999 and no labels. Its barriers are bands
//!   between the rows shown.
#![tactic(auto)]

mod closings;
mod direct;
mod fault;
pub mod laws;
mod portrait;
mod rows;
mod shown;
mod times;

pub use fault::ActsChartFault;
pub use portrait::portrait_of_acts;
