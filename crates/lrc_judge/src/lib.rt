//! The judge: plain programs that decide the definitions of the model for any list of acts, from any source. They
//! compute happens before, find races, and check lazy reading and synchronization. They are the reference for every
//! faster implementation, and authors of race detectors and memory systems can judge their traces with them.
#![tactic(auto)]

ghost use Rattle.std.specs.Prelude.{◌<◌, ◌↔◌, All, IsTrue};

use lrc_time::MOST_NODES;
use lrc_trace::act::Act;

mod accesses;
mod entries;
pub mod first;
pub mod first_pairs;
mod firsts;
mod guesses;
pub mod in_order;
mod lanes;
mod latest;
pub mod laws;
pub mod order;
pub mod pairs;
mod past;
pub mod races;
mod reach;
pub mod reading;
pub mod synchronization;
mod touched;
mod written;

pub use firsts::intervals_of;

/// The largest number of nodes of a run.
pub const NODES: usize = MOST_NODES;

/// How many lock numbers an act can name.
const LOCKS: usize = 256;

/// Returns whether every act is of a node from 0 to 15, as the judge requires.
pub fn are_in_range(acts: &[Act]) -> bool
    ensures { IsTrue result ↔ All (λ act. act.node < NODES) acts.now }
{
    acts.iter().all(|act| usize::from(act.node) < NODES)
}
