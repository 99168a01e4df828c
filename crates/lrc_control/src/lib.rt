//! The parts of a node that do not need its memory: its text, its clock with the tokens of locks, its part in barriers,
//! and how it ended. In contracts each part is that of the protocol machine in `lrc_protocol`.
#![tactic(auto)]

mod barrier;
mod clock;
mod text;

pub use barrier::Barrier;
pub use clock::Clock;
pub use text::Text;
