//! How near two words are: the least number of single bytes that are changed, put in or taken out between them, up to two.
#![tactic(auto)]

mod changes;
mod choice;

pub use changes::distance;
pub use choice::nearest;
