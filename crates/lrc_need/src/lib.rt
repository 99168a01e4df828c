//! What a node needs of pages, and what it waits for. A node needs changes if it misses a page, or if it must keep a
//! new base copy in a collection. It asks the makers for the changes that its copy lacks; for an absent page it first
//! asks the page's keeper for a base copy (Amza et al. 1996). A need lists what has not arrived yet. A node waits until
//! its needs are met, or for the grant of a lock, the departure from a barrier, or the message to discard.
#![tactic(auto)]

mod asked;
mod base;
pub mod laws;
mod need;
mod wait;

pub use asked::Asked;
pub use base::Base;
pub use need::Need;
pub use wait::{Collection, Wait};
