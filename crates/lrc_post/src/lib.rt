//! The post between nodes that run on separate threads. Each node has one mailbox: other nodes put messages there, and
//! the owner takes them. A mailbox keeps every put and take, in order, so that a finished run can be examined. A
//! message (a parcel) is given to the owner once, or twice, as a network that repeats messages would do.
//!
//! Decisions:
//!
//! - `Mailbox::new` reserves room for an entry from each node, so it may lack memory. The post makes its mailboxes
//!   without room.
//! - A parcel stands in a queue once for each time that it is still to be given. So no mark "given once" is
//!   needed, nor its proof.
//! - A parcel for a node without a mailbox is refused as `Closed`.
#![tactic(auto)]

mod fault;
mod mailbox;
mod parcel;
mod post;
mod queue;
mod wires;

pub use fault::{PostFault, Unput};
pub use mailbox::Mailbox;
pub use parcel::{Parcel, Wire};
pub use post::Post;
pub use wires::Wires;
