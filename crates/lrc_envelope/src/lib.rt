//! The messages between nodes: the kinds that lazy release consistency with locks, barriers and collection needs
//! (Keleher, Cox and Zwaenepoel 1992; Amza et al. 1996). Each travels in an envelope with its sender, its receiver and
//! a number. The crate `lrc_wire` turns them into bytes.
#![tactic(auto)]

mod envelope;
mod indices;
mod limits;
mod message;
mod news;
mod parts;
mod picker;

pub use envelope::Envelope;
pub use indices::{FEW_INDICES, Indices};
pub use limits::{MOST_LOCKS, MOST_NODES};
pub use message::{
    Arrive, ChangesReply, ChangesRequest, Clean, Depart, Discard, LockForward, LockGrant,
    LockRequest, Message, PageReply, PageRequest,
};
pub use news::News;
pub use parts::{FEW_PARTS, IndexedChanges, Parts};
pub use picker::Picker;
