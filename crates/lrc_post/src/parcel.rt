// Parcels, and the entries of a mailbox's history.

use bytes::Bytes;

/// A message on its way to a node.
#[derive(Drop)]
pub struct Parcel {
    /// The node that receives it.
    pub to: u8,
    /// The stamp of the turn that sent it. Stamps order the turns of all nodes.
    pub stamp: u64,
    /// The bytes of the message, shared rather than copied.
    pub bytes: Bytes,
}

/// One entry of a mailbox's history.
#[derive(Drop)]
pub enum Wire {
    /// A node put a parcel.
    Put {
        /// The node that put it.
        from: u8,
        /// The node that receives it.
        to: u8,
        /// The stamp of the turn that sent it.
        stamp: u64,
        /// The bytes of the message.
        bytes: Bytes,
    },
    /// The owner took a parcel.
    Took {
        /// The owner.
        me: u8,
        /// The place of the parcel's put in this history.
        place: usize,
    },
}
