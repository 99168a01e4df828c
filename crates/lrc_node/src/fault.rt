// Why a node doesn't take its turn.

ghost use Rattle.std.specs.Prelude.{◌≡◌};
ghost use Rattle.lrc_node.specs.Fault.{is_final};
ghost use Rattle.lrc_node.specs.declared.fault.NodeFault.TheVariants.{NoMemory};

use std::alloc::{AllocError, AllocFailed};
use thiserror::Error;

/// Why a node did not make its turn.
#[derive(Clone, Copy, Debug, PartialEq, Eq, Error)]
pub enum NodeFault {
    /// An earlier turn of the node failed with `Worn` or `NoMemory`.
    #[error("the node has failed before")]
    Failed,
    /// The node waits, has stopped, or has used up its steps.
    #[error("the node is not ready")]
    NotReady,
    /// The node does not expect the message.
    #[error("the message is not expected")]
    Unexpected,
    /// A message number, the index of an interval or the stamp of a turn would be too large.
    #[error("message numbers used up")]
    Worn,
    /// No memory was left.
    #[error("out of memory")]
    NoMemory,
}

impl NodeFault {
    /// Returns whether this fault makes the node fail.
    pub(crate) fn is_final(self) -> bool
        ensures { result ≡ is_final self }
    {
        matches!(self, NodeFault::Worn | NodeFault::NoMemory)
    }
}

impl From<AllocError> for NodeFault {
    ghost from_gives = { λ _ e. e ≡ NoMemory };

    fn from(_error: AllocError) -> NodeFault {
        NodeFault::NoMemory
    }
}

impl<T: Drop> From<AllocFailed<T>> for NodeFault {
    ghost from_gives = { λ _ e. e ≡ NoMemory };

    fn from(_error: AllocFailed<T>) -> NodeFault {
        NodeFault::NoMemory
    }
}
