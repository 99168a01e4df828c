// Why a message about a lock is refused.

use thiserror::Error;

/// Why a lock message was refused.
#[derive(Clone, Copy, Debug, PartialEq, Eq, Error)]
pub enum LockFault {
    /// Another node manages the lock; or the token is neither here nor awaited; or a node would be its own successor.
    #[error("the lock is not this node's concern")]
    NotMine,
    /// The token arrived, but this node had not asked for it.
    #[error("the token was not asked for")]
    NotAsked,
    /// Another node already waits to have the token next.
    #[error("another node has the token next")]
    SecondSuccessor,
}
