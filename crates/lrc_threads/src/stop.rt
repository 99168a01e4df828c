// Why a node's thread stops.

ghost use Rattle.std.specs.Prelude.{◌≡◌};
ghost use Rattle.lrc_threads.specs.declared.stop.Stop.TheVariants.{NoMemory};

use std::alloc::{AllocError, AllocFailed};
use thiserror::Error;

/// Why a node's thread stopped early.
#[derive(Clone, Copy, Debug, PartialEq, Eq, Error)]
pub enum Stop {
    /// The post was closed while the node had messages to send.
    #[error("the post is closed")]
    Closed,
    /// A message number, an interval's index, a stamp or the length of a message would pass its limit.
    #[error("message numbers used up")]
    Worn,
    /// Memory ran out.
    #[error("out of memory")]
    NoMemory,
}

impl From<AllocError> for Stop {
    ghost from_gives = { λ _ e. e ≡ NoMemory };

    fn from(_error: AllocError) -> Stop {
        Stop::NoMemory
    }
}

impl<T: Drop> From<AllocFailed<T>> for Stop {
    ghost from_gives = { λ _ e. e ≡ NoMemory };

    fn from(_error: AllocFailed<T>) -> Stop {
        Stop::NoMemory
    }
}
