// Why logs and mailboxes cannot be woven.

ghost use Rattle.std.specs.Prelude.{◌≡◌};
ghost use Rattle.lrc_weave.specs.declared.fault.WeaveFault.TheVariants.{NoMemory};

use std::alloc::{AllocError, AllocFailed};
use thiserror::Error;

/// Why logs and mailboxes cannot be woven.
#[derive(Clone, Copy, Debug, PartialEq, Eq, Error)]
pub enum WeaveFault {
    /// The mailboxes record other messages than the logs, or another order of what a node sent or took. Of `events_of`
    /// and `events_with`, which see no mailboxes: a message was taken that no log sent before, or the message of the
    /// turn to add is not in flight.
    #[error("logs and mailboxes differ")]
    Mismatch,
    /// Memory ran out.
    #[error("out of memory")]
    NoMemory,
}

impl From<AllocError> for WeaveFault {
    ghost from_gives = { λ _ e. e ≡ NoMemory };

    fn from(_error: AllocError) -> WeaveFault {
        WeaveFault::NoMemory
    }
}

impl<T: Drop> From<AllocFailed<T>> for WeaveFault {
    ghost from_gives = { λ _ e. e ≡ NoMemory };

    fn from(_error: AllocFailed<T>) -> WeaveFault {
        WeaveFault::NoMemory
    }
}
