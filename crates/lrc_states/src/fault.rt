// Why there are no lines.

ghost use Rattle.std.specs.Prelude.{◌≡◌};
ghost use Rattle.lrc_states.specs.declared.fault.StatesFault.TheVariants.{NoMemory};

use std::alloc::{AllocError, AllocFailed};
use thiserror::Error;

/// Why the turns of a run were not shown.
#[derive(Clone, Copy, Debug, PartialEq, Eq, Error)]
pub enum StatesFault {
    /// More than 2,000 turns would be shown.
    #[error("more than 2000 turns")]
    TooLong,
    /// Memory ran out.
    #[error("out of memory")]
    NoMemory,
}

impl From<AllocError> for StatesFault {
    ghost from_gives = { λ _ fault. fault ≡ NoMemory };

    fn from(_: AllocError) -> StatesFault {
        StatesFault::NoMemory
    }
}

impl<T: Drop> From<AllocFailed<T>> for StatesFault {
    ghost from_gives = { λ _ fault. fault ≡ NoMemory };

    fn from(_: AllocFailed<T>) -> StatesFault {
        StatesFault::NoMemory
    }
}
