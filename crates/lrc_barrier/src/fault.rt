// Why an arrival or a Clean is refused.

ghost use Rattle.std.specs.Prelude.{◌≡◌};
ghost use Rattle.lrc_barrier.specs.declared.fault.BarrierFault.TheVariants.{NoMemory};

use std::alloc::{AllocError, AllocFailed};
use thiserror::Error;

/// Why an arrival or a Clean was refused.
#[derive(Clone, Copy, Debug, PartialEq, Eq, Error)]
pub enum BarrierFault {
    /// The arrival is not for the next episode, or a collection is under way. Or the Clean is not for the collection
    /// under way.
    #[error("the wrong episode")]
    WrongEpisode,
    /// The node has already arrived at this episode, or has already sent its Clean for this collection.
    #[error("once more in the same episode")]
    Twice,
    /// Memory ran out.
    #[error("out of memory")]
    NoMemory,
}

impl From<AllocError> for BarrierFault {
    ghost from_gives = { λ _ e. e ≡ NoMemory };

    fn from(_error: AllocError) -> BarrierFault {
        BarrierFault::NoMemory
    }
}

impl<T: Drop> From<AllocFailed<T>> for BarrierFault {
    ghost from_gives = { λ _ e. e ≡ NoMemory };

    fn from(_error: AllocFailed<T>) -> BarrierFault {
        BarrierFault::NoMemory
    }
}
