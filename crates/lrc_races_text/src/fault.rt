// Why a trace is judged no further.
ghost use Rattle.std.specs.Prelude.{◌≡◌};
ghost use Rattle.lrc_races_text.specs.declared.fault.Fault.TheVariants.{NoMemory};

use std::alloc::{AllocError, AllocFailed};

/// Why the judging of a trace stopped.
#[derive(Drop)]
pub enum Fault {
    /// The line with this number, counted from 1, does not have the form of a line of the trace, and this says why.
    BadEvent(u64, Vec<u8>),
    /// Memory ran out, or a count of lines, events, names or races would pass its limit.
    NoMemory,
}

impl<T: Drop> From<AllocFailed<T>> for Fault {
    ghost from_gives = { λ _ fault. fault ≡ NoMemory };

    fn from(_error: AllocFailed<T>) -> Fault {
        Fault::NoMemory
    }
}

impl From<AllocError> for Fault {
    ghost from_gives = { λ _ fault. fault ≡ NoMemory };

    fn from(_error: AllocError) -> Fault {
        Fault::NoMemory
    }
}
