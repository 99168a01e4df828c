// Why the judging of a trace stops.
ghost use Rattle.std.specs.Prelude.{◌≡◌};
ghost use Rattle.lrc_races_text.specs.declared.halt.Halt.TheVariants.{NoMemory};
ghost use Rattle.lrc_races_text.specs.Halt.{halt_of};

use crate::fault::Fault;
use crate::ill::Ill;
use std::alloc::{AllocError, AllocFailed};

/// Why the judging of a trace stopped.
#[derive(Drop)]
pub enum Halt {
    /// The line with this number, counted from 1, does not have the form of a line of the trace, and this says why.
    BadEvent(u64, Vec<u8>),
    /// No program would give this event, and strictness is asked for.
    IllFormed(Ill),
    /// Memory ran out, or a count of lines, events, names or races would pass its limit.
    NoMemory,
}

/// Returns the halt at a fault of a line.
pub fn halt_of(fault: Fault) -> Halt
    ensures { result ≡ halt_of fault }
{
    match fault {
        Fault::BadEvent(line, why) => Halt::BadEvent(line, why),
        Fault::NoMemory => Halt::NoMemory,
    }
}

impl From<Fault> for Halt {
    ghost from_gives = { λ fault halt. halt ≡ halt_of fault };

    fn from(fault: Fault) -> Halt {
        halt_of(fault)
    }
}

impl<T: Drop> From<AllocFailed<T>> for Halt {
    ghost from_gives = { λ _ halt. halt ≡ NoMemory };

    fn from(_error: AllocFailed<T>) -> Halt {
        Halt::NoMemory
    }
}

impl From<AllocError> for Halt {
    ghost from_gives = { λ _ halt. halt ≡ NoMemory };

    fn from(_error: AllocError) -> Halt {
        Halt::NoMemory
    }
}
