// Why a named program has no core.

ghost use Rattle.std.specs.Prelude.{◌≡◌};
ghost use Rattle.lrc_named.specs.Faults.{fault_of_text};
ghost use Rattle.lrc_named.specs.declared.fault.NamedFault.TheVariants.{NoMemory};

use lrc_lang::fault::FaultKind as TextKind;
use lrc_named_expression_faults::fault::FaultKind as NameKind;
use lrc_named_parse::TextFault;
use std::alloc::{AllocError, AllocFailed};

/// Why a text that is read as a named program has no core. Lines are counted from 1.
#[derive(Clone, Copy)]
pub enum NamedFault {
    /// The text is no named program as such: the line of its first fault, and the fault.
    Text(u32, TextKind),
    /// Names are not used as what they are: the line of the first fault, and the fault.
    Names(u32, NameKind),
    /// Memory ran out.
    NoMemory,
}

impl From<TextFault> for NamedFault {
    ghost from_gives = { λ fault made. made ≡ fault_of_text fault };

    fn from(fault: TextFault) -> NamedFault {
        match fault.kind {
            TextKind::NoMemory => NamedFault::NoMemory,
            kind => NamedFault::Text(fault.place.line, kind),
        }
    }
}

impl From<AllocError> for NamedFault {
    ghost from_gives = { λ _ made. made ≡ NoMemory };

    fn from(_error: AllocError) -> NamedFault {
        NamedFault::NoMemory
    }
}

impl<T: Drop> From<AllocFailed<T>> for NamedFault {
    ghost from_gives = { λ _ made. made ≡ NoMemory };

    fn from(_error: AllocFailed<T>) -> NamedFault {
        NamedFault::NoMemory
    }
}
