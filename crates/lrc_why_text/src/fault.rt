// Why a text of acts is not answered.

ghost use Rattle.std.specs.Prelude.{◌≡◌};
ghost use Rattle.lrc_why_text.specs.declared.fault.WhyFault.TheVariants.{NoMemory};
ghost use Rattle.lrc_why_text.specs.Faults.{of_acts_fault};

use lrc_acts::reading::ActsFault;
use std::alloc::AllocError;

/// Why a text of acts was not answered.
#[derive(Clone, Copy, Debug, PartialEq, Eq)]
pub enum WhyFault {
    /// The text is longer than a text of acts may be.
    TooLong,
    /// The line with this number, counted from 1, is not an act.
    BadAct(u32),
    /// There is no act at this position: there are only so many acts.
    NoAct(usize, usize),
    /// Memory ran out.
    NoMemory,
}

impl From<ActsFault> for WhyFault {
    ghost from_gives = { λ fault gives. gives ≡ of_acts_fault fault };

    fn from(fault: ActsFault) -> WhyFault {
        match fault {
            ActsFault::TooLong => WhyFault::TooLong,
            ActsFault::BadAct(line) => WhyFault::BadAct(line),
            ActsFault::NoMemory => WhyFault::NoMemory,
        }
    }
}

impl From<AllocError> for WhyFault {
    ghost from_gives = { λ _ fault. fault ≡ NoMemory };

    fn from(_error: AllocError) -> WhyFault {
        WhyFault::NoMemory
    }
}
