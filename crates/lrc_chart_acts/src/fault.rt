// Why there is no picture of acts.

ghost use Rattle.std.specs.Prelude.{◌≡◌};
ghost use Rattle.lrc_chart_acts.specs.Picture.{of_acts_fault};
ghost use Rattle.lrc_chart_acts.specs.declared.fault.ActsChartFault.TheVariants.{NoMemory};

use lrc_acts::reading::ActsFault;
use std::alloc::AllocError;

/// Why a text of acts has no picture.
#[derive(Clone, Copy, Debug, PartialEq, Eq)]
pub enum ActsChartFault {
    /// The text is longer than a text of acts may be.
    LongActs,
    /// The line with this number, counted from 1, is not an act.
    BadAct(u32),
    /// There are more rows than a picture may show.
    TooLong,
    /// Memory ran out.
    NoMemory,
}

impl From<ActsFault> for ActsChartFault {
    ghost from_gives = { λ fault gives. gives ≡ of_acts_fault fault };

    fn from(fault: ActsFault) -> ActsChartFault {
        match fault {
            ActsFault::TooLong => ActsChartFault::LongActs,
            ActsFault::BadAct(line) => ActsChartFault::BadAct(line),
            ActsFault::NoMemory => ActsChartFault::NoMemory,
        }
    }
}

impl From<AllocError> for ActsChartFault {
    ghost from_gives = { λ _ fault. fault ≡ NoMemory };

    fn from(_error: AllocError) -> ActsChartFault {
        ActsChartFault::NoMemory
    }
}
