// Why a run on threads has no report.

ghost use Rattle.std.specs.Prelude.{◌≡◌};
ghost use Rattle.lrc_run.specs.declared.fault.RunFault.TheVariants.{NoMemory};

use std::alloc::AllocError;
use thiserror::Error;

/// Why a run on threads has no report.
#[derive(Clone, Copy, Debug, PartialEq, Eq, Error)]
pub enum RunFault {
    /// The number of nodes is not within 1 to 16.
    #[error("number of nodes out of range")]
    BadNodes,
    /// The number of steps is not within 1 to 1,000,000.
    #[error("number of steps out of range")]
    BadSteps,
    /// A message number, an interval's index, a stamp or the length of a message would pass its limit.
    #[error("message numbers used up")]
    Worn,
    /// The nodes' turns and the mailboxes' histories do not record the same messages. Or a node could still have gone
    /// on, or a message was still on its way, or was still to be given once more. Or a node wore out, and the turns do
    /// not tell why.
    #[error("logs and wires differ")]
    Mismatch,
    /// Memory ran out, or there was none for a thread.
    #[error("out of memory")]
    NoMemory,
}

impl From<AllocError> for RunFault {
    ghost from_gives = { λ _ e. e ≡ NoMemory };

    fn from(_error: AllocError) -> RunFault {
        RunFault::NoMemory
    }
}
