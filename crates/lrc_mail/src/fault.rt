// Why letters were not numbered.

ghost use Rattle.std.specs.Prelude.{◌≡◌};
ghost use Rattle.lrc_mail.specs.declared.fault.MailFault.TheVariants.{NoMemory};

use std::alloc::{AllocError, AllocFailed};
use thiserror::Error;

/// Why letters were not numbered.
#[derive(Clone, Copy, Debug, PartialEq, Eq, Error)]
pub enum MailFault {
    /// A number would pass 4,294,967,295.
    #[error("a message number would be too large")]
    Worn,
    /// No memory was left.
    #[error("out of memory")]
    NoMemory,
}

impl From<AllocError> for MailFault {
    ghost from_gives = { λ _ e. e ≡ NoMemory };

    fn from(_error: AllocError) -> MailFault {
        MailFault::NoMemory
    }
}

impl<T: Drop> From<AllocFailed<T>> for MailFault {
    ghost from_gives = { λ _ e. e ≡ NoMemory };

    fn from(_error: AllocFailed<T>) -> MailFault {
        MailFault::NoMemory
    }
}
