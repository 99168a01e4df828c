//! Why bytes are no message, and why a message has no bytes.

ghost use Rattle.std.specs.Prelude.{◌≡◌};
ghost use Rattle.lrc_wire.specs.declared.fault.EncodeFault.TheVariants as encode_faults;
ghost use Rattle.lrc_wire.specs.declared.fault.WireFault.TheVariants.{NoMemory};

use std::alloc::{AllocError, AllocFailed};
use thiserror::Error;

/// Why bytes could not be read: the first fault from the left.
#[derive(Clone, Copy, Debug, PartialEq, Eq, Error)]
pub enum WireFault {
    /// A field runs past the end of the bytes.
    #[error("the message is cut short")]
    Short,
    /// Bytes follow the message.
    #[error("bytes stand after the message")]
    Long,
    /// The version is neither 1 nor 2.
    #[error("unknown version")]
    BadVersion,
    /// The kind is not 1 to 11.
    #[error("unknown kind")]
    BadKind,
    /// A node is out of range.
    #[error("a node is out of range")]
    BadNode,
    /// Another number is out of range, or two times have different numbers of entries.
    #[error("a number is out of range")]
    BadCount,
    /// An element of an ascending list is not above the one before it.
    #[error("a list does not ascend")]
    NotAscending,
    /// No memory was left.
    #[error("out of memory")]
    NoMemory,
}

/// Why an envelope was not written.
#[derive(Clone, Copy, Debug, PartialEq, Eq, Error)]
pub enum EncodeFault {
    /// The body would have more than 16,777,216 bytes.
    #[error("the message is too long")]
    TooLong,
    /// No memory was left.
    #[error("out of memory")]
    NoMemory,
}

impl From<AllocError> for WireFault {
    ghost from_gives = { λ _ e. e ≡ NoMemory };

    fn from(_error: AllocError) -> WireFault {
        WireFault::NoMemory
    }
}

impl<T: Drop> From<AllocFailed<T>> for WireFault {
    ghost from_gives = { λ _ e. e ≡ NoMemory };

    fn from(_error: AllocFailed<T>) -> WireFault {
        WireFault::NoMemory
    }
}

impl From<AllocError> for EncodeFault {
    ghost from_gives = { λ _ e. e ≡ encode_faults.NoMemory };

    fn from(_error: AllocError) -> EncodeFault {
        EncodeFault::NoMemory
    }
}

impl<T: Drop> From<AllocFailed<T>> for EncodeFault {
    ghost from_gives = { λ _ e. e ≡ encode_faults.NoMemory };

    fn from(_error: AllocFailed<T>) -> EncodeFault {
        EncodeFault::NoMemory
    }
}
