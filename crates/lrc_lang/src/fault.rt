// Why a text is no program.

ghost use Rattle.std.specs.Prelude.{◌≡◌};
ghost use Rattle.lrc_lang.specs.declared.fault.FaultKind.TheVariants.{NoMemory};

use std::alloc::{AllocError, AllocFailed};
use thiserror::Error;

/// What is wrong with a text. For one token the kinds are tried in this order, from `BadByte` to `OverLimit`.
#[derive(Clone, Copy, Debug, PartialEq, Eq, Error)]
pub enum FaultKind {
    /// The text has more than 65,536 bytes. This is tried before anything else.
    #[error("text too long")]
    TooLong,
    /// The byte begins no token.
    #[error("bad byte")]
    BadByte,
    /// A number is over 2^64 - 1, or a letter or `_` directly follows its digits.
    #[error("bad number")]
    BadNumber,
    /// No program begins with the tokens up to and including this one.
    #[error("unexpected token")]
    Unexpected,
    /// A `{` or `(` would be the 33rd open one.
    #[error("nested too deep")]
    TooDeep,
    /// A name would be the 33rd different one.
    #[error("too many names")]
    TooManyNames,
    /// The number of words is not 1 to 65,536, the number of locks is over 64, or an expression has a 257th operator.
    #[error("over a limit")]
    OverLimit,
    /// Memory ran out. This may come in place of any other answer.
    #[error("out of memory")]
    NoMemory,
}

impl From<AllocError> for FaultKind {
    ghost from_gives = { λ _ kind. kind ≡ NoMemory };

    fn from(_error: AllocError) -> FaultKind {
        FaultKind::NoMemory
    }
}

impl<T: Drop> From<AllocFailed<T>> for FaultKind {
    ghost from_gives = { λ _ kind. kind ≡ NoMemory };

    fn from(_error: AllocFailed<T>) -> FaultKind {
        FaultKind::NoMemory
    }
}

/// The first fault of a text, and the line of the token that has it. Lines are counted from 1, by line feeds, and the
/// end of the text is a token too. The line is 0 if memory ran out.
#[derive(Clone, Copy, Debug, PartialEq, Eq, Error)]
#[error("line {line}: {kind}")]
pub struct ParseFault {
    pub line: u32,
    pub kind: FaultKind,
}
