// Why a judgement was not written to its end.

ghost use Rattle.std.specs.Prelude.{◌≡◌};
ghost use Rattle.lrc_judge_text.specs.declared.broken_off.BrokenOff.TheVariants.{NoMemory, Unwritten};

use std::alloc::AllocError;
use std::io;
use thiserror::Error;

/// Why a judgement was not written to its end.
#[derive(Debug, Drop, Error)]
pub enum BrokenOff {
    /// A write failed.
    #[error("a write failed: {0}")]
    Unwritten(io::Error),
    /// Memory ran out.
    #[error("out of memory")]
    NoMemory,
}

impl From<io::Error> for BrokenOff {
    ghost from_gives = { λ error broken. broken ≡ Unwritten error };

    fn from(error: io::Error) -> BrokenOff {
        BrokenOff::Unwritten(error)
    }
}

impl From<AllocError> for BrokenOff {
    ghost from_gives = { λ _ broken. broken ≡ NoMemory };

    fn from(_error: AllocError) -> BrokenOff {
        BrokenOff::NoMemory
    }
}
