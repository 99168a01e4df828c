// Why a call on a mailbox is refused.

ghost use Rattle.std.specs.Prelude.{◌≡◌};
ghost use Rattle.lrc_post.specs.declared.fault.PostFault.TheVariants.{NoMemory};

use crate::parcel::Parcel;
use std::alloc::AllocError;
use thiserror::Error;

/// Why nothing was put or taken.
#[derive(Clone, Copy, Debug, PartialEq, Eq, Error)]
pub enum PostFault {
    /// The mailbox is closed.
    #[error("the mailbox is closed")]
    Closed,
    /// Memory ran out.
    #[error("out of memory")]
    NoMemory,
}

/// Parcels that were not put, and the reason.
#[derive(Drop)]
pub struct Unput {
    /// Why the first of them was refused.
    pub fault: PostFault,
    /// The parcel that was refused, and all after it.
    pub parcels: Vec<Parcel>,
}

impl From<AllocError> for PostFault {
    ghost from_gives = { λ _ e. e ≡ NoMemory };

    fn from(_error: AllocError) -> PostFault {
        PostFault::NoMemory
    }
}
