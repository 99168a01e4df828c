// What a search through the orders of a program answers, or why it gives no answer.

use std::alloc::AllocError;
use thiserror::Error;

/// What the search found of the orders of a program, besides races.
#[derive(Drop)]
pub struct Findings {
    /// An order after which no node can make an act and some node has neither ended nor trapped, or none if no order
    /// leads there.
    pub stuck: Option<Vec<usize>>,
    /// An order in which a node traps, or none if no node traps in any order.
    pub trap: Option<Vec<usize>>,
}

/// What the search found.
#[derive(Drop)]
pub enum Verdict {
    /// No order races. These are the findings besides.
    RaceFree(Findings),
    /// The last two acts of the order given race.
    Racy { order: Vec<usize> },
}

/// Why the search gave no answer.
#[derive(Clone, Copy, Debug, PartialEq, Eq, Error)]
pub enum ExploreFault {
    /// The number of nodes is not 1 to 16.
    #[error("number of nodes out of range")]
    BadNodes,
    /// The search met more states than allowed.
    #[error("too many states")]
    TooMany,
    /// Memory ran out.
    #[error("out of memory")]
    NoMemory,
}

impl From<AllocError> for ExploreFault {
    ghost use Rattle.std.specs.Prelude.{◌≡◌};
    ghost use Rattle.lrc_orders.specs.declared.search.ExploreFault.TheVariants.{NoMemory};

    ghost from_gives = { λ _ e. e ≡ NoMemory };

    fn from(_error: AllocError) -> ExploreFault {
        ExploreFault::NoMemory
    }
}
