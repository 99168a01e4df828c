// What a run answers.

ghost use Rattle.std.specs.Prelude.{◌≡◌};
ghost use Rattle.lrc_world.specs.Report.{of_turns};
ghost use Rattle.lrc_world.specs.declared.report.SimFault.TheVariants as faults;
ghost use Rattle.lrc_world.specs.declared.report.TurnFault.TheVariants.{NoMemory};

use lrc_log::Entry;
use lrc_node::End;
use lrc_trace::act::Act;
use lrc_trace::race::Race;
use std::alloc::{AllocError, AllocFailed};
use thiserror::Error;

/// The most events that a run in rounds or in a random order has.
pub const MOST_EVENTS: usize = 100_000_000;

/// The result of a run.
#[derive(Drop)]
pub struct Report {
    /// The acts of all nodes, in order.
    pub acts: Vec<Act>,
    /// How each node ended, from node 0 up.
    pub ends: Vec<End>,
    /// The races, each once, by word, nodes and intervals.
    pub races: Vec<Race>,
    /// The turns that are kept of each node, with their stamps, from node 0 up.
    pub logs: Vec<Vec<Entry>>,
    /// The least position of an act that races with an earlier act, or none if the run has no race.
    pub first_race: Option<usize>,
}

/// Why there is no report.
#[derive(Clone, Copy, Debug, PartialEq, Eq, Error)]
pub enum SimFault {
    /// The number of nodes is not within 1 to 16.
    #[error("number of nodes out of range")]
    BadNodes,
    /// The number of steps is not within 1 to 1,000,000.
    #[error("number of steps out of range")]
    BadSteps,
    /// A message number, an interval's index, a stamp or the length of a message would pass its limit.
    #[error("message numbers used up")]
    Worn,
    /// Memory ran out.
    #[error("out of memory")]
    NoMemory,
}

impl From<AllocError> for SimFault {
    ghost from_gives = { λ _ e. e ≡ faults.NoMemory };

    fn from(_: AllocError) -> Self {
        SimFault::NoMemory
    }
}

impl<T: Drop> From<AllocFailed<T>> for SimFault {
    ghost from_gives = { λ _ e. e ≡ faults.NoMemory };

    fn from(_: AllocFailed<T>) -> Self {
        SimFault::NoMemory
    }
}

impl From<TurnFault> for SimFault {
    ghost from_gives = { λ fault e. e ≡ of_turns fault };

    fn from(fault: TurnFault) -> Self {
        match fault {
            TurnFault::Worn => SimFault::Worn,
            TurnFault::NoMemory => SimFault::NoMemory,
        }
    }
}

/// Why a turn cannot be made.
#[derive(Clone, Copy, Debug, PartialEq, Eq, Error)]
pub enum TurnFault {
    /// A message number, an interval's index, a stamp or the length of a message would pass its limit.
    #[error("message numbers used up")]
    Worn,
    /// Memory ran out.
    #[error("out of memory")]
    NoMemory,
}

impl From<AllocError> for TurnFault {
    ghost from_gives = { λ _ e. e ≡ NoMemory };

    fn from(_: AllocError) -> Self {
        TurnFault::NoMemory
    }
}

impl<T: Drop> From<AllocFailed<T>> for TurnFault {
    ghost from_gives = { λ _ e. e ≡ NoMemory };

    fn from(_: AllocFailed<T>) -> Self {
        TurnFault::NoMemory
    }
}
