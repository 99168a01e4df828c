// Where a run on threads stopped, and what its nodes had done by then.

ghost use Rattle.std.specs.Prelude.{◌≡◌};
ghost use Rattle.lrc_run.specs.Halts.{fault_of};
ghost use Rattle.lrc_run.specs.declared.halt.Halt.TheVariants as halts;

use crate::fault::RunFault;
use lrc_log::Entry;
use lrc_post::Wires;
use lrc_protocol::Event;
use lrc_threads::Stop;
use std::alloc::AllocError;

/// What is left of the nodes of a run on threads.
#[derive(Drop)]
pub struct Left {
    /// The turns of each node with their stamps, from node 0 up.
    pub logs: Vec<Vec<Entry>>,
    /// Why each node's thread stopped, from node 0 up, or none if it went on until the post was closed.
    pub stops: Vec<Option<Stop>>,
    /// The mailboxes of the post between the nodes, with their histories.
    pub wires: Wires,
}

/// A run in which a node wore out, before any node with a lower number failed.
#[derive(Drop)]
pub struct WornOut {
    /// What is left of the nodes.
    pub left: Left,
    /// The node that wore out.
    pub node: usize,
    /// The events that make all turns of the nodes in one order, and last an event of this node: the one that it did not
    /// finish, or a turn by itself if it had finished its last one.
    pub events: Vec<Event>,
}

/// Why a run on threads has no report, with what is left of its nodes.
#[derive(Drop)]
pub enum Halt {
    /// A node wore out.
    Worn(WornOut),
    /// The lowest node that failed had no memory, or there was none for its thread.
    Refused(Left),
    /// What the nodes left is not one run to its end.
    Mismatch(Left),
    /// Memory ran out before the first thread started, or after the last one ended.
    NoMemory,
}

impl From<AllocError> for Halt {
    ghost from_gives = { λ _ e. e ≡ halts.NoMemory };

    fn from(_error: AllocError) -> Halt {
        Halt::NoMemory
    }
}

impl From<Halt> for RunFault {
    ghost from_gives = { λ halt e. e ≡ fault_of halt };

    fn from(halt: Halt) -> RunFault {
        match halt {
            Halt::Worn(_) => RunFault::Worn,
            Halt::Mismatch(_) => RunFault::Mismatch,
            Halt::Refused(_) | Halt::NoMemory => RunFault::NoMemory,
        }
    }
}
