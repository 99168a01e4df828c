// What a test ends in.

use lrc_events::events::EventsFault;
use lrc_lang::fault::ParseFault;
use lrc_states::StatesFault;
use std::alloc::AllocError;
use std::process::Abort;

/// What is wrong with a row.
#[derive(Clone, Copy, Debug, PartialEq, Eq)]
pub enum Mistake {
    /// It names more nodes than a run has.
    Nodes,
    /// Its text is no program.
    Program(ParseFault),
    /// Its events are none.
    Events(EventsFault),
    /// There are no lines.
    States(StatesFault),
    /// There are other lines.
    Lines,
    /// Memory ran out.
    NoMemory,
}

impl From<ParseFault> for Mistake {
    fn from(fault: ParseFault) -> Mistake {
        Mistake::Program(fault)
    }
}

impl From<EventsFault> for Mistake {
    fn from(fault: EventsFault) -> Mistake {
        Mistake::Events(fault)
    }
}

impl From<StatesFault> for Mistake {
    fn from(fault: StatesFault) -> Mistake {
        Mistake::States(fault)
    }
}

impl From<AllocError> for Mistake {
    fn from(_: AllocError) -> Mistake {
        Mistake::NoMemory
    }
}

/// Fails where a row is wrong, with its name and what is wrong with it.
pub fn passes(rt: &impl Abort, row: &str, outcome: Result<(), Mistake>) {
    if let Err(mistake) = outcome {
        panic!(rt; "{row}: {mistake:?}");
    }
}
