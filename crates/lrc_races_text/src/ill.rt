// The first event of a trace that no program would give, and why.
ghost use Rattle.std.specs.Prelude.{◌≡◌, IfOk};
ghost use Rattle.lrc_races_text.specs.Ill.{IsFirstIllOf, IsIllIfAny, IsIllOf};
ghost use Rattle.lrc_races_text.specs.Tables.{naming_of};

use crate::naming::Names;
use crate::spelling::push_reason;
use lrc_races_detector::fault_finder::FaultFinder;
use lrc_races_trace::event::Event;
use lrc_races_trace::fault::Fault;
use std::alloc::{AllocError, Global};

/// An event that no program would give.
#[derive(Drop)]
pub struct Ill {
    /// Its line, counted from 1.
    pub line: u64,
    /// What is wrong with it.
    pub why: Vec<u8>,
}

/// Returns the line of an event that no program would give, and the text of what is wrong with it. It fails if memory
/// runs out.
pub fn ill_of(alloc: Global, names: &Names, fault: Fault) -> Result<Ill, AllocError>
    ensures { IfOk result (IsIllOf (naming_of names.now) fault) }
{
    let mut why = Vec::new(alloc);
    push_reason(&mut why, names, fault.event.thread, fault.reason)?;
    let line = fault.event.line;
    Ok(Ill { line, why })
}

/// Returns the same of an event that was looked for, if there is one. It fails if memory runs out.
pub fn ill_if_any(
    alloc: Global,
    names: &Names,
    fault: Option<Fault>,
) -> Result<Option<Ill>, AllocError>
    ensures { IfOk result (IsIllIfAny (naming_of names.now) fault) }
{
    match fault {
        Some(fault) => Ok(Some(ill_of(alloc, names, fault)?)),
        None => Ok(None),
    }
}

/// Returns the first of these events that no program would give, if there is one. They are a trace from its beginning on.
/// It fails if memory runs out.
pub fn first_ill(alloc: Global, names: &Names, events: &[Event]) -> Result<Option<Ill>, AllocError>
    ensures { IfOk result (IsFirstIllOf (naming_of names.now) events.now) }
{
    let mut finder = FaultFinder::new(alloc);
    for event in events {
        finder.take(*event)?;
    }
    ill_if_any(alloc, names, finder.fault())
}
