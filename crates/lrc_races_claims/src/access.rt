// The accesses on lines of a trace.
ghost use Rattle.std.specs.Prelude.{◌≡◌, ◌<◌, ◌≤◌, ◌↔◌, ℕ, IsTrue, MatchOption, MatchResult, length};
ghost use Rattle.lrc_races_trace.specs.Trace.{Accesses, Writes};
ghost use Rattle.lrc_races_witness.specs.Relations.{AreByLine, HasNoAccess, IsThatOn};
ghost use Rattle.lrc_races_claims.specs.Truth.{Lacks};
ghost use Rattle.lrc_races_claims.specs.Places.{IsLinePlace};

use crate::verdict::Reason;
use lrc_races_trace::event::{Event, Operation};
use lrc_races_witness::relation::Access;

// The access that an event at a position is.
fn access_of(position: usize, event: Event) -> Option<Access>
    ensures { MatchOption result ((variable : ℕ) → ¬ Accesses event variable)
        (λ access. (access.position ≡ position) × (access.thread ≡ event.thread)
        × Accesses event access.variable × (IsTrue access.is_write ↔ Writes event access.variable)) }
{
    match event.operation {
        Operation::Read(variable) => Some(Access {
            position,
            thread: event.thread,
            variable,
            is_write: false,
        }),
        Operation::Write(variable) => Some(Access {
            position,
            thread: event.thread,
            variable,
            is_write: true,
        }),
        _ => None,
    }
}

// Where the event on a line stands, or would stand.
fn place_of(events: &[Event], line: u64) -> usize
    ensures within { result ≤ length events.now }
    ensures place { AreByLine events.now → IsLinePlace events.now line result }
{
    events.partition_point(|event| event.line < line)
}

// The access on a line of a trace, or none if the line is no access.
pub(crate) fn found_on(events: &[Event], line: u64) -> Option<Access>
    requires { AreByLine events.now }
    ensures { MatchOption result (HasNoAccess events.now line) (IsThatOn events.now line) }
{
    let place = place_of(events, line);
    if place == events.len() {
        return None;
    }
    let event = events[place];
    if event.line != line {
        return None;
    }
    access_of(place, event)
}

/// Returns the access on a line of a trace of so many lines, or why there is none: the trace ends before the line, or
/// the line is no access.
pub fn access_on(events: &[Event], last: u64, line: u64) -> Result<Access, Reason>
    requires { AreByLine events.now }
    ensures { MatchResult result (IsThatOn events.now line) (Lacks events.now last line) }
{
    if last < line {
        return Err(Reason::TraceEnds { line: last });
    }
    match found_on(events, line) {
        Some(access) => Ok(access),
        None => Err(Reason::NoAccess { line }),
    }
}
