// How the events on two lines of a trace are related.
ghost use Rattle.std.specs.Prelude.{◌≡◌, ℕ, ◌<◌, ◌↔◌, IfOk, IsTrue, MatchOption, length};
ghost use Rattle.lrc_races_trace.specs.declared.event.Event.{Event as AnyEvent};
ghost use Rattle.lrc_races_trace.specs.Trace.{Accesses, At, Writes};
ghost use Rattle.lrc_races_trace.specs.Races.{Conflict};
ghost use Rattle.lrc_races_sure.specs.Leading.{IsByWay};
ghost use Rattle.lrc_races_witness.specs.Relations.{AreByLine, HasNoAccess, IsThatOn, AreRelated, IsRelation};

use crate::past::{is_below, past_of, way_of};
use crate::relation::{Access, Relation};
use lrc_races_trace::event::{Event, Operation};
use std::alloc::{AllocError, Global};

// The access that an event at a position is.
fn access_of(position: usize, event: Event) -> Option<Access>
    ensures { MatchOption result ((variable : ℕ) → ¬ Accesses event variable)
        (λ access. (access.position ≡ position) × (access.thread ≡ event.thread)
        × Accesses event access.variable × (IsTrue access.is_write ↔ Writes event access.variable)) }
{
    match event.operation {
        Operation::Read(variable) => Some(Access {
            position,
            thread: event.thread,
            variable,
            is_write: false,
        }),
        Operation::Write(variable) => Some(Access {
            position,
            thread: event.thread,
            variable,
            is_write: true,
        }),
        _ => None,
    }
}

/// Returns the access on a line of a trace, or none if the line is no access.
pub fn access_on(events: &[Event], line: u64) -> Option<Access>
    requires { AreByLine events.now }
    ensures { MatchOption result (HasNoAccess events.now line) (IsThatOn events.now line) }
{
    for (position, event) in events.iter().enumerate() {
        if event.line == line {
            return access_of(position, *event);
        }
    }
    None
}

// How two conflicting accesses are related, the later one reached by way of the earlier one.
fn relate_reached(
    alloc: Global,
    events: &[Event],
    one: Access,
    other: Access,
) -> Result<Relation, AllocError>
    requires earlier { one.position < other.position }
    requires within { other.position < length events.now }
    ensures { IfOk result (λ relation. (a b : AnyEvent) → At events.now one.position a
        → At events.now other.position b → a.thread ≡ one.thread → Conflict a b
        → IsByWay events.now one.position other.position
        → AreRelated events.now one.position other.position one.variable other.variable a b relation) }
{
    let past = past_of(alloc, events, other.position)?;
    if is_below(past.as_slice(), one.thread, one.position) {
        return Ok(Relation::Ordered);
    }
    Ok(Relation::Reached)
}

// How two conflicting accesses are related.
fn relate_rivals(
    alloc: Global,
    events: &[Event],
    one: Access,
    other: Access,
) -> Result<Relation, AllocError>
    requires earlier { one.position < other.position }
    requires within { other.position < length events.now }
    ensures { IfOk result (λ relation. (a b : AnyEvent) → At events.now one.position a
        → At events.now other.position b → a.thread ≡ one.thread → Conflict a b
        → AreRelated events.now one.position other.position one.variable other.variable a b relation) }
{
    let way = way_of(alloc, events, other.position)?;
    if is_below(way.as_slice(), one.thread, one.position) {
        return relate_reached(alloc, events, one, other);
    }
    Ok(Relation::Sure {
        earlier: one.position,
        later: other.position,
    })
}

// How two accesses are related, the earlier one first.
fn relate_accesses(
    alloc: Global,
    events: &[Event],
    one: Access,
    other: Access,
) -> Result<Relation, AllocError>
    requires earlier { one.position < other.position }
    requires within { other.position < length events.now }
    ensures { IfOk result (λ relation. (first second : ℕ) → IsThatOn events.now first one
        → IsThatOn events.now second other → IsRelation events.now first second relation) }
{
    if one.thread == other.thread {
        return Ok(Relation::OneThread { thread: one.thread });
    }
    if one.variable != other.variable {
        return Ok(Relation::TwoVariables);
    }
    if !one.is_write && !other.is_write {
        return Ok(Relation::BothRead);
    }
    relate_rivals(alloc, events, one, other)
}

/// Returns what the events on two lines of a trace are to each other, the lesser line first. It fails if memory runs
/// out.
pub fn relate(
    alloc: Global,
    events: &[Event],
    first: u64,
    second: u64,
) -> Result<Relation, AllocError>
    requires by_line { AreByLine events.now }
    requires ascending { first < second }
    ensures { IfOk result (IsRelation events.now first second) }
{
    let Some(one) = access_on(events, first) else {
        return Ok(Relation::NoAccess { line: first });
    };
    let Some(other) = access_on(events, second) else {
        return Ok(Relation::NoAccess { line: second });
    };
    relate_accesses(alloc, events, one, other)
}
