// Judging claims about lines and variables.
ghost use Rattle.std.specs.Prelude.{◌≡◌, ◌≢◌, ◌<◌, ◌≤◌, ℕ, List, IfOk, MatchOption, OnOk, length};
ghost use Rattle.lrc_races_trace.specs.declared.event.Event.{Event as AnyEvent};
ghost use Rattle.lrc_races_text.specs.declared.asked.Sought.{Sought as AnySought};
ghost use Rattle.lrc_races_text.specs.Naming.{Naming};
ghost use Rattle.lrc_races_witness.specs.Relations.{AreByLine, HasAccess, IsThatOn};
ghost use Rattle.lrc_races_score.specs.Claims.{event, pair, variable, first};
ghost use Rattle.lrc_races_claims.specs.Asking.{IsAsking};
ghost use Rattle.lrc_races_claims.specs.Judging.{AreFacts, IsFirstFound};
ghost use Rattle.lrc_races_claims.specs.Known.{IsOnlyNumber, IsUnknown, known_names};
ghost use Rattle.lrc_races_claims.specs.Truth.{IsJudged, LinesAreJudged};

use crate::access::{access_on, found_on};
use crate::asking::Asker;
use crate::firsts::{Firsts, firsts_of};
use crate::known::KnownNames;
use crate::racing::marks_of;
use crate::verdict::{Reason, Verdict};
use lrc_races_text::asked::Sought;
use lrc_races_trace::event::Event;
use lrc_races_witness::relation::Access;
use std::alloc::{AllocError, Global};

/// What is known of a trace, by which claims about it are judged.
#[derive(Drop)]
pub struct Facts {
    /// For each event, whether it is an access that races with an earlier one.
    pub marks: Vec<bool>,
    /// The lines of the first accesses of variables, and of the first that are marked.
    pub firsts: Firsts,
}

/// The first access of a variable that races with an earlier one.
#[derive(Clone, Copy, PartialEq, Eq)]
pub enum FirstRacing {
    /// No access is of the variable.
    NoAccess,
    /// None of them races.
    NoRace,
    /// It is on this line.
    On(u64),
}

impl Facts {
    /// Returns what is known of a trace of which these races are sought. It fails if memory runs out.
    pub fn new(alloc: Global, sought: Sought, events: &[Event]) -> Result<Facts, AllocError>
        ensures { IfOk result (AreFacts sought events.now) }
    {
        let marks = marks_of(alloc, sought, events)?;
        let firsts = firsts_of(alloc, events, marks.as_slice())?;
        Ok(Facts { marks, firsts })
    }
}

/// Returns what is said of the claim that the access on a line races with an earlier one. `last` is the number of lines
/// of the trace.
pub fn judge_event(events: &[Event], facts: &Facts, last: u64, line: u64) -> Verdict
    requires by_line { AreByLine events.now }
    requires facts { (sought : AnySought) × AreFacts sought events.now facts.now }
    ensures { (sought : AnySought) (naming : Naming) → AreFacts sought events.now facts.now
        → IsJudged sought naming events.now last (event line) result }
{
    match access_on(events, last, line) {
        Ok(access) => {
            if facts.marks[access.position] {
                return Verdict::True;
            }
            Verdict::False(Reason::NoEarlier)
        }
        Err(reason) => Verdict::False(reason),
    }
}

// What is said of the accesses on two lines, the lesser line first.
fn judge_accesses(
    events: &[Event],
    asker: &mut Asker,
    lesser: u64,
    greater: u64,
    one: Access,
    other: Access,
) -> Result<Verdict, AllocError>
    requires order { one.thread ≢ other.thread → one.position < other.position }
    requires within { other.position < length events.now }
    requires asking { IsAsking events.now asker.old }
    ensures judged { IfOk result (λ verdict. (last : ℕ)
        → IsThatOn events.now lesser one → IsThatOn events.now greater other
        → LinesAreJudged asker.old.sought events.now last lesser greater verdict) }
    ensures asking { OnOk result (IsAsking events.now asker.new) }
    ensures sought { asker.new.sought ≡ asker.old.sought }
{
    if one.thread == other.thread {
        return Ok(Verdict::False(Reason::OneThread { thread: one.thread }));
    }
    if one.variable != other.variable {
        return Ok(Verdict::False(Reason::TwoVariables));
    }
    if !one.is_write && !other.is_write {
        return Ok(Verdict::False(Reason::BothRead));
    }
    if asker.separates(events, one, other)? {
        return Ok(Verdict::False(Reason::Separated { lesser, greater }));
    }
    Ok(Verdict::True)
}

/// Returns what is said of the claim that the accesses on two lines race. `last` is the number of lines of the trace. It
/// fails if memory runs out, and then the asker is of no use.
pub fn judge_pair(
    events: &[Event],
    asker: &mut Asker,
    last: u64,
    line: u64,
    other: u64,
) -> Result<Verdict, AllocError>
    requires by_line { AreByLine events.now }
    requires asking { IsAsking events.now asker.old }
    ensures judged { IfOk result (λ verdict. (naming : Naming)
        → IsJudged asker.old.sought naming events.now last (pair line other) verdict) }
    ensures asking { OnOk result (IsAsking events.now asker.new) }
    ensures sought { asker.new.sought ≡ asker.old.sought }
{
    let lesser = line.min(other);
    let greater = line.max(other);
    if last < greater {
        return Ok(Verdict::False(Reason::TraceEnds { line: last }));
    }
    let Some(one) = found_on(events, lesser) else {
        return Ok(Verdict::False(Reason::NoAccess { line: lesser }));
    };
    let Some(two) = found_on(events, greater) else {
        return Ok(Verdict::False(Reason::NoAccess { line: greater }));
    };
    judge_accesses(events, asker, lesser, greater, one, two)
}

// The first access of the variable with this number that races with an earlier one.
fn first_of(facts: &Facts, number: Option<usize>) -> FirstRacing
    ensures { (sought : AnySought) (naming : Naming) (events : List AnyEvent) (name : List ℕ)
        → AreFacts sought events facts.now
        → MatchOption number (IsUnknown naming.variables name) (IsOnlyNumber naming.variables name)
        → IsFirstFound sought naming events name result }
{
    match number {
        Some(number) => match facts.firsts.marked.line(number) {
            Some(line) => FirstRacing::On(line),
            None => match facts.firsts.any.line(number) {
                Some(_first) => FirstRacing::NoRace,
                None => FirstRacing::NoAccess,
            },
        },
        None => FirstRacing::NoAccess,
    }
}

/// Returns the first access of the variable of this name that races with an earlier one. It fails if memory runs out.
pub fn first_racing(
    facts: &Facts,
    variables: &mut KnownNames,
    name: &[u8],
) -> Result<FirstRacing, AllocError>
    ensures found { IfOk result (λ found. (sought : AnySought) (naming : Naming)
        (events : List AnyEvent) → naming.variables ≡ known_names variables.old
        → AreFacts sought events facts.now → IsFirstFound sought naming events name.now found) }
    ensures kept { OnOk result (known_names variables.new ≡ known_names variables.old) }
{
    let number = variables.find(name)?;
    Ok(first_of(facts, number))
}

/// Returns what is said of the claim that some two accesses of a variable race, by the first that does.
pub fn judge_variable(found: FirstRacing) -> Verdict
    ensures { (sought : AnySought) (naming : Naming) (events : List AnyEvent) (last : ℕ)
        (name : List ℕ) → IsFirstFound sought naming events name found
        → IsJudged sought naming events last (variable name) result }
{
    match found {
        FirstRacing::NoAccess => Verdict::False(Reason::NoneOfVariable),
        FirstRacing::NoRace => Verdict::False(Reason::VariableApart),
        FirstRacing::On(_) => Verdict::True,
    }
}

// What is said of the claim that the first access of a variable that races with an earlier one is on a line that is an
// access.
fn judge_found(line: u64, found: FirstRacing) -> Verdict
    ensures { (sought : AnySought) (naming : Naming) (events : List AnyEvent) (last : ℕ)
        (name : List ℕ) → HasAccess events line → IsFirstFound sought naming events name found
        → IsJudged sought naming events last (first name line) result }
{
    match found {
        FirstRacing::NoAccess => Verdict::False(Reason::NoneOfVariable),
        FirstRacing::NoRace => Verdict::False(Reason::VariableApart),
        FirstRacing::On(other) => {
            if other != line {
                return Verdict::False(Reason::FirstIs { line: other });
            }
            Verdict::True
        }
    }
}

/// Returns what is said of the claim that the first access of a variable that races with an earlier one is on this line.
/// `last` is the number of lines of the trace.
pub fn judge_first(events: &[Event], last: u64, line: u64, found: FirstRacing) -> Verdict
    requires { AreByLine events.now }
    ensures { (sought : AnySought) (naming : Naming) (name : List ℕ)
        → IsFirstFound sought naming events.now name found
        → IsJudged sought naming events.now last (first name line) result }
{
    match access_on(events, last, line) {
        Ok(_access) => judge_found(line, found),
        Err(reason) => Verdict::False(reason),
    }
}
