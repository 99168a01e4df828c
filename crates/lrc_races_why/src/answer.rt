// What is said of the events on two lines.
ghost use Rattle.std.specs.Prelude.{◌≡◌, ◌≢◌, ℕ, ◌<◌, ◌↔◌, ◌++◌, List, IfOk, IsTrue, MatchOption, OnOk, length};
ghost use Rattle.lrc_races_trace.specs.declared.event.Event.{Event as AnyEvent};
ghost use Rattle.lrc_races_trace.specs.Trace.{Accesses, At, Writes};
ghost use Rattle.lrc_races_trace.specs.Order.{Precedes, HappensBefore};
ghost use Rattle.lrc_races_trace.specs.Races.{Conflict};
ghost use Rattle.lrc_chains.specs.Chains.{IsChain};
ghost use Rattle.lrc_races_text.specs.Tables.{naming_of};
ghost use Rattle.lrc_races_witness.specs.Relations.{AreByLine};
ghost use Rattle.lrc_races_witness.specs.Spelled.{text_at};
ghost use Rattle.lrc_races_why.specs.Spelled.{event_line};
ghost use Rattle.lrc_races_why.specs.Answers.{Line, IsStepAdded, AreStepsAdded, IsOn, HasNoEvent, IsWhyAdded, IsAnswered};

use crate::chain::chain_told;
use crate::held::held_at;
use crate::link::link_of;
use crate::spelling::{
    push_event, push_held, push_neither, push_one_thread, push_order, push_race, push_step,
};
use lrc_races_text::form::Form;
use lrc_races_text::naming::Names;
use lrc_races_trace::event::{Event, Operation};
use std::alloc::{AllocError, Global};

/// What came of the question why two events are ordered.
#[derive(Clone, Copy, PartialEq, Eq)]
pub enum Outcome {
    /// It is told.
    Told,
    /// This line has no event. If neither has, it is the lesser one.
    NoEvent(u64),
}

// The line of the event at a position.
fn text_at(lines: &[Vec<u8>], position: usize) -> &[u8]
    ensures { result.now ≡ text_at lines.now position }
{
    match lines.get(position) {
        Some(line) => line.as_slice(),
        None => &[],
    }
}

// Where the event on a line stands, if the line has one.
fn event_on(events: &[Event], line: u64) -> Option<usize>
    ensures { MatchOption result (HasNoEvent events.now line)
        (λ position. (event : AnyEvent) × IsOn events.now line position event) }
{
    for (position, event) in events.iter().enumerate() {
        if event.line == line {
            return Some(position);
        }
    }
    None
}

// The variable that an event accesses.
fn accessed(event: Event) -> Option<u32>
    ensures { MatchOption result ((variable : ℕ) → ¬ Accesses event variable)
        (λ variable. Accesses event variable) }
{
    match event.operation {
        Operation::Read(variable) | Operation::Write(variable) => Some(variable),
        _ => None,
    }
}

// Whether an event writes.
fn writes(event: Event) -> bool
    ensures { IsTrue result ↔ ((variable : ℕ) × Writes event variable) }
{
    match event.operation {
        Operation::Write(_) => true,
        _ => false,
    }
}

// Whether two events conflict.
fn conflict(one: Event, other: Event) -> bool
    ensures { IsTrue result ↔ Conflict one other }
{
    if one.thread == other.thread {
        return false;
    }
    let Some(variable) = accessed(one) else {
        return false;
    };
    let Some(another) = accessed(other) else {
        return false;
    };
    if variable != another {
        return false;
    }
    if writes(one) {
        return true;
    }
    writes(other)
}

// Adds the line of a step from one position to another.
fn push_link(
    text: &mut Vec<u8>,
    form: Form,
    names: &Names,
    events: &[Event],
    lines: &[Vec<u8>],
    from: usize,
    to: usize,
) -> Result<(), AllocError>
    requires first { from < length events.now }
    requires second { to < length events.now }
    ensures { OnOk result (Precedes events.now from to
        → IsStepAdded form (naming_of names.now) events.now lines.now from to
        text.old.items text.new.items) }
{
    let event = events[to];
    let link = link_of(events[from], event);
    push_step(text, form, names, link, text_at(lines, to), event)?;
    Ok(())
}

// Adds the lines of the steps of a chain.
fn push_steps(
    text: &mut Vec<u8>,
    form: Form,
    names: &Names,
    events: &[Event],
    lines: &[Vec<u8>],
    chain: &[usize],
) -> Result<(), AllocError>
    requires { (i : ℕ) × (j : ℕ) × IsChain (Precedes events.now) i j chain.now }
    ensures { OnOk result (AreStepsAdded form (naming_of names.now) events.now lines.now chain.now
        text.old.items text.new.items) }
{
    for place in 1..chain.len() {
        let from = chain[place - 1];
        let to = chain[place];
        push_link(text, form, names, events, lines, from, to)?;
    }
    Ok(())
}

// Adds what is said of two events of different threads of which neither happens before the other.
fn push_unordered(
    alloc: Global,
    text: &mut Vec<u8>,
    form: Form,
    names: &Names,
    events: &[Event],
    earlier: usize,
    later: usize,
) -> Result<(), AllocError>
    requires order { earlier < later }
    requires within { later < length events.now }
    ensures { OnOk result ((a b : AnyEvent) (lines : List Line) → At events.now earlier a
        → At events.now later b → a.thread ≢ b.thread → ¬ HappensBefore events.now earlier later
        → IsWhyAdded form (naming_of names.now) events.now lines earlier later a b
        text.old.items text.new.items) }
{
    let one = events[earlier];
    let other = events[later];
    if !conflict(one, other) {
        push_neither(text)?;
        return Ok(());
    }
    let held = held_at(alloc, events, one.thread, earlier)?;
    let others = held_at(alloc, events, other.thread, later)?;
    push_race(text, form, names, one)?;
    push_held(
        text,
        names,
        one.line,
        held.as_slice(),
        other.line,
        others.as_slice(),
    )?;
    Ok(())
}

// Adds why two events of different threads are ordered, or race, or neither.
fn push_apart(
    alloc: Global,
    text: &mut Vec<u8>,
    form: Form,
    names: &Names,
    events: &[Event],
    lines: &[Vec<u8>],
    earlier: usize,
    later: usize,
) -> Result<(), AllocError>
    requires order { earlier < later }
    requires within { later < length events.now }
    ensures { OnOk result ((a b : AnyEvent) → At events.now earlier a → At events.now later b
        → a.thread ≢ b.thread
        → IsWhyAdded form (naming_of names.now) events.now lines.now earlier later a b
        text.old.items text.new.items) }
{
    let told = chain_told(alloc, events, earlier, later)?;
    match told {
        Some(chain) => {
            push_order(text, events[earlier].line, events[later].line)?;
            push_steps(text, form, names, events, lines, chain.as_slice())?;
            Ok(())
        }
        None => {
            push_unordered(alloc, text, form, names, events, earlier, later)?;
            Ok(())
        }
    }
}

// Adds what is said of two events.
fn push_why(
    alloc: Global,
    text: &mut Vec<u8>,
    form: Form,
    names: &Names,
    events: &[Event],
    lines: &[Vec<u8>],
    earlier: usize,
    later: usize,
) -> Result<(), AllocError>
    requires order { earlier < later }
    requires within { later < length events.now }
    ensures { OnOk result ((a b : AnyEvent) → At events.now earlier a → At events.now later b
        → IsWhyAdded form (naming_of names.now) events.now lines.now earlier later a b
        text.old.items text.new.items) }
{
    let one = events[earlier];
    let other = events[later];
    if one.thread == other.thread {
        push_one_thread(text, names, one.thread)?;
        return Ok(());
    }
    push_apart(alloc, text, form, names, events, lines, earlier, later)?;
    Ok(())
}

// Adds the line of the event at a position.
fn push_at(
    text: &mut Vec<u8>,
    form: Form,
    names: &Names,
    events: &[Event],
    lines: &[Vec<u8>],
    position: usize,
) -> Result<(), AllocError>
    requires { position < length events.now }
    ensures { OnOk result ((a : AnyEvent) → At events.now position a
        → text.new.items ≡ text.old.items
        ++ event_line form (naming_of names.now) (text_at lines.now position) a) }
{
    push_event(
        text,
        form,
        names,
        text_at(lines, position),
        events[position],
    )?;
    Ok(())
}

// Adds two events, and what is said of them.
fn push_told(
    alloc: Global,
    text: &mut Vec<u8>,
    form: Form,
    names: &Names,
    events: &[Event],
    lines: &[Vec<u8>],
    earlier: usize,
    later: usize,
) -> Result<(), AllocError>
    requires order { earlier < later }
    requires within { later < length events.now }
    ensures { OnOk result ((a b : AnyEvent) → At events.now earlier a → At events.now later b
        → IsWhyAdded form (naming_of names.now) events.now lines.now earlier later a b
        (text.old.items ++ event_line form (naming_of names.now) (text_at lines.now earlier) a
        ++ event_line form (naming_of names.now) (text_at lines.now later) b) text.new.items) }
{
    push_at(text, form, names, events, lines, earlier)?;
    push_at(text, form, names, events, lines, later)?;
    push_why(alloc, text, form, names, events, lines, earlier, later)?;
    Ok(())
}

/// Adds to `text` what is printed of the events on two lines of a trace, the lesser line first: both events, and why the
/// one happens before the other, or that they race and which locks their threads hold, or that neither is so. `lines`
/// has for each event the text of its line, without a carriage return at its end. If a line has no event, it adds
/// nothing, and says so. It fails if memory runs out.
pub fn push_answer(
    alloc: Global,
    text: &mut Vec<u8>,
    form: Form,
    names: &Names,
    events: &[Event],
    lines: &[Vec<u8>],
    first: u64,
    second: u64,
) -> Result<Outcome, AllocError>
    requires by_line { AreByLine events.now }
    requires ascending { first < second }
    ensures { IfOk result (IsAnswered form (naming_of names.now) events.now lines.now first second
        text.old.items text.new.items) }
{
    let Some(earlier) = event_on(events, first) else {
        return Ok(Outcome::NoEvent(first));
    };
    let Some(later) = event_on(events, second) else {
        return Ok(Outcome::NoEvent(second));
    };
    push_told(alloc, text, form, names, events, lines, earlier, later)?;
    Ok(Outcome::Told)
}
