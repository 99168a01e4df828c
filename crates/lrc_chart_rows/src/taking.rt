// From which turn to which each message is taken.

ghost use Rattle.std.specs.Prelude.{◌≡◌, IfOk, List, take};
ghost use Rattle.std.specs.BTreeMap.{get};
ghost use Rattle.std.specs.List.{list_any};
ghost use Rattle.lrc_turns_text.specs.Turns.{Made};
ghost use Rattle.lrc_chart_rows.specs.Takers.{takes_it};
ghost use Rattle.lrc_chart_rows.specs.Takings.{AreTakings, first_or, name_cmp, name_of, named_by};

use crate::turn::TurnOf;
use lrc_envelope::Envelope;
use lrc_log::Input;
use std::alloc::{AllocError, Global};
use std::collections::BTreeMap;

/// What tells a message from all others: its receiver, its sender, and its number from this sender to this receiver.
#[derive(Clone, Copy, PartialEq, Eq, PartialOrd, Ord)]
pub struct Name {
    pub to: u8,
    pub from: u8,
    pub number: u32,
}

/// The first and the last turn that takes a message.
#[derive(Clone, Copy)]
pub struct Span {
    pub first: usize,
    pub last: usize,
}

/// From which turn to which each message is taken.
#[derive(Drop)]
pub struct Takings {
    spans: BTreeMap<Name, Span>,
}

// The name of the message that a turn takes, if it takes one.
fn name_taken(turn: &TurnOf<'_>) -> Option<Name>
    ensures { result ≡ named_by turn.now.node turn.now.entry.input }
{
    let entry = turn.entry;
    match &entry.input {
        Input::Run => None,
        Input::Taken(envelope) => Some(Name {
            to: turn.node,
            from: envelope.from,
            number: envelope.number,
        }),
    }
}

// The first turn so far that takes the message of a name, or this one.
fn first_or(spans: &BTreeMap<Name, Span>, name: Name, position: usize) -> usize
    ensures { result ≡ first_or (get name_cmp spans.now name) position }
{
    match spans.get(&name) {
        Some(span) => span.first,
        None => position,
    }
}

/// Returns of each message the first and the last of these turns that takes it. It fails if memory runs out.
pub fn takings_of(alloc: Global, turns: &[TurnOf<'_>]) -> Result<Takings, AllocError>
    ensures { IfOk result (AreTakings turns.now) }
{
    let mut spans = BTreeMap::new(alloc);
    for (position, turn) in turns.iter().enumerate() {
        if let Some(name) = name_taken(turn) {
            let first = first_or(&spans, name, position);
            let span = Span {
                first,
                last: position,
            };
            spans.insert(name, span)?;
        }
    }
    Ok(Takings { spans })
}

impl Takings {
    // The first and the last turn that takes a message, if one does.
    pub(crate) fn span(&self, envelope: &Envelope) -> Option<Span>
        ensures { result ≡ get name_cmp self.now.spans (name_of envelope.now) }
    {
        let name = Name {
            to: envelope.to,
            from: envelope.from,
            number: envelope.number,
        };
        match self.spans.get(&name) {
            Some(span) => Some(*span),
            None => None,
        }
    }

    /// Returns whether a turn before the position takes the message.
    pub fn is_taken_before(&self, position: usize, envelope: &Envelope) -> bool
        ensures { (turns : List Made) → AreTakings turns self.now
            → result ≡ list_any (takes_it envelope.now) (take position turns) }
    {
        match self.span(envelope) {
            Some(span) => span.first < position,
            None => false,
        }
    }
}
