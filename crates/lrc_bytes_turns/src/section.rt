// The lines of the turns of a part of a run.

ghost use Rattle.std.specs.Prelude.{◌≡◌, ◌+◌, ◌<◌, ◌≤◌, ◌∷◌, ◌++◌, [], IfOk, List, OnOk, option_map};
ghost use Rattle.lrc_log.specs.Input.{seen_input};
ghost use Rattle.lrc_turns_text.specs.Turns.{Made};
ghost use Rattle.lrc_bytes_text.specs.BytesText.{turn_line};
ghost use Rattle.lrc_bytes_turns.specs.Seen.{Sees};
ghost use Rattle.lrc_bytes_turns.specs.Turns.{brought, bytes_text, is_from, is_shown, is_until, line_of, shown_line};

use crate::seen::Seen;
use lrc_bytes_text::{Line, push_line};
use lrc_chart_rows::TurnOf;
use lrc_envelope::Envelope;
use lrc_log::Input;
use lrc_protocol::Event;
use std::alloc::{AllocError, Global};

/// A part of a run: from the turn that makes the act at position `from` to the one that makes the act at `to`. Without
/// them, from the beginning, and to the end.
#[derive(Clone, Copy)]
pub struct Section<'e> {
    /// The events that made the turns of the run, in order. A turn behind the last of them has no line.
    pub events: &'e [Event],
    pub from: Option<u64>,
    pub to: Option<u64>,
}

/// Returns a line for each of these turns that the section shows. They are all turns of the run, in order.
pub fn bytes_part(
    alloc: Global,
    section: Section<'_>,
    turns: &[TurnOf<'_>],
) -> Result<Vec<u8>, AllocError>
    ensures { IfOk result (λ part. part.items ≡ bytes_text section.entry.from section.entry.to
        section.entry.events.now turns.now) }
{
    let mut text = Vec::new(alloc);
    let mut seen = Seen::new(alloc);
    for (place, turn) in turns.iter().enumerate() {
        section.tell(alloc, &mut text, &mut seen, place, turn)?;
    }
    Ok(text)
}

// The message that an input brings.
fn brought(input: &Input) -> Option<&Envelope>
    ensures { option_map (λ envelope. envelope.now) result ≡ brought (seen_input input.now) }
{
    match input {
        Input::Run => None,
        Input::Taken(envelope) => Some(envelope),
    }
}

// Whether a turn, after which there are so many acts, is no earlier than that of the act at a position.
fn is_from(from: Option<u64>, after: u64) -> bool
    ensures { result ≡ is_from from after }
{
    match from {
        Some(position) => position < after,
        None => true,
    }
}

// Whether a turn, before which there are so many acts, is no later than that of the act at a position.
fn is_until(to: Option<u64>, before: u64) -> bool
    ensures { result ≡ is_until to before }
{
    match to {
        Some(position) => before <= position,
        None => true,
    }
}

impl Section<'_> {
    // Whether a turn is shown, before and after which there are so many acts.
    fn shows(&self, before: u64, after: u64) -> bool
        ensures { result ≡ is_shown self.now.from self.now.to before after }
    {
        is_from(self.from, after) && is_until(self.to, before)
    }

    // Notes the turn at a place, and adds its line if it is shown.
    fn tell(
        &self,
        alloc: Global,
        text: &mut Vec<u8>,
        seen: &mut Seen,
        place: usize,
        turn: &TurnOf<'_>,
    ) -> Result<(), AllocError>
        requires { seen.old.acts < 18446744073709551615 }
        ensures text { OnOk result ((before : List Made) → Sees before seen.old
            → text.new.items ≡ text.old.items
            ++ shown_line self.now.from self.now.to self.now.events.now
            before (before ++ turn.now ∷ []) place turn.now) }
        ensures sees { OnOk result ((before : List Made) → Sees before seen.old
            → Sees (before ++ turn.now ∷ []) seen.new) }
        ensures acts { seen.new.acts ≤ seen.old.acts + 1 }
    {
        let acts = seen.acts();
        let again = seen.note(turn)?;
        if !self.shows(acts, seen.acts()) {
            return Ok(());
        }
        match self.events.get(place) {
            Some(event) => push_turn(alloc, text, place, *event, turn, again, acts),
            None => Ok(()),
        }
    }
}

// Adds the line of a turn.
fn push_turn(
    alloc: Global,
    text: &mut Vec<u8>,
    place: usize,
    event: Event,
    turn: &TurnOf<'_>,
    again: bool,
    position: u64,
) -> Result<(), AllocError>
    ensures { OnOk result (text.new.items ≡ text.old.items
        ++ turn_line (line_of place event turn.now again position)) }
{
    let entry = turn.entry;
    let line = Line {
        number: place as u64,
        event,
        node: turn.node,
        taken: brought(&entry.input),
        again,
        position,
        act: entry.turn.act,
        out: entry.turn.out.as_slice(),
    };
    push_line(alloc, text, &line)
}
