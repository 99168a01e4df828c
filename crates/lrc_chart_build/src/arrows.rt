// Messages of a picture.

ghost use Rattle.std.specs.Prelude.{◌≡◌, ◌++◌, IfOk, OnOk, map, slice_get};
ghost use Rattle.std.specs.List.{flat_map};
ghost use Rattle.lrc_chart_rows.specs.Takers.{takers};
ghost use Rattle.lrc_chart_rows.specs.Takings.{AreTakings};
ghost use Rattle.lrc_chart_build.specs.Arrows.{arrow_if, arrow_to, is_later, lost_if, lost_one, place_of_turn, shown_message_arrows};
ghost use Rattle.lrc_chart_build.specs.Arrows.{sent_in_turn, shown_arrows, shown_lost};
ghost use Rattle.lrc_chart_build.specs.Seen.{seen_arrow, seen_lost};

use crate::message::{label_text, message_text};
use crate::part::{Place, turn_at};
use lrc_chart_model::{Arrow, Lost};
use lrc_chart_rows::{Takings, TurnOf, takers};
use lrc_envelope::Envelope;
use std::alloc::{AllocError, Global};

// The messages that a turn at a position sends.
fn sent_in_turn<'a>(turns: &'a [TurnOf<'_>], position: usize) -> &'a [Envelope]
    ensures { result.now ≡ sent_in_turn (slice_get turns.now position) }
{
    match turn_at(turns, position) {
        Some(turn) => {
            let entry = turn.entry;
            entry.turn.out.as_slice()
        }
        None => &[],
    }
}

// The place of the row of the turn at a position.
fn place_of_turn(places: &[Place], turn: usize) -> Option<usize>
    ensures { result ≡ place_of_turn places.now turn }
{
    places.iter().position(|place| place.turn == turn)
}

fn is_later(place: usize) -> bool
    ensures { result ≡ is_later place }
{
    place != 0
}

// An arrow to the row at this place.
fn arrow_to(
    alloc: Global,
    from: usize,
    envelope: &Envelope,
    again: bool,
    to: usize,
) -> Result<Arrow, AllocError>
    ensures { IfOk result (λ arrow. seen_arrow arrow ≡ arrow_to from envelope.now again to) }
{
    Ok(Arrow {
        from,
        sender: envelope.from,
        to,
        receiver: envelope.to,
        again,
        label: label_text(alloc, &envelope.message)?,
        hint: message_text(alloc, &envelope.message)?,
    })
}

// Adds an arrow, if there is a row that it goes to.
fn push_arrow(
    alloc: Global,
    arrows: &mut Vec<Arrow>,
    from: usize,
    envelope: &Envelope,
    again: bool,
    to: Option<usize>,
) -> Result<(), AllocError>
    ensures { OnOk result (map seen_arrow arrows.new.items
        ≡ map seen_arrow arrows.old.items ++ arrow_if from envelope.now again to) }
{
    if let Some(to) = to {
        arrows.push(arrow_to(alloc, from, envelope, again, to)?)?;
    }
    Ok(())
}

// Adds the arrows of a message to the turns that take it.
fn push_arrows(
    alloc: Global,
    arrows: &mut Vec<Arrow>,
    places: &[Place],
    from: usize,
    envelope: &Envelope,
    turns: &[usize],
) -> Result<(), AllocError>
    ensures { OnOk result (map seen_arrow arrows.new.items
        ≡ map seen_arrow arrows.old.items
        ++ shown_message_arrows places.now from envelope.now turns.now) }
{
    for (count, turn) in turns.iter().enumerate() {
        let to = place_of_turn(places, *turn);
        push_arrow(alloc, arrows, from, envelope, is_later(count), to)?;
    }
    Ok(())
}

// Adds the arrows of messages that the turn of a row sends.
fn push_all_arrows(
    alloc: Global,
    arrows: &mut Vec<Arrow>,
    turns: &[TurnOf<'_>],
    takings: &Takings,
    places: &[Place],
    from: usize,
    out: &[Envelope],
) -> Result<(), AllocError>
    requires { AreTakings turns.now takings.now }
    ensures { OnOk result (map seen_arrow arrows.new.items ≡ map seen_arrow arrows.old.items
        ++ flat_map (λ envelope. shown_message_arrows places.now from envelope
        (takers turns.now envelope)) out.now) }
{
    for envelope in out {
        let takers = takers(alloc, turns, takings, envelope)?;
        push_arrows(alloc, arrows, places, from, envelope, takers.as_slice())?;
    }
    Ok(())
}

/// Returns the arrows of the messages that the turns at these places send, given from which turn to which each message is
/// taken.
pub(crate) fn arrows_of(
    alloc: Global,
    turns: &[TurnOf<'_>],
    takings: &Takings,
    places: &[Place],
) -> Result<Vec<Arrow>, AllocError>
    requires { AreTakings turns.now takings.now }
    ensures { IfOk result (λ arrows. map seen_arrow arrows.items
        ≡ shown_arrows turns.now places.now) }
{
    let mut arrows = Vec::new(alloc);
    for (from, place) in places.iter().enumerate() {
        let out = sent_in_turn(turns, place.turn);
        push_all_arrows(alloc, &mut arrows, turns, takings, places, from, out)?;
    }
    Ok(arrows)
}

fn lost_one(alloc: Global, from: usize, envelope: &Envelope) -> Result<Lost, AllocError>
    ensures { IfOk result (λ lost. seen_lost lost ≡ lost_one from envelope.now) }
{
    Ok(Lost {
        from,
        sender: envelope.from,
        receiver: envelope.to,
        label: label_text(alloc, &envelope.message)?,
        hint: message_text(alloc, &envelope.message)?,
    })
}

// Adds a message, if no turn takes it.
fn push_lost(
    alloc: Global,
    all: &mut Vec<Lost>,
    from: usize,
    envelope: &Envelope,
    takers: &[usize],
) -> Result<(), AllocError>
    ensures { OnOk result (map seen_lost all.new.items
        ≡ map seen_lost all.old.items ++ lost_if from envelope.now takers.now) }
{
    if takers.is_empty() {
        all.push(lost_one(alloc, from, envelope)?)?;
    }
    Ok(())
}

// Adds the messages that the turn of a row sends, and that no turn takes.
fn push_all_lost(
    alloc: Global,
    all: &mut Vec<Lost>,
    turns: &[TurnOf<'_>],
    takings: &Takings,
    from: usize,
    out: &[Envelope],
) -> Result<(), AllocError>
    requires { AreTakings turns.now takings.now }
    ensures { OnOk result (map seen_lost all.new.items ≡ map seen_lost all.old.items
        ++ flat_map (λ envelope. lost_if from envelope (takers turns.now envelope)) out.now) }
{
    for envelope in out {
        let takers = takers(alloc, turns, takings, envelope)?;
        push_lost(alloc, all, from, envelope, takers.as_slice())?;
    }
    Ok(())
}

/// Returns the messages that the turns at these places send and no turn takes, given from which turn to which each
/// message is taken.
pub(crate) fn lost_of(
    alloc: Global,
    turns: &[TurnOf<'_>],
    takings: &Takings,
    places: &[Place],
) -> Result<Vec<Lost>, AllocError>
    requires { AreTakings turns.now takings.now }
    ensures { IfOk result (λ all. map seen_lost all.items ≡ shown_lost turns.now places.now) }
{
    let mut all = Vec::new(alloc);
    for (from, place) in places.iter().enumerate() {
        let out = sent_in_turn(turns, place.turn);
        push_all_lost(alloc, &mut all, turns, takings, from, out)?;
    }
    Ok(all)
}
