// The turns that take a message.

ghost use Rattle.std.specs.Prelude.{◌≡◌, ◌∷◌, ◌++◌, [], IfOk, OnOk, if◌then◌else◌, length};
ghost use Rattle.lrc_chart_rows.specs.Takers.{takers, takes_it};
ghost use Rattle.lrc_chart_rows.specs.Takings.{AreTakings, IsFromTo, name_of};

use crate::taking::{Span, Takings};
use crate::turn::TurnOf;
use lrc_envelope::Envelope;
use lrc_log::Input;
use std::alloc::{AllocError, Global};

/// Returns whether a turn takes the message.
pub fn takes(turn: &TurnOf<'_>, envelope: &Envelope) -> bool
    ensures { result ≡ takes_it envelope.now turn.now }
{
    let entry = turn.entry;
    match &entry.input {
        Input::Run => false,
        Input::Taken(taken) => {
            let taken: &Envelope = taken;
            turn.node == envelope.to
                && taken.from == envelope.from
                && taken.number == envelope.number
        }
    }
}

// Adds a position, if it is one of those that are wanted.
fn push_if(positions: &mut Vec<usize>, position: usize, is_wanted: bool) -> Result<(), AllocError>
    ensures { OnOk result (positions.new.items
        ≡ positions.old.items ++ (if is_wanted then position ∷ [] else [])) }
{
    if is_wanted {
        positions.push(position)?;
    }
    Ok(())
}

// Adds the positions from the first to the last that takes the message.
fn push_takers(
    positions: &mut Vec<usize>,
    turns: &[TurnOf<'_>],
    span: Span,
    envelope: &Envelope,
) -> Result<(), AllocError>
    requires none { positions.old.items ≡ [] }
    requires span { IsFromTo turns.now (length turns.now) (name_of envelope.now) span }
    ensures { OnOk result (positions.new.items ≡ takers turns.now envelope.now) }
{
    for position in span.first..span.last + 1 {
        push_if(positions, position, takes(&turns[position], envelope))?;
    }
    Ok(())
}

/// Returns the positions of the turns that take a message. It looks only at the turns from the first to the last that does.
pub fn takers(
    alloc: Global,
    turns: &[TurnOf<'_>],
    takings: &Takings,
    envelope: &Envelope,
) -> Result<Vec<usize>, AllocError>
    requires { AreTakings turns.now takings.now }
    ensures { IfOk result (λ positions. positions.items ≡ takers turns.now envelope.now) }
{
    let mut positions = Vec::new(alloc);
    if let Some(span) = takings.span(envelope) {
        push_takers(&mut positions, turns, span, envelope)?;
    }
    Ok(positions)
}
