// Rows of a picture.

ghost use Rattle.std.specs.Prelude.{◌≡◌, ◌≤◌, ◌∷◌, ◌++◌, [], IfOk, OnOk, cond, if◌then◌else◌};
ghost use Rattle.lrc_chart_rows.specs.Rows.{has_act, row_at, rows_of, shows, takes_some};

use crate::turn::TurnOf;
use lrc_log::Input;
use std::alloc::{AllocError, Global};

/// A row of a picture.
#[derive(Clone, Copy, PartialEq, Eq)]
pub struct Row {
    /// The position of its turn in the run.
    pub turn: usize,
    /// The position of the turn's act among the acts of the run, if the turn makes one.
    pub act: Option<usize>,
}

// Whether a turn takes a message.
fn takes_some(turn: &TurnOf<'_>) -> bool
    ensures { result ≡ takes_some turn.now.entry.input }
{
    let entry = turn.entry;
    matches!(entry.input, Input::Taken(_))
}

// Whether a turn has a row: it makes an act, or sends or takes a message.
fn shows(turn: &TurnOf<'_>) -> bool
    ensures { result ≡ shows turn.now }
{
    let entry = turn.entry;
    has_act(turn) || takes_some(turn) || !entry.turn.out.is_empty()
}

fn has_act(turn: &TurnOf<'_>) -> bool
    ensures { result ≡ has_act turn.now }
{
    let entry = turn.entry;
    entry.turn.act.is_some()
}

// The row of a turn at a position, with so many acts before it.
fn row_at(position: usize, makes_act: bool, acts: usize) -> Row
    ensures { result ≡ row_at position makes_act acts }
{
    Row {
        turn: position,
        act: if makes_act { Some(acts) } else { None },
    }
}

// How many acts a turn makes.
fn acts_of(makes_act: bool) -> usize
    ensures is { result ≡ cond makes_act 1 0 }
    ensures few { result ≤ 1 }
{
    if makes_act { 1 } else { 0 }
}

// Adds a row, if it is shown.
fn push_if(rows: &mut Vec<Row>, row: Row, is_shown: bool) -> Result<(), AllocError>
    ensures { OnOk result (rows.new.items ≡ rows.old.items ++ (if is_shown then row ∷ [] else [])) }
{
    if is_shown {
        rows.push(row)?;
    }
    Ok(())
}

/// Returns a row for each turn that makes an act, sends or takes a message, in order.
pub fn rows_of(alloc: Global, turns: &[TurnOf<'_>]) -> Result<Vec<Row>, AllocError>
    ensures { IfOk result (λ rows. rows.items ≡ rows_of turns.now) }
{
    let mut rows = Vec::new(alloc);
    let mut acts = 0;
    for (position, turn) in turns.iter().enumerate() {
        let has_act = has_act(turn);
        push_if(&mut rows, row_at(position, has_act, acts), shows(turn))?;
        acts += acts_of(has_act);
    }
    Ok(rows)
}
