// Which rows of a run are shown.

ghost use Rattle.std.specs.Prelude.{◌≡◌, ◌++◌, IfOk, OnOk, option_map, slice_get, take};
ghost use Rattle.lrc_chart_build.specs.Course.{ends_in, first_place, is_act_at, is_quiet, is_quiet_act, is_quiet_deed, is_quiet_turn, kept, kept_of};
ghost use Rattle.lrc_chart_build.specs.Course.{past_place, place_of, place_of_act, row_of_act, rows_in, shown_act};
ghost use Rattle.lrc_chart_rows.specs.Rows.{takes_some};

use lrc_chart_rows::{Row, TurnOf};
use lrc_log::Input;
use lrc_trace::act::{Act, Deed};
use std::alloc::{AllocError, Global};

/// The rows of a run that are shown. `from` and `to` are positions of acts, if given: the rows go from the first act's
/// row to the second's, both included. Rows that have nothing but a quiet act may be hidden.
#[derive(Clone, Copy, Debug, PartialEq, Eq)]
pub struct Part {
    pub from: Option<usize>,
    pub to: Option<usize>,
    pub hides_quiet: bool,
}

/// A row that is shown.
#[derive(Clone, Copy, PartialEq, Eq)]
pub struct Place {
    /// Its number: its place among the rows of its part, counted from 0, hidden rows included.
    pub number: usize,
    /// The position of its turn in the run.
    pub turn: usize,
    /// The position of the turn's act among the acts of the run, if the turn makes one.
    pub act: Option<usize>,
}

/// Returns the turn at a position, if there is one.
pub(crate) fn turn_at<'a, 'e>(turns: &'a [TurnOf<'e>], position: usize) -> Option<&'a TurnOf<'e>>
    ensures { option_map (λ turn. turn.now) result ≡ slice_get turns.now position }
{
    turns.get(position)
}

// ---- a part of a run

// Whether an act is the one at this position.
fn is_act_at(position: usize, act: Option<usize>) -> bool
    ensures { result ≡ is_act_at position act }
{
    match act {
        Some(act) => act == position,
        None => false,
    }
}

// The place of the row of the act at a position, if it is among them.
fn row_of_act(rows: &[Row], act: usize) -> Option<usize>
    ensures { result ≡ row_of_act rows.now act }
{
    rows.iter().position(|row| is_act_at(act, row.act))
}

// The same; where it is not, the number of the rows.
fn place_of_act(rows: &[Row], act: usize) -> usize
    ensures { result ≡ place_of_act rows.now act }
{
    match row_of_act(rows, act) {
        Some(place) => place,
        None => rows.len(),
    }
}

fn first_place(rows: &[Row], from: Option<usize>) -> usize
    ensures { result ≡ first_place rows.now from }
{
    match from {
        Some(position) => place_of_act(rows, position),
        None => 0,
    }
}

// The rows up to the last of a part.
fn rows_up_to(rows: &[Row], to: Option<usize>) -> &[Row]
    ensures { result.now ≡ take (past_place rows.now to) rows.now }
{
    match to {
        Some(position) => {
            let place = place_of_act(rows, position);
            if place < rows.len() {
                &rows[..place + 1]
            } else {
                rows
            }
        }
        None => rows,
    }
}

/// Returns the rows of a part, from the row of its first act to the row of its last act.
pub(crate) fn rows_in(part: Part, rows: &[Row]) -> &[Row]
    ensures { result.now ≡ rows_in part rows.now }
{
    let first = first_place(rows, part.from);
    let front = rows_up_to(rows, part.to);
    &front[first.min(front.len())..]
}

/// Returns whether no row follows the rows of a part.
pub(crate) fn ends_in(part: Part, rows: &[Row]) -> bool
    ensures { result ≡ ends_in part rows.now }
{
    match part.to {
        Some(position) => rows.len() <= place_of_act(rows, position).saturating_add(1),
        None => true,
    }
}

// ---- rows that are hidden

fn is_quiet_deed(deed: Deed) -> bool
    ensures { result ≡ is_quiet_deed deed }
{
    matches!(deed, Deed::Quiet)
}

fn is_quiet_act(act: Option<Act>) -> bool
    ensures { result ≡ is_quiet_act act }
{
    match act {
        Some(act) => is_quiet_deed(act.deed),
        None => false,
    }
}

fn takes_some(turn: &TurnOf<'_>) -> bool
    ensures { result ≡ takes_some turn.now.entry.input }
{
    let entry = turn.entry;
    matches!(entry.input, Input::Taken(_))
}

// Whether a turn makes a quiet act, and takes and sends nothing.
fn is_quiet_turn(turn: &TurnOf<'_>) -> bool
    ensures { result ≡ is_quiet_turn turn.now }
{
    let entry = turn.entry;
    is_quiet_act(entry.turn.act) && !takes_some(turn) && entry.turn.out.is_empty()
}

fn is_quiet(turns: &[TurnOf<'_>], position: usize) -> bool
    ensures { result ≡ is_quiet (slice_get turns.now position) }
{
    match turn_at(turns, position) {
        Some(turn) => is_quiet_turn(turn),
        None => false,
    }
}

// A row with its number.
fn place_of(number: usize, row: Row) -> Place
    ensures { result ≡ place_of number row }
{
    Place {
        number,
        turn: row.turn,
        act: row.act,
    }
}

// Adds a row, unless it is hidden.
fn push_kept(
    places: &mut Vec<Place>,
    turns: &[TurnOf<'_>],
    hides: bool,
    number: usize,
    row: Row,
) -> Result<(), AllocError>
    ensures { OnOk result (places.new.items ≡ places.old.items ++ kept turns.now hides number row) }
{
    if hides && is_quiet(turns, row.turn) {
        return Ok(());
    }
    places.push(place_of(number, row))?;
    Ok(())
}

/// Returns the rows of a part that are not hidden. The rows are numbered from 0 before any is hidden.
pub(crate) fn kept_of(
    alloc: Global,
    turns: &[TurnOf<'_>],
    hides: bool,
    rows: &[Row],
) -> Result<Vec<Place>, AllocError>
    ensures { IfOk result (λ places. places.items ≡ kept_of turns.now hides rows.now) }
{
    let mut places = Vec::new(alloc);
    for (number, row) in rows.iter().enumerate() {
        push_kept(&mut places, turns, hides, number, *row)?;
    }
    Ok(places)
}

// ---- acts in rows that are shown

/// Returns the place of the row that shows the act at a position, if one does.
pub(crate) fn shown_act(places: &[Place], act: usize) -> Option<usize>
    ensures { result ≡ shown_act places.now act }
{
    places.iter().position(|place| is_act_at(act, place.act))
}
