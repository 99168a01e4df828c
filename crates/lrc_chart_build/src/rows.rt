// Rows of a picture.

ghost use Rattle.std.specs.Prelude.{◌≡◌, ◌<◌, ◌≤◌, ◌++◌, IfOk, OnOk, length, map, slice_get, take};
ghost use Rattle.lrc_chart_build.specs.Counts.{AreCounts, AreCountsAt};
ghost use Rattle.lrc_chart_build.specs.Rows.{shown_if, shown_row, shown_rows};
ghost use Rattle.lrc_chart_build.specs.Seen.{seen_row};

use crate::circles::is_circled;
use crate::counts::Counts;
use crate::course::Course;
use crate::pages::invalid_text;
use crate::part::{Place, turn_at};
use crate::times::{hint_text, new_time_text};
use crate::waits::{turn_kind, turn_words};
use crate::words::{act_closes, act_place_text};
use lrc_chart_model::Row;
use lrc_chart_rows::TurnOf;
use std::alloc::{AllocError, Global};

// The row at a place, which is of this turn, given the counts at its act.
fn row_of(
    alloc: Global,
    course: &Course<'_>,
    counts: &Counts,
    circled: &[usize],
    places: &[Place],
    at: usize,
    place: Place,
    turn: &TurnOf<'_>,
) -> Result<Row, AllocError>
    requires within { at < length places.now }
    requires counts { AreCountsAt course.now.known.acts place.act counts.now }
    ensures { IfOk result (λ row. seen_row row
        ≡ shown_row course.now circled.now places.now at place turn.now) }
{
    let entry = turn.entry;
    let known = &course.known;
    let act = entry.turn.act;
    Ok(Row {
        number: place.number,
        column: turn.node,
        kind: turn_kind(course.turns, place.turn, turn),
        words: turn_words(alloc, course, counts, place, turn)?,
        time: new_time_text(alloc, known, &places[..at], turn.node, place.act)?,
        invalid: invalid_text(alloc, course.invalid, place.turn)?,
        place: act_place_text(alloc, known, counts, turn.node, place.act)?,
        hint: hint_text(alloc, known, place.act)?,
        closes: act_closes(act),
        circled: is_circled(course.turns, circled, places, at, place, turn),
    })
}

fn push_row(
    alloc: Global,
    rows: &mut Vec<Row>,
    course: &Course<'_>,
    counts: &Counts,
    circled: &[usize],
    places: &[Place],
    at: usize,
    place: Place,
) -> Result<(), AllocError>
    requires within { at < length places.now }
    requires counts { AreCountsAt course.now.known.acts place.act counts.now }
    ensures { OnOk result (map seen_row rows.new.items ≡ map seen_row rows.old.items
        ++ shown_if course.now circled.now places.now at place
        (slice_get course.now.turns place.turn)) }
{
    if let Some(turn) = turn_at(course.turns, place.turn) {
        rows.push(row_of(alloc, course, counts, circled, places, at, place, turn)?)?;
    }
    Ok(())
}

// Goes to the act at a place, if there is one.
fn go_to_place(counts: &mut Counts, course: &Course<'_>, place: Place)
    requires { AreCounts course.now.known.acts counts.old.position counts.old }
    ensures counts { AreCountsAt course.now.known.acts place.act counts.new }
    ensures here { AreCounts course.now.known.acts counts.new.position counts.new }
{
    counts.go_to_act(course.known.acts, place.act);
}

/// Returns the rows at these places, given the nodes of the circles of waiting nodes.
pub(crate) fn rows_of(
    alloc: Global,
    course: &Course<'_>,
    circled: &[usize],
    places: &[Place],
) -> Result<Vec<Row>, AllocError>
    ensures { IfOk result (λ rows. map seen_row rows.items
        ≡ shown_rows course.now circled.now places.now) }
{
    let mut rows = Vec::new(alloc);
    let mut counts = Counts::new();
    for (at, place) in places.iter().enumerate() {
        go_to_place(&mut counts, course, *place);
        push_row(
            alloc, &mut rows, course, &counts, circled, places, at, *place,
        )?;
    }
    Ok(rows)
}
