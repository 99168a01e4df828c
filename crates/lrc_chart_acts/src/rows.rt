// The rows of a picture of acts.

ghost use Rattle.std.specs.Prelude.{◌≡◌, ◌<◌, ◌∷◌, ◌++◌, [], IfOk, OnOk, length, map, take};
ghost use Rattle.lrc_chart_build.specs.Counts.{AreCounts, AreCountsAt};
ghost use Rattle.lrc_chart_build.specs.Seen.{seen_row};
ghost use Rattle.lrc_chart_build.specs.Words.{act_words};
ghost use Rattle.lrc_acts_text.specs.Acts.{act_at};
ghost use Rattle.lrc_chart_acts.specs.Rows.{act_row, act_rows};

use lrc_chart_build::{
    Counts, Known, Place, act_closes, act_place_text, deed_kind, hint_text, new_time_text,
    push_act_words,
};
use lrc_chart_model::Row;
use lrc_explain::act_at;
use lrc_trace::act::{Act, Deed};
use std::alloc::{AllocError, Global};

fn words_of(
    alloc: Global,
    known: &Known<'_>,
    counts: &Counts,
    position: Option<usize>,
    deed: Deed,
) -> Result<Vec<u8>, AllocError>
    requires { AreCountsAt known.now.acts position counts.now }
    ensures { IfOk result (λ words. words.items ≡ act_words known.now position deed) }
{
    let mut words = Vec::new(alloc);
    push_act_words(&mut words, known, counts, position, deed)?;
    Ok(words)
}

// The row at a place, which is of this act, given the counts at it.
fn act_row(
    alloc: Global,
    known: &Known<'_>,
    counts: &Counts,
    places: &[Place],
    at: usize,
    place: Place,
    act: Act,
) -> Result<Row, AllocError>
    requires within { at < length places.now }
    requires counts { AreCountsAt known.now.acts place.act counts.now }
    ensures { IfOk result (λ row. seen_row row ≡ act_row known.now places.now at place act) }
{
    Ok(Row {
        number: place.number,
        column: act.node,
        kind: deed_kind(act.deed),
        words: words_of(alloc, known, counts, place.act, act.deed)?,
        time: new_time_text(alloc, known, &places[..at], act.node, place.act)?,
        invalid: Vec::new(alloc),
        place: act_place_text(alloc, known, counts, act.node, place.act)?,
        hint: hint_text(alloc, known, place.act)?,
        closes: act_closes(Some(act)),
        circled: false,
    })
}

// Adds the row at a place.
fn push_act_row(
    alloc: Global,
    rows: &mut Vec<Row>,
    known: &Known<'_>,
    counts: &Counts,
    places: &[Place],
    at: usize,
    place: Place,
) -> Result<(), AllocError>
    requires within { at < length places.now }
    requires counts { AreCountsAt known.now.acts place.act counts.now }
    ensures { OnOk result (map seen_row rows.new.items
        ≡ map seen_row rows.old.items
        ++ act_row known.now places.now at place (act_at known.now.acts place.turn) ∷ []) }
{
    let act = act_at(known.acts, place.turn);
    rows.push(act_row(alloc, known, counts, places, at, place, act)?)?;
    Ok(())
}

// Goes to the act at a place, if there is one.
fn go_to_place(counts: &mut Counts, known: &Known<'_>, place: Place)
    requires { AreCounts known.now.acts counts.old.position counts.old }
    ensures counts { AreCountsAt known.now.acts place.act counts.new }
    ensures here { AreCounts known.now.acts counts.new.position counts.new }
{
    counts.go_to_act(known.acts, place.act);
}

/// Returns the rows at these places.
pub(crate) fn act_rows(
    alloc: Global,
    known: &Known<'_>,
    places: &[Place],
) -> Result<Vec<Row>, AllocError>
    ensures { IfOk result (λ rows. map seen_row rows.items ≡ act_rows known.now places.now) }
{
    let mut rows = Vec::new(alloc);
    let mut counts = Counts::new();
    for (at, place) in places.iter().enumerate() {
        go_to_place(&mut counts, known, *place);
        push_act_row(alloc, &mut rows, known, &counts, places, at, *place)?;
    }
    Ok(rows)
}
