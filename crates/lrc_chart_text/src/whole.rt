// A picture as text.

ghost use Rattle.std.specs.Prelude.{◌≡◌, ◌<◌, ◌==◌, ◌∷◌, ◌++◌, [], IfOk, OnOk, codes, length};
ghost use Rattle.lrc_text.specs.Each.{each};
ghost use Rattle.lrc_text.specs.Parts.{texts_of};
ghost use Rattle.lrc_chart_text.specs.Columns.{bars_margin};
ghost use Rattle.lrc_chart_text.specs.Lines.{lines_text};
ghost use Rattle.lrc_chart_text.specs.Sketch.{all_deadlock_lines, all_race_lines, band_lines, begin_lines, deadlock_lines, end_lines, foot_lines, legend_lines, lines_if, loose_lines, name_lines};
ghost use Rattle.lrc_chart_text.specs.Sketch.{race_head, race_lines, row_lines, shape_of, sketch_text, title_lines, turn_lines};

use crate::columns::{Shape, band_margin, bars_margin, name_margin, room_of, row_margin};
use crate::lines::push_paragraph;
use crate::phrases::{number_of_row, push_copy, push_race_name, row_phrases, words_of_row};
use lrc_chart_model::{Arrow, Band, Picture, Race, Row};
use lrc_text::push_number;
use std::alloc::{AllocError, Global};

// ---- above the rows

// Adds words that stand beside no column.
fn push_loose(text: &mut Vec<u8>, phrases: &[Vec<u8>]) -> Result<(), AllocError>
    ensures { OnOk result (text.new.items
        ≡ text.old.items ++ lines_text (loose_lines 98 (texts_of phrases.now))) }
{
    push_paragraph(text, b"", b"  ", 98, phrases)
}

fn push_title(alloc: Global, text: &mut Vec<u8>, title: &[u8]) -> Result<(), AllocError>
    ensures { OnOk result (text.new.items ≡ text.old.items ++ lines_text (title_lines title.now)) }
{
    let mut phrases = Vec::new(alloc);
    push_copy(alloc, &mut phrases, title)?;
    push_loose(text, &phrases)
}

fn push_legend(text: &mut Vec<u8>) -> Result<(), AllocError>
    ensures { OnOk result (text.new.items ≡ text.old.items ++ lines_text legend_lines) }
{
    text.extend_from_slice(
        b"
*  act   .  begins to wait   o  messages alone   !  trap   =  at a barrier   -*-  an interval ends
>N  message N is sent   <N  it is taken   +--->  from sender to taker   again  taken a second time
>x  a message that is never taken   race N  an act of that group of races; the groups stand below

",
    )
}

fn push_name(
    alloc: Global,
    text: &mut Vec<u8>,
    columns: usize,
    column: usize,
    name: &Vec<u8>,
) -> Result<(), AllocError>
    ensures { OnOk result (text.new.items
        ≡ text.old.items ++ lines_text (name_lines columns column name.now)) }
{
    let margin = name_margin(alloc, columns, column)?;
    let mut phrases = Vec::new(alloc);
    push_copy(alloc, &mut phrases, name.as_slice())?;
    push_paragraph(text, &margin, &margin, room_of(columns), &phrases)
}

// Adds the names of the columns.
fn push_names(alloc: Global, text: &mut Vec<u8>, columns: &[Vec<u8>]) -> Result<(), AllocError>
    ensures { OnOk result (text.new.items
        ≡ text.old.items ++ lines_text (each (name_lines (length columns.now)) columns.now)) }
{
    for (column, name) in columns.iter().enumerate() {
        push_name(alloc, text, columns.len(), column, name)?;
    }
    Ok(())
}

// ---- rows

// What a row shows in the columns.
fn shape_of(number: usize, row: &Row, arrows: &[Arrow]) -> Shape
    ensures { result ≡ shape_of number row.now arrows.now }
{
    for arrow in arrows {
        if arrow.to == number {
            return Shape {
                column: row.column,
                kind: row.kind,
                closes: row.closes,
                from: arrow.sender,
                to: arrow.receiver,
            };
        }
    }
    Shape {
        column: row.column,
        kind: row.kind,
        closes: row.closes,
        from: row.column,
        to: row.column,
    }
}

fn push_turn(
    alloc: Global,
    text: &mut Vec<u8>,
    picture: &Picture,
    margin: &[u8],
    number: usize,
    row: &Row,
) -> Result<(), AllocError>
    requires { margin.now ≡ bars_margin (length picture.now.columns.items) }
    ensures { OnOk result (text.new.items
        ≡ text.old.items ++ lines_text (turn_lines picture.now number row.now)) }
{
    let columns = picture.columns.len();
    let shape = shape_of(number, row, picture.arrows.as_slice());
    let first = row_margin(alloc, columns, row.number, shape)?;
    let phrases = row_phrases(alloc, picture, number, row)?;
    push_paragraph(text, &first, margin, room_of(columns), &phrases)
}

// Adds the line of a barrier, if it is to be there.
fn push_band(
    alloc: Global,
    text: &mut Vec<u8>,
    columns: usize,
    margin: &[u8],
    band: &Band,
    end: &[u8],
    is_here: bool,
) -> Result<(), AllocError>
    requires { margin.now ≡ bars_margin columns }
    ensures { OnOk result (text.new.items
        ≡ text.old.items ++ lines_text (lines_if is_here (band_lines columns end.now band.now))) }
{
    if !is_here {
        return Ok(());
    }
    let first = band_margin(alloc, columns)?;
    let mut phrase = Vec::from_slice(alloc, band.label.as_slice())?;
    phrase.extend_from_slice(end)?;
    let mut phrases = Vec::new(alloc);
    phrases.push(phrase)?;
    push_paragraph(text, &first, margin, room_of(columns), &phrases)
}

// Adds the barriers whose first row is this one, before it.
fn push_begins(
    alloc: Global,
    text: &mut Vec<u8>,
    picture: &Picture,
    margin: &[u8],
    number: usize,
) -> Result<(), AllocError>
    requires { margin.now ≡ bars_margin (length picture.now.columns.items) }
    ensures { OnOk result (text.new.items
        ≡ text.old.items ++ lines_text (begin_lines picture.now number)) }
{
    let columns = picture.columns.len();
    for band in &picture.bands {
        push_band(
            alloc,
            text,
            columns,
            margin,
            band,
            b" from here",
            band.from == number,
        )?;
    }
    Ok(())
}

// Adds the barriers whose last row is this one, behind it.
fn push_ends(
    alloc: Global,
    text: &mut Vec<u8>,
    picture: &Picture,
    margin: &[u8],
    number: usize,
) -> Result<(), AllocError>
    requires { margin.now ≡ bars_margin (length picture.now.columns.items) }
    ensures { OnOk result (text.new.items
        ≡ text.old.items ++ lines_text (end_lines picture.now number)) }
{
    let columns = picture.columns.len();
    for band in &picture.bands {
        push_band(
            alloc,
            text,
            columns,
            margin,
            band,
            b" to here",
            band.to == number,
        )?;
    }
    Ok(())
}

fn push_row(
    alloc: Global,
    text: &mut Vec<u8>,
    picture: &Picture,
    margin: &[u8],
    number: usize,
    row: &Row,
) -> Result<(), AllocError>
    requires { margin.now ≡ bars_margin (length picture.now.columns.items) }
    ensures { OnOk result (text.new.items
        ≡ text.old.items ++ lines_text (row_lines picture.now number row.now)) }
{
    push_begins(alloc, text, picture, margin, number)?;
    push_turn(alloc, text, picture, margin, number, row)?;
    push_ends(alloc, text, picture, margin, number)
}

fn push_rows(alloc: Global, text: &mut Vec<u8>, picture: &Picture) -> Result<(), AllocError>
    ensures { OnOk result (text.new.items
        ≡ text.old.items ++ lines_text (each (row_lines picture.now) picture.now.rows.items)) }
{
    let margin = bars_margin(alloc, picture.columns.len())?;
    for (number, row) in picture.rows.iter().enumerate() {
        push_row(alloc, text, picture, &margin, number, row)?;
    }
    Ok(())
}

// ---- races

fn push_race_head(text: &mut Vec<u8>, rows: &[Row], race: &Race) -> Result<(), AllocError>
    ensures { OnOk result (text.new.items ≡ text.old.items ++ race_head rows.now race.now) }
{
    push_race_name(text, race.number)?;
    push_number(text, b": row ", number_of_row(rows, race.from) as u64)?;
    push_number(text, b" and row ", number_of_row(rows, race.to) as u64)
}

fn push_race(alloc: Global, text: &mut Vec<u8>, rows: &[Row], race: &Race) -> Result<(), AllocError>
    ensures { OnOk result (text.new.items
        ≡ text.old.items ++ lines_text (race_lines rows.now race.now)) }
{
    let mut head = Vec::new(alloc);
    push_race_head(&mut head, rows, race)?;
    let mut phrases = Vec::new(alloc);
    phrases.push(head)?;
    push_copy(alloc, &mut phrases, words_of_row(rows, race.from))?;
    push_copy(alloc, &mut phrases, words_of_row(rows, race.to))?;
    push_copy(alloc, &mut phrases, race.label.as_slice())?;
    push_copy(alloc, &mut phrases, race.hint.as_slice())?;
    push_loose(text, &phrases)
}

// Adds the groups of races, if there are any.
fn push_races(
    alloc: Global,
    text: &mut Vec<u8>,
    rows: &[Row],
    races: &[Race],
) -> Result<(), AllocError>
    ensures { OnOk result (text.new.items
        ≡ text.old.items ++ lines_text (all_race_lines rows.now races.now)) }
{
    if races.is_empty() {
        return Ok(());
    }
    text.extend_from_slice(b"\n")?;
    for race in races {
        push_race(alloc, text, rows, race)?;
    }
    Ok(())
}

// ---- circles of waiting

fn push_deadlock(alloc: Global, text: &mut Vec<u8>, words: &Vec<u8>) -> Result<(), AllocError>
    ensures { OnOk result (text.new.items
        ≡ text.old.items ++ lines_text (deadlock_lines words.now)) }
{
    let mut phrases = Vec::new(alloc);
    push_copy(alloc, &mut phrases, words.as_slice())?;
    push_loose(text, &phrases)
}

// Adds the circles of waiting, if there are any.
fn push_deadlocks(
    alloc: Global,
    text: &mut Vec<u8>,
    deadlocks: &[Vec<u8>],
) -> Result<(), AllocError>
    ensures { OnOk result (text.new.items
        ≡ text.old.items ++ lines_text (all_deadlock_lines deadlocks.now)) }
{
    if deadlocks.is_empty() {
        return Ok(());
    }
    text.extend_from_slice(b"\n")?;
    for words in deadlocks {
        push_deadlock(alloc, text, words)?;
    }
    Ok(())
}

// Adds what stands below the rows.
fn push_foot(alloc: Global, text: &mut Vec<u8>, picture: &Picture) -> Result<(), AllocError>
    ensures { OnOk result (text.new.items ≡ text.old.items ++ lines_text (foot_lines picture.now)) }
{
    push_races(
        alloc,
        text,
        picture.rows.as_slice(),
        picture.races.as_slice(),
    )?;
    push_deadlocks(alloc, text, picture.deadlocks.as_slice())
}

/// Returns a picture as text.
pub fn sketch(alloc: Global, picture: &Picture) -> Result<Vec<u8>, AllocError>
    ensures { IfOk result (λ text. text.items ≡ sketch_text picture.now) }
{
    let mut text = Vec::new(alloc);
    push_title(alloc, &mut text, picture.title.as_slice())?;
    push_legend(&mut text)?;
    push_names(alloc, &mut text, picture.columns.as_slice())?;
    push_rows(alloc, &mut text, picture)?;
    push_foot(alloc, &mut text, picture)?;
    Ok(text)
}
