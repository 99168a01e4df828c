// The program's text beside a picture.

ghost use Rattle.std.specs.Prelude.{◌≡◌, ◌<◌, ◌++◌, IfOk, OnOk, map, option_map};
ghost use Rattle.std.specs.List.{list_any};
ghost use Rattle.lrc_chart_build.specs.Seen.{seen_line};
ghost use Rattle.lrc_chart_build.specs.Source.{has_none, is_on_line, shown_source, source_at, source_line, source_lines};

use crate::part::Place;
use crate::words::line_at;
use lrc_chart_model::SourceLine;
use lrc_labels::cut::{Divider, cut};
use std::alloc::{AllocError, Global};

fn is_on_line(lines: &[u32], line: usize, act: Option<usize>) -> bool
    ensures { result ≡ is_on_line lines.now line act }
{
    match act {
        Some(act) => line_at(lines, act) as usize == line,
        None => false,
    }
}

// Whether an act of one of these rows is of a line.
fn is_marked(lines: &[u32], places: &[Place], line: usize) -> bool
    ensures { result ≡ list_any (λ place. is_on_line lines.now line place.act) places.now }
{
    places
        .iter()
        .any(|place| is_on_line(lines, line, place.act))
}

fn source_line(
    alloc: Global,
    lines: &[u32],
    places: &[Place],
    number: usize,
    words: &[u8],
) -> Result<SourceLine, AllocError>
    ensures { IfOk result (λ line. seen_line line
        ≡ source_line lines.now places.now number words.now) }
{
    Ok(SourceLine {
        words: Vec::from_slice(alloc, words)?,
        marked: is_marked(lines, places, number),
    })
}

// Adds a line, from 1, but not an empty one behind all others.
fn push_line(
    alloc: Global,
    source: &mut Vec<SourceLine>,
    lines: &[u32],
    places: &[Place],
    count: usize,
    place: usize,
    words: &[u8],
) -> Result<(), AllocError>
    requires { place < 18446744073709551615 }
    ensures { OnOk result (map seen_line source.new.items
        ≡ map seen_line source.old.items ++ source_at lines.now places.now count place words.now) }
{
    if place + 1 == count && words.is_empty() {
        return Ok(());
    }
    source.push(source_line(alloc, lines, places, place + 1, words)?)?;
    Ok(())
}

fn source_lines(
    alloc: Global,
    lines: &[u32],
    places: &[Place],
    pieces: &[&[u8]],
) -> Result<Vec<SourceLine>, AllocError>
    ensures { IfOk result (λ source. map seen_line source.items
        ≡ source_lines lines.now places.now (map (λ piece. piece.now) pieces.now)) }
{
    let mut source = Vec::new(alloc);
    for (place, words) in pieces.iter().enumerate() {
        push_line(
            alloc,
            &mut source,
            lines,
            places,
            pieces.len(),
            place,
            words,
        )?;
    }
    Ok(source)
}

/// Returns the lines of a text, from line 1, or none if no text is given. A line is marked if an act of these rows
/// belongs to it.
pub(crate) fn source_of(
    alloc: Global,
    lines: &[u32],
    places: &[Place],
    text: Option<&[u8]>,
) -> Result<Vec<SourceLine>, AllocError>
    ensures { IfOk result (λ source. map seen_line source.items
        ≡ shown_source lines.now places.now (option_map (λ text. text.now) text.entry)) }
{
    match text {
        Some(text) => {
            let pieces = cut(alloc, Divider::LineFeed, text)?;
            source_lines(alloc, lines, places, pieces.as_slice())
        }
        None => Ok(Vec::new(alloc)),
    }
}
