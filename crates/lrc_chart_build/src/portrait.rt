// A run as a picture.

ghost use Rattle.std.specs.Prelude.{◌≡◌, ◌<◌, ◌≤◌, ◌∷◌, ◌++◌, [], IfErr, IfOk, OnOk, if◌then◌else◌, length, map, option_map};
ghost use Rattle.lrc_chart_build.specs.declared.portrait.PortraitFault.TheVariants.{NoMemory, TooLong};
ghost use Rattle.lrc_chart_build.specs.Course.{rows_shown};
ghost use Rattle.lrc_chart_build.specs.Portrait.{IsPictureOf, IsPortrait, MOST_SHOWN, column_name, column_names};

use crate::arrows::{arrows_of, lost_of};
use crate::bands::bands_of;
use crate::circles::{circled_nodes, deadlock_lines};
use crate::course::Course;
use crate::part::{Part, Place, ends_in, kept_of, rows_in};
use crate::races::races_of;
use crate::rows::rows_of;
use crate::source::source_of;
use lrc_chart_model::Picture;
use lrc_chart_rows::takings_of;
use lrc_text::push_number;
use std::alloc::{AllocError, Global};
use thiserror::Error;

/// The most rows that a picture may show.
pub const MOST_ROWS: usize = 2000;

/// Why a picture was refused.
#[derive(Clone, Copy, Debug, PartialEq, Eq, Error)]
pub enum PortraitFault {
    /// There are more rows than a picture may show.
    #[error("too long for a chart")]
    TooLong,
    /// Memory ran out.
    #[error("out of memory")]
    NoMemory,
}

impl From<AllocError> for PortraitFault {
    ghost from_gives = { λ _ e. e ≡ NoMemory };

    fn from(_: AllocError) -> Self {
        PortraitFault::NoMemory
    }
}

fn column_name(alloc: Global, node: u8) -> Result<Vec<u8>, AllocError>
    ensures { IfOk result (λ name. name.items ≡ column_name node) }
{
    let mut name = Vec::new(alloc);
    push_number(&mut name, b"node ", u64::from(node))?;
    Ok(name)
}

fn push_column(alloc: Global, columns: &mut Vec<Vec<u8>>, node: u8) -> Result<(), AllocError>
    ensures { OnOk result (map (λ name. name.items) columns.new.items
        ≡ map (λ name. name.items) columns.old.items ++ column_name node ∷ []) }
{
    columns.push(column_name(alloc, node)?)?;
    Ok(())
}

/// Returns the names of the columns for so many nodes.
pub fn columns_of(alloc: Global, nodes: u8) -> Result<Vec<Vec<u8>>, AllocError>
    ensures { IfOk result (λ columns. map (λ name. name.items) columns.items ≡ column_names nodes) }
{
    let mut columns = Vec::new(alloc);
    for node in 0..nodes {
        push_column(alloc, &mut columns, node)?;
    }
    Ok(columns)
}

// For whom nodes wait, where the end of the run is shown; else for nobody.
fn waits_if<'a>(waits: &'a [Option<usize>], shows_end: bool) -> &'a [Option<usize>]
    ensures { result.now ≡ (if shows_end then waits.now else []) }
{
    if shows_end { waits } else { &[] }
}

// What a picture has of these rows of a run, where nodes wait like this.
fn picture_of(
    alloc: Global,
    title: &[u8],
    nodes: u8,
    course: &Course<'_>,
    waits: &[Option<usize>],
    places: &[Place],
    source: Option<&[u8]>,
) -> Result<Picture, AllocError>
    ensures { IfOk result (IsPictureOf title.now nodes course.now waits.now places.now
        (option_map (λ text. text.now) source.entry)) }
{
    let known = &course.known;
    let circled = circled_nodes(alloc, waits)?;
    let takings = takings_of(alloc, course.turns)?;
    Ok(Picture {
        title: Vec::from_slice(alloc, title)?,
        columns: columns_of(alloc, nodes)?,
        rows: rows_of(alloc, course, circled.as_slice(), places)?,
        arrows: arrows_of(alloc, course.turns, &takings, places)?,
        lost: lost_of(alloc, course.turns, &takings, places)?,
        bands: bands_of(alloc, known.acts, places)?,
        races: races_of(alloc, known, places)?,
        deadlocks: deadlock_lines(alloc, waits)?,
        source: source_of(alloc, known.lines, places, source)?,
    })
}

/// Builds the picture of a part of a run on so many nodes, with this title and beside the program's text, if that is
/// given.
///
/// It shows a message if both its ends are among the rows, or if one of the rows sends it and no turn of the run takes
/// it. It shows circles of waiting nodes if no row follows the part. The errors are `TooLong` if there are more than
/// `MOST_ROWS` rows, and `NoMemory`.
pub fn portrait_of(
    alloc: Global,
    title: &[u8],
    nodes: u8,
    course: &Course<'_>,
    part: Part,
    source: Option<&[u8]>,
) -> Result<Picture, PortraitFault>
    ensures ok { IfOk result (IsPortrait title.now nodes course.now part
        (option_map (λ text. text.now) source.entry)) }
    ensures short { IfOk result (λ _. length (rows_shown course.now part) ≤ MOST_SHOWN) }
    ensures err { IfErr result (λ fault. fault ≡ TooLong
        → MOST_SHOWN < length (rows_shown course.now part)) }
{
    let rows = lrc_chart_rows::rows_of(alloc, course.turns)?;
    let places = kept_of(
        alloc,
        course.turns,
        part.hides_quiet,
        rows_in(part, rows.as_slice()),
    )?;
    if places.len() > MOST_ROWS {
        return Err(PortraitFault::TooLong);
    }
    let waits = waits_if(course.waits, ends_in(part, rows.as_slice()));
    Ok(picture_of(
        alloc,
        title,
        nodes,
        course,
        waits,
        places.as_slice(),
        source,
    )?)
}
