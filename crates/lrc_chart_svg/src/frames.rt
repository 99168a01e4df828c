// Where rows stand, from the top.

ghost use Rattle.std.specs.Prelude.{◌≡◌, ◌≤◌, ◌<◌, ◌^◌, IfOk, length, min, take};
ghost use Rattle.std.specs.List.{list_any};
ghost use Rattle.lrc_chart_svg.specs.Frames.{apart, band_parts, box_high, frame_at, frame_below, frame_of, frames_of, arrow_touches, is_busy};
ghost use Rattle.lrc_chart_svg.specs.Frames.{is_parted, least_top, lost_touches, rows_foot, top_below};
ghost use Rattle.lrc_chart_svg.specs.Rooms.{gap_of, room_of};

use crate::flow::{Flow, row_flow};
use lrc_chart_model::{Arrow, Band, Lost, Picture, Row};
use std::alloc::{AllocError, Global};

/// Returns the width of a box in letters (20 to 36), by the number of columns.
pub(crate) fn room_of(columns: usize) -> u32
    ensures { result ≡ room_of columns }
{
    (175 / columns.max(1)).min(36).max(20) as u32
}

/// Returns the gap between two columns in pixels (56 to 120), by the number of columns.
pub(crate) fn gap_of(columns: usize) -> u64
    ensures { result ≡ gap_of columns }
{
    (460 / columns.max(1)).min(120).max(56) as u64
}

/// The box of a row: its column, its top and height in pixels, its width in letters, and whether an arrow begins or
/// ends at it.
#[derive(Clone, Copy)]
pub(crate) struct Frame {
    pub column: u8,
    pub top: u64,
    pub high: u64,
    pub letters: u32,
    pub busy: bool,
}

// Whether an arrow begins or ends at a row.
fn arrow_touches(number: usize, arrow: &Arrow) -> bool
    ensures { result ≡ arrow_touches number arrow.now }
{
    arrow.from == number || arrow.to == number
}

fn lost_touches(number: usize, lost: &Lost) -> bool
    ensures { result ≡ lost_touches number lost.now }
{
    lost.from == number
}

fn is_of_arrow(number: usize, arrows: &[Arrow]) -> bool
    ensures { result ≡ list_any (arrow_touches number) arrows.now }
{
    arrows.iter().any(|arrow| arrow_touches(number, arrow))
}

fn is_of_lost(number: usize, all: &[Lost]) -> bool
    ensures { result ≡ list_any (lost_touches number) all.now }
{
    all.iter().any(|lost| lost_touches(number, lost))
}

fn is_busy(picture: &Picture, number: usize) -> bool
    ensures { result ≡ is_busy picture.now number }
{
    is_of_arrow(number, picture.arrows.as_slice()) || is_of_lost(number, picture.lost.as_slice())
}

// Whether a band begins at a row, or ended at the one before.
fn band_parts(number: usize, band: &Band) -> bool
    ensures { result ≡ band_parts number band.now }
{
    band.from == number || band.to as u128 + 1 == number as u128
}

fn is_parted(number: usize, bands: &[Band]) -> bool
    ensures { result ≡ is_parted number bands.now }
{
    bands.iter().any(|band| band_parts(number, band))
}

impl Frame {
    ghost use Rattle.std.specs.Prelude.{◌≡◌, ◌≤◌, ◌<◌, ◌+◌, ◌^◌};
    ghost use Rattle.lrc_chart_svg.specs.Frames.{apart};

    // How far a row is at least below this one, from top to top.
    fn apart(self, column: u8, busy: bool, parted: bool) -> u128
        ensures few { result ≤ 18446744073709551615 + 10 }
        ensures exact { result ≡ apart self column busy parted }
    {
        if parted {
            u128::from(self.high) + 10
        } else if self.column == column {
            u128::from(self.high) + 5
        } else if self.busy || busy {
            12
        } else {
            8
        }
    }

    // Where its box ends.
    fn foot(self) -> u128
        ensures few { result < 2 ^ 66 }
        ensures exact { result ≡ self.top + self.high }
    {
        u128::from(self.top) + u128::from(self.high)
    }
}

fn top_below(above: &[Frame], column: u8, busy: bool, parted: bool) -> u64
    ensures { result ≡ top_below above.now column busy parted }
{
    let mut top: u128 = 112;
    for frame in above {
        top = top.max(u128::from(frame.top) + frame.apart(column, busy, parted));
    }
    top.min(18_446_744_073_709_551_615) as u64
}

// The box of a row below others, by how far its words go.
fn frame_of(picture: &Picture, above: &[Frame], flow: Flow, row: &Row) -> Frame
    ensures { result ≡ frame_of picture.now above.now flow row.now }
{
    let busy = is_busy(picture, above.len());
    let parted = is_parted(above.len(), picture.bands.as_slice());
    Frame {
        column: row.column,
        top: top_below(above, row.column, busy, parted),
        high: 13 * u64::from(flow.line) + 17,
        letters: flow.most,
        busy,
    }
}

fn frame_below(picture: &Picture, above: &[Frame], row: &Row) -> Frame
    ensures { result ≡ frame_below picture.now above.now row.now }
{
    let room = room_of(picture.columns.len());
    let flow = row_flow(room, above.len(), row, picture.arrows.as_slice());
    frame_of(picture, above, flow, row)
}

/// Returns the boxes of all rows.
pub(crate) fn frames_of(alloc: Global, picture: &Picture) -> Result<Vec<Frame>, AllocError>
    ensures { IfOk result (λ frames. frames.items ≡ frames_of picture.now) }
{
    let mut frames = Vec::new(alloc);
    for row in &picture.rows {
        let frame = frame_below(picture, &frames, row);
        frames.push(frame)?;
    }
    Ok(frames)
}

/// Returns the box of the row at a place.
pub(crate) fn frame_at(frames: &[Frame], number: usize) -> Frame
    ensures { result ≡ frame_at frames.now number }
{
    if number < frames.len() {
        frames[number]
    } else {
        Frame {
            column: 0,
            top: 112,
            high: 17,
            letters: 0,
            busy: false,
        }
    }
}

/// Returns the lowest foot among the first `count` boxes.
pub(crate) fn first_foot(frames: &[Frame], count: usize) -> u128
    ensures few { result < 2 ^ 66 }
    ensures exact { result ≡ rows_foot (take (min count (length frames.now)) frames.now) }
{
    let last = count.min(frames.len());
    rows_foot(&frames[..last])
}

/// Returns the lowest foot among these boxes.
pub(crate) fn rows_foot(frames: &[Frame]) -> u128
    ensures few { result < 2 ^ 66 }
    ensures exact { result ≡ rows_foot frames.now }
{
    let mut foot: u128 = 112;
    for frame in frames {
        foot = foot.max(frame.foot());
    }
    foot
}
