// Where things stand, in pixels: columns from the left, rows from the top.

use crate::frames::{Frame, first_foot, frame_at, frames_of, room_of, rows_foot};
use crate::lanes::{Lane, lane_at, lanes_by, next_left};
use lrc_chart_model::{Band, Picture};
use std::alloc::{AllocError, Global};

/// The columns of a picture, and the boxes of its rows.
#[derive(Drop)]
pub(crate) struct Layout {
    lanes: Vec<Lane>,
    frames: Vec<Frame>,
}

impl Layout {
    ghost use Rattle.std.specs.Prelude.{◌≡◌, ◌<◌, ◌≤◌, ◌+◌, ◌*◌, ◌^◌, IfOk, length};
    ghost use Rattle.lrc_chart_svg.specs.Frames.{frame_at, rows_foot};
    ghost use Rattle.lrc_chart_svg.specs.Heights.{band_foot, height, line_height};
    ghost use Rattle.lrc_chart_svg.specs.Plan.{plan_in, plan_of};
    ghost use Rattle.lrc_chart_svg.specs.Rooms.{room_of};
    ghost use Rattle.lrc_chart_svg.specs.Widths.{lane_at, next_left};

    /// Computes the layout of a picture.
    pub(crate) fn of(alloc: Global, picture: &Picture) -> Result<Layout, AllocError>
        ensures { IfOk result (λ layout. plan_in layout ≡ plan_of picture.now) }
    {
        let frames = frames_of(alloc, picture)?;
        let lanes = lanes_by(alloc, picture, &frames)?;
        Ok(Layout { lanes, frames })
    }

    /// Returns the column with this number.
    pub(crate) fn lane(&self, column: usize) -> Lane
        ensures { result ≡ lane_at self.now.lanes.items column }
    {
        lane_at(&self.lanes, column)
    }

    /// Returns the box of the row at a place.
    pub(crate) fn frame(&self, number: usize) -> Frame
        ensures { result ≡ frame_at self.now.frames.items number }
    {
        frame_at(&self.frames, number)
    }

    /// Returns the height of the middle of a row's first line.
    pub(crate) fn height(&self, row: usize) -> u128
        ensures least { 8 ≤ result }
        ensures most { result < 2 ^ 66 }
        ensures exact { result ≡ height (plan_in self.now) row }
    {
        u128::from(self.frame(row).top) + 8
    }

    /// Returns the lowest foot of all boxes.
    pub(crate) fn foot(&self) -> u128
        ensures most { result < 2 ^ 66 }
        ensures exact { result ≡ rows_foot self.now.frames.items }
    {
        rows_foot(&self.frames)
    }

    /// Returns the height of a line below all rows, with `lines` lines above it there.
    pub(crate) fn line_height(&self, lines: u128) -> u128
        requires { lines < 2 ^ 68 }
        ensures most { result < 2 ^ 74 }
        ensures exact { result ≡ line_height (plan_in self.now) lines }
    {
        self.foot() + 20 + 20 * lines
    }

    /// Returns the foot of a band.
    pub(crate) fn band_foot(&self, band: &Band) -> u128
        ensures { result ≡ band_foot (plan_in self.now) band.now }
    {
        let count = (band.to as u128 + 1).min(18_446_744_073_709_551_615) as usize;
        first_foot(&self.frames, count) + 4
    }

    /// Returns the left edge of the column that would follow the last one.
    pub(crate) fn next_left(&self, gap: u64) -> u128
        ensures most { result < 2 ^ 66 }
        ensures exact { result ≡ next_left gap self.now.lanes.items }
    {
        next_left(gap, &self.lanes)
    }

    /// Returns the width of a box in letters.
    pub(crate) fn room(&self) -> u32
        ensures { result ≡ room_of (length self.now.lanes.items) }
    {
        room_of(self.lanes.len())
    }
}
