// Where columns stand, from the left.

ghost use Rattle.std.specs.Prelude.{◌≡◌, ◌≤◌, ◌<◌, ◌^◌, IfOk, length};
ghost use Rattle.lrc_chart_svg.specs.Widths.{lane_at, lane_behind, lane_from, lane_letters, lanes_by, most_of_lost, most_of_rows, next_left};

use crate::flow::{letters, width};
use crate::frames::{Frame, gap_of};
use lrc_chart_model::{Lost, Picture};
use std::alloc::{AllocError, Global};

/// The left and right edges of a column.
#[derive(Clone, Copy)]
pub(crate) struct Lane {
    pub left: u64,
    pub right: u64,
}

fn most_of_rows(column: usize, least: u32, frames: &[Frame]) -> u32
    ensures { result ≡ most_of_rows column least frames.now }
{
    let mut most = least;
    for frame in frames {
        if usize::from(frame.column) == column {
            most = most.max(frame.letters);
        }
    }
    most
}

fn most_of_lost(column: usize, least: u32, all: &[Lost]) -> u32
    ensures { result ≡ most_of_lost column least all.now }
{
    let mut most = least;
    for lost in all {
        if usize::from(lost.receiver) == column {
            most = most.max(letters(lost.label.as_slice()));
        }
    }
    most
}

// The most letters beside each other in a column.
fn lane_letters(column: usize, name: &[u8], frames: &[Frame], lost: &[Lost]) -> u32
    ensures { result ≡ lane_letters column name.now frames.now lost.now }
{
    most_of_lost(column, most_of_rows(column, letters(name), frames), lost)
}

/// Returns the left edge of the column that would follow these.
pub(crate) fn next_left(gap: u64, lanes: &[Lane]) -> u128
    ensures few { result < 2 ^ 66 }
    ensures exact { result ≡ next_left gap lanes.now }
{
    let mut left: u128 = 84;
    for lane in lanes {
        left = u128::from(lane.right) + u128::from(gap);
    }
    left
}

fn lane_from(left: u128, letters: u32) -> Lane
    ensures { result ≡ lane_from left letters }
{
    let left = left.min(18_446_744_073_709_551_615);
    let right = left + width(u64::from(letters)) + 12;
    Lane {
        left: left as u64,
        right: right.min(18_446_744_073_709_551_615) as u64,
    }
}

fn lane_behind(picture: &Picture, frames: &[Frame], lanes: &[Lane], name: &Vec<u8>) -> Lane
    ensures { result ≡ lane_behind picture.now frames.now lanes.now name.now }
{
    let left = next_left(gap_of(picture.columns.len()), lanes);
    let letters = lane_letters(
        lanes.len(),
        name.as_slice(),
        frames,
        picture.lost.as_slice(),
    );
    lane_from(left, letters)
}

/// Returns all columns of a picture.
pub(crate) fn lanes_by(
    alloc: Global,
    picture: &Picture,
    frames: &[Frame],
) -> Result<Vec<Lane>, AllocError>
    ensures { IfOk result (λ lanes. lanes.items ≡ lanes_by picture.now frames.now) }
{
    let mut lanes = Vec::new(alloc);
    for name in &picture.columns {
        let lane = lane_behind(picture, frames, &lanes, name);
        lanes.push(lane)?;
    }
    Ok(lanes)
}

/// Returns the column with this number.
pub(crate) fn lane_at(lanes: &[Lane], column: usize) -> Lane
    ensures { result ≡ lane_at lanes.now column }
{
    if column < lanes.len() {
        lanes[column]
    } else {
        Lane {
            left: 84,
            right: 84,
        }
    }
}
