// How words fill the box of a row.

ghost use Rattle.std.specs.Prelude.{◌≡◌, ◌≤◌, ◌+◌, ◌*◌, max};
ghost use Rattle.lrc_chart_svg.specs.Flow.{before, begun, behind, done_flow, kinds_flow, label_flow, labels_flow, letters, line_of, row_flow};
ghost use Rattle.lrc_chart_svg.specs.Flow.{timed_flow, wide, words_flow};

use lrc_chart_model::{Arrow, Row};

/// Returns the number of letters in some words, at most 4,294,967,295.
///
/// No words reach this bound of 4 GiB. The longest words of a run list 1,024 pages, in about 4,000 letters.
pub(crate) fn letters(words: &[u8]) -> u32
    ensures { result ≡ letters words.now }
{
    words.len().min(4_294_967_295) as u32
}

/// Returns the width of so many letters, in pixels.
pub(crate) fn width(letters: u64) -> u128
    ensures most { result ≤ 8 * letters }
    ensures exact { result ≡ wide letters }
{
    letters as u128 * 73 / 10
}

/// The extent of the words in a box: the current line, its used letters, and the most letters of any line.
#[derive(Clone, Copy)]
pub(crate) struct Flow {
    pub line: u32,
    pub used: u32,
    pub most: u32,
}

/// The place of words in a box: their line, and the number of letters before them on it.
#[derive(Clone, Copy)]
pub(crate) struct Spot {
    pub line: u32,
    pub before: u32,
}

impl Flow {
    /// Returns the extent of no words.
    pub(crate) fn begun() -> Flow
        ensures { result ≡ begun }
    {
        Flow {
            line: 0,
            used: 0,
            most: 0,
        }
    }

    /// Returns the place of the next words, which have `count` letters, in a box that is `room` letters wide.
    pub(crate) fn spot(self, room: u32, count: u32) -> Spot
        ensures line { result.line ≡ line_of room self count }
        ensures before { result.before ≡ before room self count }
        ensures fits { result.before + count ≤ max room count }
    {
        if self.used == 0 {
            Spot {
                line: self.line,
                before: 0,
            }
        } else if u64::from(self.used) + 1 + u64::from(count) <= u64::from(room) {
            Spot {
                line: self.line,
                before: self.used + 1,
            }
        } else {
            Spot {
                line: (u64::from(self.line) + 1).min(4_294_967_295) as u32,
                before: 0,
            }
        }
    }

    /// Returns the extent after `count` more letters, in a box that is `room` letters wide.
    pub(crate) fn behind(self, room: u32, count: u32) -> Flow
        ensures { result ≡ behind room self count }
    {
        if count == 0 {
            return self;
        }
        let spot = self.spot(room, count);
        let used = spot.before + count;
        Flow {
            line: spot.line,
            used,
            most: self.most.max(used),
        }
    }

    /// Returns the extent with the arrow's label added, if this row takes the arrow's message.
    pub(crate) fn behind_label(self, room: u32, number: usize, arrow: &Arrow) -> Flow
        ensures { result ≡ label_flow room number self arrow.now }
    {
        if arrow.to == number {
            self.behind(room, letters(arrow.label.as_slice()))
        } else {
            self
        }
    }
}

/// Returns the extent of the words for what a row's turn does.
pub(crate) fn done_flow(room: u32, row: &Row) -> Flow
    ensures { result ≡ done_flow room row.now }
{
    Flow::begun().behind(room, letters(row.words.as_slice()))
}

/// Returns the extent of those words followed by the node's time.
pub(crate) fn timed_flow(room: u32, row: &Row) -> Flow
    ensures { result ≡ timed_flow room row.now }
{
    done_flow(room, row).behind(room, letters(row.time.as_slice()))
}

/// Returns the extent of those words followed by the node's time and the invalid pages.
pub(crate) fn words_flow(room: u32, row: &Row) -> Flow
    ensures { result ≡ words_flow room row.now }
{
    timed_flow(room, row).behind(room, letters(row.invalid.as_slice()))
}

/// Returns the extent of a row's words followed by the kinds of the messages that it takes.
pub(crate) fn kinds_flow(room: u32, number: usize, row: &Row, arrows: &[Arrow]) -> Flow
    ensures { result ≡ kinds_flow room number row.now arrows.now }
{
    let mut flow = words_flow(room, row);
    for arrow in arrows {
        flow = flow.behind_label(room, number, arrow);
    }
    flow
}

/// Returns the extent of all words of a row.
pub(crate) fn row_flow(room: u32, number: usize, row: &Row, arrows: &[Arrow]) -> Flow
    ensures { result ≡ row_flow room number row.now arrows.now }
{
    kinds_flow(room, number, row, arrows).behind(room, letters(row.place.as_slice()))
}
