// How large a whole picture is.

ghost use Rattle.std.specs.Prelude.{◌≡◌, ◌<◌, ◌^◌};
ghost use Rattle.lrc_chart_svg.specs.Heights.{columns_foot, run_high};
ghost use Rattle.lrc_chart_svg.specs.Plan.{plan_in};
ghost use Rattle.lrc_chart_svg.specs.Sizes.{base_wide, most_below, most_of_races, words_right};

use crate::flow::{letters, width};
use crate::frames::gap_of;
use crate::layout::Layout;
use crate::paint::Point;
use crate::source::{source_foot, source_wide};
use lrc_chart_model::Picture;

// How wide the legend is.
const LEGEND_WIDTH: u128 = 1092;

/// The size of a picture, and the foot of its columns.
#[derive(Clone, Copy)]
pub(crate) struct Size {
    pub whole: Point,
    pub foot: u128,
    /// The left edge of the program's text, and its width.
    pub left: u128,
    pub source: u128,
}

fn most_of_races(picture: &Picture) -> u32
    ensures { result ≡ most_of_races picture.now }
{
    let mut most = 0u32;
    for race in &picture.races {
        most = most.max(letters(race.label.as_slice()));
    }
    most
}

fn most_below(picture: &Picture) -> u32
    ensures { result ≡ most_below picture.now }
{
    let mut most = most_of_races(picture);
    for words in &picture.deadlocks {
        most = most.max(letters(words.as_slice()));
    }
    most
}

// Where what stands below the rows ends.
fn words_right(picture: &Picture) -> u128
    ensures most { result < 2 ^ 60 }
    ensures exact { result ≡ words_right picture.now }
{
    width(u64::from(most_below(picture))) + 100
}

fn base_width(layout: &Layout, picture: &Picture) -> u128
    ensures most { result < 2 ^ 70 }
    ensures exact { result ≡ base_wide (plan_in layout.now) picture.now }
{
    let columns = layout.next_left(gap_of(picture.columns.len()));
    let words = words_right(picture).max(width(picture.title.len() as u64) + 16);
    columns.max(words).max(LEGEND_WIDTH)
}

fn run_height(layout: &Layout, picture: &Picture) -> u128
    ensures { result ≡ run_high (plan_in layout.now) picture.now }
{
    let lost = picture.lost.len() as u128;
    let races = picture.races.len() as u128;
    layout.line_height(lost + races + picture.deadlocks.len() as u128)
}

fn columns_foot(layout: &Layout, picture: &Picture) -> u128
    ensures { result ≡ columns_foot (plan_in layout.now) picture.now }
{
    layout.foot() + 10 + 20 * picture.lost.len() as u128
}

impl Size {
    ghost use Rattle.std.specs.Prelude.{◌≡◌, ◌<◌, ◌^◌};
    ghost use Rattle.lrc_chart_svg.specs.Heights.{columns_foot, picture_high};
    ghost use Rattle.lrc_chart_svg.specs.Plan.{plan_in};
    ghost use Rattle.lrc_chart_svg.specs.Sizes.{base_wide, picture_wide};
    ghost use Rattle.lrc_chart_svg.specs.Source.{source_wide};

    pub(crate) fn of(layout: &Layout, picture: &Picture) -> Size
        ensures wide { result.whole.x ≡ picture_wide (plan_in layout.now) picture.now }
        ensures high { result.whole.y ≡ picture_high (plan_in layout.now) picture.now }
        ensures foot { result.foot ≡ columns_foot (plan_in layout.now) picture.now }
        ensures near { result.left < 2 ^ 70 }
        ensures left { result.left ≡ base_wide (plan_in layout.now) picture.now }
        ensures source { result.source ≡ source_wide picture.now.source.items }
    {
        let left = base_width(layout, picture);
        let source = source_wide(picture.source.as_slice());
        let foot = source_foot(picture.source.len());
        Size {
            whole: Point {
                x: left + source,
                y: run_height(layout, picture).max(foot),
            },
            foot: columns_foot(layout, picture),
            left,
            source,
        }
    }
}
