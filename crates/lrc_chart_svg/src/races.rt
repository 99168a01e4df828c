// Groups of races, as lines between two acts, and barriers, as bands across the columns.

ghost use Rattle.std.specs.Prelude.{◌≡◌, ◌<◌, ◌+◌, ◌^◌, ◌++◌, IfOk, OnOk, decimal};
ghost use Rattle.std.specs.List.{flat_map};
ghost use Rattle.lrc_text.specs.Each.{each};
ghost use Rattle.lrc_chart_svg.specs.Marks.{all_marks};
ghost use Rattle.lrc_chart_svg.specs.Heights.{line_foot, middle};
ghost use Rattle.lrc_chart_svg.specs.Plan.{plan_in};
ghost use Rattle.lrc_chart_svg.specs.Shown.{band_marks, deadlock_marks, knotted, plated, race_ends, race_marks, race_name, race_words};
ghost use Rattle.lrc_chart_svg.specs.Ways.{beside, beside_anchor, end_side, start_side};

use crate::layout::Layout;
use crate::paint::{
    Area, Point, bytes, push_box, push_group, push_hint, push_label, push_line, push_number,
    push_path, push_plated,
};
use crate::style::{Anchor, BAND, EDGE, Hand, INK, RACE, Style};
use crate::ways::Span;
use lrc_chart_model::{Band, Race};
use lrc_svg::Content;
use std::alloc::{AllocError, Global};

// The sign at each end of a race.
const KNOT: &[u8] = b"m-5 -5 h10 v10 h-10 z";

// Adds a line with a knot at each end.
fn push_knotted(
    alloc: Global,
    inside: &mut Vec<Content>,
    from: Point,
    to: Point,
) -> Result<(), AllocError>
    ensures { OnOk result (all_marks inside.new.items
        ≡ all_marks inside.old.items
        ++ knotted (decimal from.x) (decimal from.y) (decimal to.x) (decimal to.y)) }
{
    push_line(alloc, inside, from, to, Style::line(RACE, b"3"))?;
    push_path(alloc, inside, from, KNOT, Style::plain(RACE))?;
    push_path(alloc, inside, to, KNOT, Style::plain(RACE))
}

// The name of a group.
fn race_name(alloc: Global, number: usize) -> Result<Vec<u8>, AllocError>
    ensures { IfOk result (λ name. name.items ≡ race_name number) }
{
    let mut name = bytes(alloc, b"race ")?;
    push_number(&mut name, number as u128)?;
    Ok(name)
}

// Adds a name beside the second of two columns, at this height.
fn push_beside(
    alloc: Global,
    inside: &mut Vec<Content>,
    layout: &Layout,
    from: u8,
    to: u8,
    foot: u128,
    name: &[u8],
) -> Result<(), AllocError>
    ensures { OnOk result (all_marks inside.new.items
        ≡ all_marks inside.old.items
        ++ plated (beside_anchor from to) (beside (plan_in layout.now) from to) foot name.now) }
{
    let way = Span::between(layout, from, to);
    let at = Point {
        x: way.words,
        y: foot,
    };
    push_plated(alloc, inside, at, Hand::anchored(way.anchor, RACE), name)
}

// Adds the name of a group at both ends of its line.
fn push_race_ends(
    alloc: Global,
    inside: &mut Vec<Content>,
    layout: &Layout,
    race: &Race,
    name: &[u8],
) -> Result<(), AllocError>
    ensures { OnOk result (all_marks inside.new.items ≡ all_marks inside.old.items
        ++ race_ends (plan_in layout.now) race.now.from race.now.first race.now.to race.now.second
        name.now) }
{
    let above = layout.height(race.from) - 6;
    let below = layout.height(race.to) + 15;
    push_beside(alloc, inside, layout, race.second, race.first, above, name)?;
    push_beside(alloc, inside, layout, race.first, race.second, below, name)
}

// Adds the words of a group, its name before them.
fn push_race_words(
    alloc: Global,
    inside: &mut Vec<Content>,
    foot: u128,
    name: &[u8],
    words: &[u8],
) -> Result<(), AllocError>
    ensures { OnOk result (all_marks inside.new.items
        ≡ all_marks inside.old.items ++ race_words (decimal foot) name.now words.now) }
{
    let before = Point { x: 78, y: foot };
    let at = Point { x: 84, y: foot };
    push_label(
        alloc,
        inside,
        before,
        Hand::anchored(Anchor::End, RACE),
        name,
    )?;
    push_label(alloc, inside, at, Hand::plain(RACE), words)
}

// Adds the line of a group.
fn push_race_line(
    alloc: Global,
    inside: &mut Vec<Content>,
    layout: &Layout,
    race: &Race,
) -> Result<(), AllocError>
    ensures { OnOk result (all_marks inside.new.items ≡ all_marks inside.old.items
        ++ knotted (decimal (start_side (plan_in layout.now) race.now.first race.now.second))
        (middle (plan_in layout.now) race.now.from)
        (decimal (end_side (plan_in layout.now) race.now.first race.now.second))
        (middle (plan_in layout.now) race.now.to)) }
{
    let way = Span::between(layout, race.first, race.second);
    let from = Point {
        x: way.start,
        y: layout.height(race.from),
    };
    let to = Point {
        x: way.end,
        y: layout.height(race.to),
    };
    push_knotted(alloc, inside, from, to)
}

// Adds a group, its words on a line below the rows and what is used there.
fn push_race(
    alloc: Global,
    contents: &mut Vec<Content>,
    layout: &Layout,
    used: usize,
    place: usize,
    race: &Race,
) -> Result<(), AllocError>
    ensures { OnOk result (all_marks contents.new.items
        ≡ all_marks contents.old.items ++ race_marks (plan_in layout.now) used place race.now) }
{
    let foot = layout.line_height(used as u128 + place as u128) + 4;
    let name = race_name(alloc, race.number)?;
    let mut inside = Vec::new(alloc);
    push_hint(alloc, &mut inside, race.hint.as_slice())?;
    push_race_line(alloc, &mut inside, layout, race)?;
    push_race_ends(alloc, &mut inside, layout, race, &name)?;
    push_race_words(alloc, &mut inside, foot, &name, race.label.as_slice())?;
    push_group(alloc, contents, inside)
}

/// Adds the groups of races.
pub(crate) fn push_races(
    alloc: Global,
    contents: &mut Vec<Content>,
    layout: &Layout,
    used: usize,
    races: &[Race],
) -> Result<(), AllocError>
    ensures { OnOk result (all_marks contents.new.items
        ≡ all_marks contents.old.items ++ each (race_marks (plan_in layout.now) used) races.now) }
{
    for (place, race) in races.iter().enumerate() {
        push_race(alloc, contents, layout, used, place, race)?;
    }
    Ok(())
}

// Adds the band of a barrier, as wide as the picture.
fn push_band(
    alloc: Global,
    contents: &mut Vec<Content>,
    layout: &Layout,
    width: u128,
    band: &Band,
) -> Result<(), AllocError>
    ensures { OnOk result (all_marks contents.new.items
        ≡ all_marks contents.old.items ++ band_marks (plan_in layout.now) width band.now) }
{
    let first = u128::from(layout.frame(band.from).top);
    let top = first.saturating_sub(4);
    let area = Area {
        x: 0,
        y: top,
        width,
        height: layout.band_foot(band).saturating_sub(top),
    };
    push_box(alloc, contents, area, Style::bordered(BAND, EDGE, b"1"))?;
    let at = Point {
        x: 8,
        y: first + 12,
    };
    push_label(alloc, contents, at, Hand::plain(INK), band.label.as_slice())
}

/// Adds the bands of barriers.
pub(crate) fn push_bands(
    alloc: Global,
    contents: &mut Vec<Content>,
    layout: &Layout,
    width: u128,
    bands: &[Band],
) -> Result<(), AllocError>
    ensures { OnOk result (all_marks contents.new.items
        ≡ all_marks contents.old.items
        ++ flat_map (band_marks (plan_in layout.now) width) bands.now) }
{
    for band in bands {
        push_band(alloc, contents, layout, width, band)?;
    }
    Ok(())
}

// Adds a circle of waiting.
fn push_deadlock(
    alloc: Global,
    contents: &mut Vec<Content>,
    layout: &Layout,
    used: u128,
    place: usize,
    words: &Vec<u8>,
) -> Result<(), AllocError>
    requires { used < 2 ^ 66 }
    ensures { OnOk result (all_marks contents.new.items
        ≡ all_marks contents.old.items
        ++ deadlock_marks (plan_in layout.now) used place words.now) }
{
    let at = Point {
        x: 8,
        y: layout.line_height(used + place as u128) + 4,
    };
    push_label(alloc, contents, at, Hand::plain(RACE), words.as_slice())
}

/// Adds the circles of waiting nodes (deadlocks).
pub(crate) fn push_deadlocks(
    alloc: Global,
    contents: &mut Vec<Content>,
    layout: &Layout,
    used: u128,
    deadlocks: &[Vec<u8>],
) -> Result<(), AllocError>
    requires { used < 2 ^ 66 }
    ensures { OnOk result (all_marks contents.new.items
        ≡ all_marks contents.old.items
        ++ each (deadlock_marks (plan_in layout.now) used) deadlocks.now) }
{
    for (place, words) in deadlocks.iter().enumerate() {
        push_deadlock(alloc, contents, layout, used, place, words)?;
    }
    Ok(())
}
