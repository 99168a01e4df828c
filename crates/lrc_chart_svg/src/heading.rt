// What stands around the rows: the title, the legend and the columns.

ghost use Rattle.std.specs.Prelude.{◌≡◌, ◌+◌, ◌++◌, ◌∷◌, [], OnOk, decimal, false};
ghost use Rattle.lrc_text.specs.Each.{each};
ghost use Rattle.lrc_chart_svg.specs.Marks.{all_marks, begins_with_digit};
ghost use Rattle.lrc_chart_svg.specs.Plan.{plan_in};
ghost use Rattle.lrc_chart_svg.specs.Shown.{column_between, column_marks, legend_marks, line, lines_named, sample, samples_named};
ghost use Rattle.lrc_chart_svg.specs.Shown.{signs_named, title_marks, told, words_from, words_named};

use crate::lanes::Lane;
use crate::layout::Layout;
use crate::paint::{Area, Point, push_box, push_label, push_path};
use crate::style::{GROUND, HEAD, Hand, INK, INVALID, LANE, MESSAGE, PALE, RACE, Style, TIME};
use lrc_chart_model::Kind;
use lrc_svg::Content;
use std::alloc::{AllocError, Global};

// Where columns begin.
const TOP: u128 = 84;
// The signs of lines in the legend.
const STROKE: &[u8] = b"h28";

const CROSSED: &[u8] = b"h23 m-5 -5 l10 10 m-10 0 l10 -10";

const KNOTTED: &[u8] = b"m0 -4 v8 m0 -4 h28 m0 -4 v8";

/// Adds the background and the title.
pub(crate) fn push_title(
    alloc: Global,
    contents: &mut Vec<Content>,
    size: Point,
    title: &[u8],
) -> Result<(), AllocError>
    ensures { OnOk result (all_marks contents.new.items
        ≡ all_marks contents.old.items ++ title_marks size.x size.y title.now) }
{
    let ground = Area {
        x: 0,
        y: 0,
        width: size.x,
        height: size.y,
    };
    push_box(alloc, contents, ground, Style::plain(GROUND))?;
    push_label(alloc, contents, Point { x: 8, y: 24 }, Hand::bold(), title)
}

// Adds the name of a sign beside it.
fn push_named(
    alloc: Global,
    contents: &mut Vec<Content>,
    x: u16,
    name: &[u8],
) -> Result<(), AllocError>
    ensures { OnOk result (all_marks contents.new.items
        ≡ all_marks contents.old.items ++ words_from (x + 34) (decimal 48) name.now ∷ []) }
{
    let at = Point {
        x: u128::from(x) + 34,
        y: 48,
    };
    push_label(alloc, contents, at, Hand::plain(INK), name)
}

// Adds a box of the legend and its name.
fn push_sample(
    alloc: Global,
    contents: &mut Vec<Content>,
    x: u16,
    kind: Kind,
    name: &[u8],
) -> Result<(), AllocError>
    ensures { OnOk result (all_marks contents.new.items
        ≡ all_marks contents.old.items ++ sample x kind name.now) }
{
    let area = Area {
        x: u128::from(x),
        y: 38,
        width: 28,
        height: 12,
    };
    push_box(alloc, contents, area, Style::row(kind))?;
    push_named(alloc, contents, x, name)
}

// Adds a line of the legend and its name.
fn push_stroke(
    alloc: Global,
    contents: &mut Vec<Content>,
    x: u16,
    strokes: &[u8],
    style: Style,
    name: &[u8],
) -> Result<(), AllocError>
    requires { begins_with_digit strokes.now ≡ false }
    ensures { OnOk result (all_marks contents.new.items
        ≡ all_marks contents.old.items ++ line x strokes.now style.dashes.now name.now) }
{
    let at = Point {
        x: u128::from(x),
        y: 44,
    };
    push_path(alloc, contents, at, strokes, style)?;
    push_named(alloc, contents, x, name)
}

// Adds what boxes are.
fn push_samples(alloc: Global, contents: &mut Vec<Content>) -> Result<(), AllocError>
    ensures { OnOk result (all_marks contents.new.items
        ≡ all_marks contents.old.items ++ samples_named) }
{
    push_sample(alloc, contents, 8, Kind::Act, b"act")?;
    push_sample(alloc, contents, 80, Kind::Wait, b"waits")?;
    push_sample(alloc, contents, 167, Kind::Message, b"messages alone")?;
    push_sample(alloc, contents, 320, Kind::Trap, b"trap")?;
    push_sample(alloc, contents, 400, Kind::Barrier, b"barrier")
}

// Adds what lines are.
fn push_lines(alloc: Global, contents: &mut Vec<Content>) -> Result<(), AllocError>
    ensures { OnOk result (all_marks contents.new.items
        ≡ all_marks contents.old.items ++ lines_named) }
{
    push_stroke(
        alloc,
        contents,
        502,
        STROKE,
        Style::line(INK, b"3"),
        b"interval ends",
    )?;
    push_stroke(
        alloc,
        contents,
        648,
        STROKE,
        Style::message(false),
        b"message",
    )?;
    push_stroke(
        alloc,
        contents,
        750,
        STROKE,
        Style::message(true),
        b"taken again",
    )?;
    push_stroke(
        alloc,
        contents,
        881,
        CROSSED,
        Style::message(false),
        b"never taken",
    )?;
    push_stroke(
        alloc,
        contents,
        1012,
        KNOTTED,
        Style::line(RACE, b"3"),
        b"race",
    )
}

// Adds what boxes and lines are.
fn push_signs(alloc: Global, contents: &mut Vec<Content>) -> Result<(), AllocError>
    ensures { OnOk result (all_marks contents.new.items
        ≡ all_marks contents.old.items ++ signs_named) }
{
    push_samples(alloc, contents)?;
    push_lines(alloc, contents)
}

// Adds a word of the legend.
fn push_told(
    alloc: Global,
    contents: &mut Vec<Content>,
    x: u16,
    colour: &'static [u8],
    name: &[u8],
) -> Result<(), AllocError>
    ensures { OnOk result (all_marks contents.new.items
        ≡ all_marks contents.old.items ++ told x name.now) }
{
    let at = Point {
        x: u128::from(x),
        y: 68,
    };
    push_label(alloc, contents, at, Hand::plain(colour), name)
}

// Adds what words in a box are.
fn push_words(alloc: Global, contents: &mut Vec<Content>) -> Result<(), AllocError>
    ensures { OnOk result (all_marks contents.new.items
        ≡ all_marks contents.old.items ++ words_named) }
{
    push_told(alloc, contents, 8, INK, b"in a box:")?;
    push_told(alloc, contents, 90, INK, b"what was done")?;
    push_told(alloc, contents, 205, TIME, b"the node's time")?;
    push_told(alloc, contents, 335, INVALID, b"pages now invalid")?;
    push_told(alloc, contents, 480, PALE, b"line and interval")
}

/// Adds the legend.
pub(crate) fn push_legend(alloc: Global, contents: &mut Vec<Content>) -> Result<(), AllocError>
    ensures { OnOk result (all_marks contents.new.items
        ≡ all_marks contents.old.items ++ legend_marks) }
{
    push_signs(alloc, contents)?;
    push_words(alloc, contents)
}

// Adds a column and its name.
fn push_column(
    alloc: Global,
    contents: &mut Vec<Content>,
    lane: Lane,
    foot: u128,
    name: &Vec<u8>,
) -> Result<(), AllocError>
    ensures { OnOk result (all_marks contents.new.items
        ≡ all_marks contents.old.items ++ column_between lane.left lane.right foot name.now) }
{
    let whole = Area {
        x: u128::from(lane.left),
        y: TOP,
        width: u128::from(lane.right).saturating_sub(u128::from(lane.left)),
        height: foot.saturating_sub(TOP),
    };
    push_box(alloc, contents, whole, Style::bordered(b"none", LANE, b"1"))?;
    let head = Area {
        height: 20,
        ..whole
    };
    push_box(alloc, contents, head, Style::bordered(HEAD, LANE, b"1"))?;
    let at = Point {
        x: u128::from(lane.left) + 6,
        y: 98,
    };
    push_label(alloc, contents, at, Hand::bold(), name.as_slice())
}

/// Adds the columns, down to a given height.
pub(crate) fn push_columns(
    alloc: Global,
    contents: &mut Vec<Content>,
    layout: &Layout,
    foot: u128,
    names: &[Vec<u8>],
) -> Result<(), AllocError>
    ensures { OnOk result (all_marks contents.new.items
        ≡ all_marks contents.old.items ++ each (column_marks (plan_in layout.now) foot) names.now) }
{
    for (column, name) in names.iter().enumerate() {
        push_column(alloc, contents, layout.lane(column), foot, name)?;
    }
    Ok(())
}
