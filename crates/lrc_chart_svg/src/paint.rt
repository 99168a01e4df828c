// What is painted: elements, one behind another.

ghost use Rattle.std.specs.Prelude.{◌≡◌, ◌+◌, ◌-◌, ◌++◌, ◌∷◌, [], IfOk, OnOk, codes, decimal, false, true};
ghost use Rattle.lrc_chart_svg.specs.Attributes.{anchor_word, said};
ghost use Rattle.lrc_chart_svg.specs.Marks.{all_marks, all_words, begins, begins_with_digit, behind, box, ends, has_its_own, held, hint, own, path, stroke, word};
ghost use Rattle.lrc_chart_svg.specs.Shown.{plate_left, plated};
ghost use Rattle.lrc_chart_svg.specs.Flow.{wide};

use crate::flow::width;
use crate::style::{Anchor, GROUND, Hand, Style};
use lrc_svg::{Attribute, Content, Key, Tag};
use lrc_text::push_wide_number;
use std::alloc::{AllocError, Global};

/// A point: its distance from the left and from the top.
#[derive(Clone, Copy)]
pub(crate) struct Point {
    pub x: u128,
    pub y: u128,
}

/// A rectangle: its upper left corner and its size.
#[derive(Clone, Copy)]
pub(crate) struct Area {
    pub x: u128,
    pub y: u128,
    pub width: u128,
    pub height: u128,
}

/// Adds a number in decimal digits.
pub(crate) fn push_number(text: &mut Vec<u8>, number: u128) -> Result<(), AllocError>
    ensures { OnOk result (text.new.items ≡ text.old.items ++ decimal number) }
{
    push_wide_number(text, b"", number)
}

/// Adds the coordinates of a point: the distance from the left, a blank, and the distance from the top.
pub(crate) fn push_point(text: &mut Vec<u8>, point: Point) -> Result<(), AllocError>
    ensures { OnOk result (text.new.items
        ≡ text.old.items ++ decimal point.x ++ codes " " ++ decimal point.y) }
{
    push_number(text, point.x)?;
    text.extend_from_slice(b" ")?;
    push_number(text, point.y)
}

// A number of pixels.
fn pixels(alloc: Global, number: u128) -> Result<Vec<u8>, AllocError>
    ensures { IfOk result (λ text. text.items ≡ decimal number) }
{
    let mut text = Vec::new(alloc);
    push_number(&mut text, number)?;
    Ok(text)
}

/// Returns a copy of these words.
pub(crate) fn bytes(alloc: Global, words: &[u8]) -> Result<Vec<u8>, AllocError>
    ensures { IfOk result (λ text. text.items ≡ words.now) }
{
    Vec::from_slice(alloc, words)
}

// Words that stand alone in an element.
fn text_of(alloc: Global, words: &[u8]) -> Result<Vec<Content>, AllocError>
    ensures told { IfOk result (λ inside. all_words inside.items ≡ words.now) }
    ensures alone { IfOk result (λ inside. all_marks inside.items ≡ []) }
{
    Ok(vec![in alloc; Content::Text(bytes(alloc, words)?)]?)
}

/// Adds an attribute.
#[tactic(auto, using(crate::proofs::Said::one_more))]
pub(crate) fn push_attribute(
    attributes: &mut Vec<Attribute>,
    key: Key,
    value: Vec<u8>,
) -> Result<(), AllocError>
    ensures { OnOk result (said attributes.new.items
        ≡ said attributes.old.items ++ (key, value.items) ∷ []) }
{
    attributes.push(Attribute { key, value })?;
    Ok(())
}

/// Adds an attribute whose value is a number of pixels.
pub(crate) fn push_pixels(
    alloc: Global,
    attributes: &mut Vec<Attribute>,
    key: Key,
    number: u128,
) -> Result<(), AllocError>
    ensures { OnOk result (said attributes.new.items
        ≡ said attributes.old.items ++ (key, decimal number) ∷ []) }
{
    push_attribute(attributes, key, pixels(alloc, number)?)
}

/// Adds an attribute with these words as its value.
pub(crate) fn push_value(
    alloc: Global,
    attributes: &mut Vec<Attribute>,
    key: Key,
    words: &[u8],
) -> Result<(), AllocError>
    ensures { OnOk result (said attributes.new.items
        ≡ said attributes.old.items ++ (key, words.now) ∷ []) }
{
    push_attribute(attributes, key, bytes(alloc, words)?)
}

// Adds where an area is, and how large.
fn push_area(alloc: Global, attributes: &mut Vec<Attribute>, area: Area) -> Result<(), AllocError>
    ensures { OnOk result (said attributes.new.items ≡ said attributes.old.items
        ++ (Key.X, decimal area.x) ∷ (Key.Y, decimal area.y) ∷ (Key.Width, decimal area.width)
        ∷ (Key.Height, decimal area.height) ∷ []) }
{
    push_pixels(alloc, attributes, Key::X, area.x)?;
    push_pixels(alloc, attributes, Key::Y, area.y)?;
    push_pixels(alloc, attributes, Key::Width, area.width)?;
    push_pixels(alloc, attributes, Key::Height, area.height)
}

// Adds where a line begins and ends.
fn push_ends(
    alloc: Global,
    attributes: &mut Vec<Attribute>,
    from: Point,
    to: Point,
) -> Result<(), AllocError>
    ensures { OnOk result (said attributes.new.items ≡ said attributes.old.items
        ++ (Key.FromX, decimal from.x) ∷ (Key.FromY, decimal from.y) ∷ (Key.ToX, decimal to.x)
        ∷ (Key.ToY, decimal to.y) ∷ []) }
{
    push_pixels(alloc, attributes, Key::FromX, from.x)?;
    push_pixels(alloc, attributes, Key::FromY, from.y)?;
    push_pixels(alloc, attributes, Key::ToX, to.x)?;
    push_pixels(alloc, attributes, Key::ToY, to.y)
}

// Adds the points of a shape: where it starts, and strokes from there.
fn push_points(
    alloc: Global,
    attributes: &mut Vec<Attribute>,
    start: Point,
    strokes: &[u8],
) -> Result<(), AllocError>
    ensures { OnOk result (said attributes.new.items ≡ said attributes.old.items
        ++ (Key.Points, codes "M" ++ decimal start.x ++ codes " " ++ decimal start.y ++ strokes.now)
        ∷ []) }
{
    let mut points = bytes(alloc, b"M")?;
    push_point(&mut points, start)?;
    points.extend_from_slice(strokes)?;
    push_attribute(attributes, Key::Points, points)
}

// Adds how a line is drawn.
fn push_line_style(
    alloc: Global,
    attributes: &mut Vec<Attribute>,
    style: Style,
) -> Result<(), AllocError>
    ensures { OnOk result (said attributes.new.items ≡ said attributes.old.items
        ++ (Key.Stroke, style.stroke.now) ∷ (Key.StrokeWidth, style.width.now)
        ∷ (Key.Dashes, style.dashes.now) ∷ []) }
{
    push_value(alloc, attributes, Key::Stroke, style.stroke)?;
    push_value(alloc, attributes, Key::StrokeWidth, style.width)?;
    push_value(alloc, attributes, Key::Dashes, style.dashes)
}

// Adds how an area and its border are drawn.
fn push_style(
    alloc: Global,
    attributes: &mut Vec<Attribute>,
    style: Style,
) -> Result<(), AllocError>
    ensures { OnOk result (said attributes.new.items ≡ said attributes.old.items
        ++ (Key.Fill, style.fill.now) ∷ (Key.Stroke, style.stroke.now)
        ∷ (Key.StrokeWidth, style.width.now) ∷ (Key.Dashes, style.dashes.now) ∷ []) }
{
    push_value(alloc, attributes, Key::Fill, style.fill)?;
    push_line_style(alloc, attributes, style)
}

// Adds where words stand, and how they are written.
fn push_hand(
    alloc: Global,
    attributes: &mut Vec<Attribute>,
    at: Point,
    hand: Hand,
) -> Result<(), AllocError>
    ensures { OnOk result (said attributes.new.items ≡ said attributes.old.items
        ++ (Key.X, decimal at.x) ∷ (Key.Y, decimal at.y) ∷ (Key.Anchor, anchor_word hand.anchor)
        ∷ (Key.Fill, hand.colour.now) ∷ (Key.Weight, hand.weight.now) ∷ []) }
{
    push_pixels(alloc, attributes, Key::X, at.x)?;
    push_pixels(alloc, attributes, Key::Y, at.y)?;
    push_value(alloc, attributes, Key::Anchor, hand.anchor.word())?;
    push_value(alloc, attributes, Key::Fill, hand.colour)?;
    push_value(alloc, attributes, Key::Weight, hand.weight)
}

// Adds an element.
#[tactic(auto, using(crate::proofs::Painted::one_more))]
fn push_element(
    contents: &mut Vec<Content>,
    tag: Tag,
    attributes: Vec<Attribute>,
    inside: Vec<Content>,
) -> Result<(), AllocError>
    requires { has_its_own tag attributes.items ≡ true }
    ensures { OnOk result (all_marks contents.new.items
        ≡ all_marks contents.old.items ++ own tag attributes.items (all_words inside.items)
        ++ held tag (all_marks inside.items) ++ behind tag) }
{
    contents.push(Content::Element(tag, attributes, inside))?;
    Ok(())
}

/// Adds a box.
pub(crate) fn push_box(
    alloc: Global,
    contents: &mut Vec<Content>,
    area: Area,
    style: Style,
) -> Result<(), AllocError>
    ensures { OnOk result (all_marks contents.new.items ≡ all_marks contents.old.items
        ++ box (decimal area.x) (decimal area.y) (decimal area.width)
        (decimal area.height) style.width.now style.dashes.now ∷ []) }
{
    let mut attributes = Vec::new(alloc);
    push_area(alloc, &mut attributes, area)?;
    push_style(alloc, &mut attributes, style)?;
    push_element(contents, Tag::Box, attributes, Vec::new(alloc))
}

/// Adds a shape that begins at a point and goes on by these strokes.
pub(crate) fn push_path(
    alloc: Global,
    contents: &mut Vec<Content>,
    start: Point,
    strokes: &[u8],
    style: Style,
) -> Result<(), AllocError>
    requires { begins_with_digit strokes.now ≡ false }
    ensures { OnOk result (all_marks contents.new.items
        ≡ all_marks contents.old.items
        ++ path (decimal start.x) (decimal start.y) strokes.now style.dashes.now ∷ []) }
{
    let mut attributes = Vec::new(alloc);
    push_points(alloc, &mut attributes, start, strokes)?;
    push_style(alloc, &mut attributes, style)?;
    push_element(contents, Tag::Path, attributes, Vec::new(alloc))
}

/// Adds a straight line.
pub(crate) fn push_line(
    alloc: Global,
    contents: &mut Vec<Content>,
    from: Point,
    to: Point,
    style: Style,
) -> Result<(), AllocError>
    ensures { OnOk result (all_marks contents.new.items
        ≡ all_marks contents.old.items
        ++ stroke (decimal from.x) (decimal from.y) (decimal to.x)
        (decimal to.y) style.dashes.now ∷ []) }
{
    let mut attributes = Vec::new(alloc);
    push_ends(alloc, &mut attributes, from, to)?;
    push_line_style(alloc, &mut attributes, style)?;
    push_element(contents, Tag::Line, attributes, Vec::new(alloc))
}

/// Adds words with their foot at this height.
pub(crate) fn push_label(
    alloc: Global,
    contents: &mut Vec<Content>,
    at: Point,
    hand: Hand,
    words: &[u8],
) -> Result<(), AllocError>
    ensures { OnOk result (all_marks contents.new.items
        ≡ all_marks contents.old.items
        ++ word (decimal at.x) (decimal at.y) (anchor_word hand.anchor) words.now ∷ []) }
{
    let mut attributes = Vec::new(alloc);
    push_hand(alloc, &mut attributes, at, hand)?;
    let inside = text_of(alloc, words)?;
    push_element(contents, Tag::Label, attributes, inside)
}

// The area behind words.
fn plate(at: Point, anchor: Anchor, letters: usize) -> Area
    ensures left { result.x ≡ plate_left anchor at.x (wide letters + 4) }
    ensures top { result.y ≡ at.y - 10 }
    ensures wide { result.width ≡ wide letters + 4 }
    ensures high { result.height ≡ 13 }
{
    let width = width(letters as u64) + 4;
    let before = match anchor {
        Anchor::Start => 2,
        Anchor::End => width - 2,
    };
    Area {
        x: at.x.saturating_sub(before),
        y: at.y.saturating_sub(10),
        width,
        height: 13,
    }
}

/// Adds words on an area in the background's colour, so that no line crosses them.
pub(crate) fn push_plated(
    alloc: Global,
    contents: &mut Vec<Content>,
    at: Point,
    hand: Hand,
    words: &[u8],
) -> Result<(), AllocError>
    ensures { OnOk result (all_marks contents.new.items
        ≡ all_marks contents.old.items ++ plated hand.anchor at.x at.y words.now) }
{
    let area = plate(at, hand.anchor, words.len());
    push_box(alloc, contents, area, Style::plain(GROUND))?;
    push_label(alloc, contents, at, hand, words)
}

/// Adds a hint.
pub(crate) fn push_hint(
    alloc: Global,
    contents: &mut Vec<Content>,
    words: &[u8],
) -> Result<(), AllocError>
    ensures { OnOk result (all_marks contents.new.items
        ≡ all_marks contents.old.items ++ hint words.now ∷ []) }
{
    push_element(contents, Tag::Hint, Vec::new(alloc), text_of(alloc, words)?)
}

/// Adds some elements as one group.
pub(crate) fn push_group(
    alloc: Global,
    contents: &mut Vec<Content>,
    inside: Vec<Content>,
) -> Result<(), AllocError>
    ensures { OnOk result (all_marks contents.new.items
        ≡ all_marks contents.old.items ++ begins ∷ (all_marks inside.items ++ ends ∷ [])) }
{
    push_element(contents, Tag::Group, Vec::new(alloc), inside)
}
