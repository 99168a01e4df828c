// A picture as a document.

ghost use Rattle.std.specs.Prelude.{◌≡◌, ◌<◌, ◌^◌, ◌++◌, ◌∷◌, [], IfOk, OnOk, codes, decimal, true};
ghost use Rattle.lrc_chart_svg.specs.Attributes.{said};
ghost use Rattle.lrc_chart_svg.specs.Plan.{plan_in};
ghost use Rattle.lrc_chart_svg.specs.Marks.{all_marks, is_space, named_once, attribute_value};
ghost use Rattle.lrc_chart_svg.specs.Root.{IsRootOf, whole_said};
ghost use Rattle.lrc_chart_svg.specs.Shown.{foot_marks, ground_marks, marks_by, picture_marks, run_marks, side_marks};
ghost use Rattle.lrc_chart_svg.specs.Source.{source_wide};

use crate::arrows::{push_all_lost, push_arrows, push_lost_labels};
use crate::heading::{push_columns, push_legend, push_title};
use crate::layout::Layout;
use crate::paint::{Point, push_attribute, push_pixels, push_point, push_value};
use crate::races::{push_bands, push_deadlocks, push_races};
use crate::rows::push_rows;
use crate::sizes::Size;
use crate::source::push_source;
use lrc_chart_model::Picture;
use lrc_svg::{Attribute, Content, Document, Key};
use std::alloc::{AllocError, Global};

// Adds the part of the plane that is shown, from its corner on, and how large it is.
fn push_size(alloc: Global, attributes: &mut Vec<Attribute>, size: Point) -> Result<(), AllocError>
    ensures { OnOk result (said attributes.new.items ≡ said attributes.old.items
        ++ (Key.View, codes "0 0 " ++ decimal size.x ++ codes " " ++ decimal size.y)
        ∷ (Key.Width, decimal size.x) ∷ (Key.Height, decimal size.y) ∷ []) }
{
    let mut view = Vec::from_slice(alloc, b"0 0 ")?;
    push_point(&mut view, size)?;
    push_attribute(attributes, Key::View, view)?;
    push_pixels(alloc, attributes, Key::Width, size.x)?;
    push_pixels(alloc, attributes, Key::Height, size.y)
}

// Adds the attributes of the whole.
fn push_attributes(
    alloc: Global,
    attributes: &mut Vec<Attribute>,
    size: Point,
) -> Result<(), AllocError>
    ensures { OnOk result (said attributes.new.items
        ≡ said attributes.old.items ++ whole_said size.x size.y) }
{
    push_value(alloc, attributes, Key::Space, b"http://www.w3.org/2000/svg")?;
    push_size(alloc, attributes, size)?;
    push_value(
        alloc,
        attributes,
        Key::Family,
        b"DejaVu Sans Mono, Menlo, Consolas, monospace",
    )?;
    push_value(alloc, attributes, Key::FontSize, b"12")
}

// The attributes of the whole.
fn attributes_of(alloc: Global, size: Point) -> Result<Vec<Attribute>, AllocError>
    ensures once { IfOk result (λ attributes. named_once attributes.items ≡ true) }
    ensures space { IfOk result (λ attributes. attribute_value is_space attributes.items
        ≡ codes "http://www.w3.org/2000/svg") }
    ensures said { IfOk result (λ attributes. said attributes.items ≡ whole_said size.x size.y) }
{
    let mut attributes = Vec::new(alloc);
    push_attributes(alloc, &mut attributes, size)?;
    Ok(attributes)
}

// Adds barriers, and columns over them.
fn push_ground(
    alloc: Global,
    contents: &mut Vec<Content>,
    layout: &Layout,
    size: Size,
    picture: &Picture,
) -> Result<(), AllocError>
    ensures { OnOk result (all_marks contents.new.items
        ≡ all_marks contents.old.items
        ++ ground_marks (plan_in layout.now) size.whole.x size.foot picture.now) }
{
    push_bands(
        alloc,
        contents,
        layout,
        size.whole.x,
        picture.bands.as_slice(),
    )?;
    push_columns(
        alloc,
        contents,
        layout,
        size.foot,
        picture.columns.as_slice(),
    )
}

// Adds lines, and rows over them.
fn push_run(
    alloc: Global,
    contents: &mut Vec<Content>,
    layout: &Layout,
    picture: &Picture,
) -> Result<(), AllocError>
    ensures { OnOk result (all_marks contents.new.items
        ≡ all_marks contents.old.items ++ run_marks (plan_in layout.now) picture.now) }
{
    push_arrows(alloc, contents, layout, picture.arrows.as_slice())?;
    push_all_lost(alloc, contents, layout, picture.lost.as_slice())?;
    push_races(
        alloc,
        contents,
        layout,
        picture.lost.len(),
        picture.races.as_slice(),
    )?;
    push_rows(
        alloc,
        contents,
        layout,
        picture.arrows.as_slice(),
        picture.rows.as_slice(),
    )
}

// Adds the kinds of messages that were never taken, and circles of waiting.
fn push_foot(
    alloc: Global,
    contents: &mut Vec<Content>,
    layout: &Layout,
    picture: &Picture,
) -> Result<(), AllocError>
    ensures { OnOk result (all_marks contents.new.items
        ≡ all_marks contents.old.items ++ foot_marks (plan_in layout.now) picture.now) }
{
    let used = picture.lost.len() as u128 + picture.races.len() as u128;
    push_lost_labels(alloc, contents, layout, picture.lost.as_slice())?;
    push_deadlocks(alloc, contents, layout, used, picture.deadlocks.as_slice())
}

// Adds these, and the program's text.
fn push_side(
    alloc: Global,
    contents: &mut Vec<Content>,
    layout: &Layout,
    size: Size,
    picture: &Picture,
) -> Result<(), AllocError>
    requires near { size.left < 2 ^ 70 }
    requires source { size.source ≡ source_wide picture.now.source.items }
    ensures { OnOk result (all_marks contents.new.items
        ≡ all_marks contents.old.items ++ side_marks (plan_in layout.now) size.left picture.now) }
{
    push_foot(alloc, contents, layout, picture)?;
    push_source(
        alloc,
        contents,
        size.left,
        size.source,
        picture.source.as_slice(),
    )
}

// Adds all that a picture shows.
fn push_picture(
    alloc: Global,
    contents: &mut Vec<Content>,
    layout: &Layout,
    size: Size,
    picture: &Picture,
) -> Result<(), AllocError>
    requires near { size.left < 2 ^ 70 }
    requires source { size.source ≡ source_wide picture.now.source.items }
    ensures { OnOk result (all_marks contents.new.items ≡ all_marks contents.old.items
        ++ marks_by (plan_in layout.now) size.whole.x size.whole.y size.foot size.left
        picture.now) }
{
    push_title(alloc, contents, size.whole, picture.title.as_slice())?;
    push_legend(alloc, contents)?;
    push_ground(alloc, contents, layout, size, picture)?;
    push_run(alloc, contents, layout, picture)?;
    push_side(alloc, contents, layout, size, picture)
}

/// Returns the picture as an SVG document. The specifications define its content, in order, and its size.
pub fn document_of(alloc: Global, picture: &Picture) -> Result<Document, AllocError>
    ensures shown { IfOk result (λ document. all_marks document.inside.items
        ≡ picture_marks picture.now) }
    ensures once { IfOk result (λ document. named_once document.attributes.items ≡ true) }
    ensures space { IfOk result (λ document. attribute_value is_space document.attributes.items
        ≡ codes "http://www.w3.org/2000/svg") }
    ensures root { IfOk result (λ document. IsRootOf picture.now document.attributes.items) }
{
    let layout = Layout::of(alloc, picture)?;
    let size = Size::of(&layout, picture);
    let mut inside = Vec::new(alloc);
    push_picture(alloc, &mut inside, &layout, size, picture)?;
    Ok(Document {
        attributes: attributes_of(alloc, size.whole)?,
        inside,
    })
}
