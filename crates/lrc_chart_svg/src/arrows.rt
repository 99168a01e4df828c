// Messages, as arrows between columns.

ghost use Rattle.std.specs.Prelude.{◌≡◌, ◌++◌, OnOk};
ghost use Rattle.std.specs.List.{flat_map};
ghost use Rattle.lrc_text.specs.Each.{each};
ghost use Rattle.lrc_chart_svg.specs.Marks.{all_marks};
ghost use Rattle.lrc_chart_svg.specs.Plan.{plan_in};
ghost use Rattle.lrc_chart_svg.specs.Shown.{arrow_marks, lost_label, lost_marks};

use crate::layout::Layout;
use crate::paint::{Point, push_group, push_hint, push_label, push_line, push_path};
use crate::style::{Hand, MESSAGE, Style};
use crate::ways::Span;
use lrc_chart_model::{Arrow, Lost};
use lrc_svg::Content;
use std::alloc::{AllocError, Global};

// The sign at the end of a message that was never taken.
const CROSS: &[u8] = b"m-5 -5 l10 10 m-10 0 l10 -10";

// Adds the arrow of a message that was taken.
fn push_arrow(
    alloc: Global,
    contents: &mut Vec<Content>,
    layout: &Layout,
    arrow: &Arrow,
) -> Result<(), AllocError>
    ensures { OnOk result (all_marks contents.new.items
        ≡ all_marks contents.old.items ++ arrow_marks (plan_in layout.now) arrow.now) }
{
    let way = Span::between(layout, arrow.sender, arrow.receiver);
    let from = way.tail(layout.height(arrow.from));
    let to = way.head(layout.height(arrow.to));
    let mut inside = Vec::new(alloc);
    push_hint(alloc, &mut inside, arrow.hint.as_slice())?;
    push_line(alloc, &mut inside, from, to, Style::message(arrow.again))?;
    push_path(alloc, &mut inside, from, way.leaves, Style::message(false))?;
    push_path(
        alloc,
        &mut inside,
        to,
        way.comes,
        Style::bordered(MESSAGE, MESSAGE, b"1.5"),
    )?;
    push_group(alloc, contents, inside)
}

// Adds the arrow of a message that was never taken, to a line below the rows.
fn push_lost(
    alloc: Global,
    contents: &mut Vec<Content>,
    layout: &Layout,
    place: usize,
    lost: &Lost,
) -> Result<(), AllocError>
    ensures { OnOk result (all_marks contents.new.items
        ≡ all_marks contents.old.items ++ lost_marks (plan_in layout.now) place lost.now) }
{
    let way = Span::between(layout, lost.sender, lost.receiver);
    let from = way.tail(layout.height(lost.from));
    let to = way.head(layout.line_height(place as u128));
    let mut inside = Vec::new(alloc);
    push_hint(alloc, &mut inside, lost.hint.as_slice())?;
    push_line(alloc, &mut inside, from, to, Style::message(false))?;
    push_path(alloc, &mut inside, from, way.leaves, Style::message(false))?;
    push_path(alloc, &mut inside, to, CROSS, Style::line(MESSAGE, b"2"))?;
    push_group(alloc, contents, inside)
}

// Adds the kind of a message that was never taken, in its receiver's column.
fn push_lost_label(
    alloc: Global,
    contents: &mut Vec<Content>,
    layout: &Layout,
    place: usize,
    lost: &Lost,
) -> Result<(), AllocError>
    ensures { OnOk result (all_marks contents.new.items
        ≡ all_marks contents.old.items ++ lost_label (plan_in layout.now) place lost.now) }
{
    let way = Span::between(layout, lost.sender, lost.receiver);
    let at = Point {
        x: way.beyond,
        y: layout.line_height(place as u128) + 4,
    };
    let hand = Hand::anchored(way.beyond_anchor, MESSAGE);
    push_label(alloc, contents, at, hand, lost.label.as_slice())
}

/// Adds the arrows of messages that turns take.
pub(crate) fn push_arrows(
    alloc: Global,
    contents: &mut Vec<Content>,
    layout: &Layout,
    arrows: &[Arrow],
) -> Result<(), AllocError>
    ensures { OnOk result (all_marks contents.new.items
        ≡ all_marks contents.old.items ++ flat_map (arrow_marks (plan_in layout.now)) arrows.now) }
{
    for arrow in arrows {
        push_arrow(alloc, contents, layout, arrow)?;
    }
    Ok(())
}

/// Adds the arrows of messages that no turn takes.
pub(crate) fn push_all_lost(
    alloc: Global,
    contents: &mut Vec<Content>,
    layout: &Layout,
    lost: &[Lost],
) -> Result<(), AllocError>
    ensures { OnOk result (all_marks contents.new.items
        ≡ all_marks contents.old.items ++ each (lost_marks (plan_in layout.now)) lost.now) }
{
    for (place, one) in lost.iter().enumerate() {
        push_lost(alloc, contents, layout, place, one)?;
    }
    Ok(())
}

/// Adds the labels (kinds) of messages that no turn takes.
pub(crate) fn push_lost_labels(
    alloc: Global,
    contents: &mut Vec<Content>,
    layout: &Layout,
    lost: &[Lost],
) -> Result<(), AllocError>
    ensures { OnOk result (all_marks contents.new.items
        ≡ all_marks contents.old.items ++ each (lost_label (plan_in layout.now)) lost.now) }
{
    for (place, one) in lost.iter().enumerate() {
        push_lost_label(alloc, contents, layout, place, one)?;
    }
    Ok(())
}
