// Rows, as boxes in their columns.

ghost use Rattle.std.specs.Prelude.{◌≡◌, ◌≤◌, ◌<◌, ◌+◌, ◌-◌, ◌^◌, ◌++◌, OnOk};
ghost use Rattle.lrc_text.specs.Each.{each};
ghost use Rattle.lrc_chart_svg.specs.Marks.{all_marks};
ghost use Rattle.lrc_chart_svg.specs.Plan.{plan_in};
ghost use Rattle.lrc_chart_svg.specs.declared.style.Anchor.TheVariants.{Start};
ghost use Rattle.lrc_chart_svg.specs.Shown.{circle_marks, frame_marks, kind_behind, last_phrase, own_words, phrase, row_box_marks, row_kinds};
ghost use Rattle.lrc_chart_svg.specs.Shown.{row_marks_at, row_word_marks, row_words, rule_marks};

use crate::flow::{Flow, done_flow, kinds_flow, letters, timed_flow, width, words_flow};
use crate::layout::Layout;
use crate::paint::{Area, Point, push_box, push_group, push_hint, push_label};
use crate::style::{Anchor, Hand, INK, INVALID, MESSAGE, PALE, RACE, Style, TIME};
use lrc_chart_model::{Arrow, Row};
use lrc_svg::Content;
use std::alloc::{AllocError, Global};

// Where the words of a box stand: between its sides, from its top, and as many letters beside each other as there is room for.
#[derive(Clone, Copy)]
struct Sheet {
    left: u64,
    right: u64,
    top: u64,
    room: u32,
}

// Adds the box of a row, the rule below it where it closes an interval, and the border around it where it is in a circle of waiting.
fn push_framed(
    alloc: Global,
    inside: &mut Vec<Content>,
    frame: Area,
    row: &Row,
) -> Result<(), AllocError>
    requires top { frame.y < 2 ^ 66 }
    requires high { frame.height < 2 ^ 66 }
    requires wide { frame.width < 2 ^ 66 }
    ensures { OnOk result (all_marks inside.new.items ≡ all_marks inside.old.items
        ++ frame_marks frame.x frame.y frame.width frame.height row.now.kind row.now.closes
        row.now.circled) }
{
    push_box(alloc, inside, frame, Style::row(row.kind))?;
    push_rule(alloc, inside, frame, row.closes)?;
    push_circle(alloc, inside, frame, row.circled)
}

// Adds the rule below a box.
fn push_rule(
    alloc: Global,
    inside: &mut Vec<Content>,
    frame: Area,
    closes: bool,
) -> Result<(), AllocError>
    requires top { frame.y < 2 ^ 66 }
    requires high { frame.height < 2 ^ 66 }
    ensures { OnOk result (all_marks inside.new.items
        ≡ all_marks inside.old.items
        ++ rule_marks frame.x (frame.y + frame.height) frame.width closes) }
{
    if closes {
        let rule = Area {
            y: frame.y + frame.height,
            height: 3,
            ..frame
        };
        push_box(alloc, inside, rule, Style::plain(INK))?;
    }
    Ok(())
}

// Adds the border around a box.
fn push_circle(
    alloc: Global,
    inside: &mut Vec<Content>,
    frame: Area,
    circled: bool,
) -> Result<(), AllocError>
    requires high { frame.height < 2 ^ 66 }
    requires wide { frame.width < 2 ^ 66 }
    ensures { OnOk result (all_marks inside.new.items
        ≡ all_marks inside.old.items
        ++ circle_marks frame.x frame.y frame.width frame.height circled) }
{
    if circled {
        let around = Area {
            x: frame.x.saturating_sub(4),
            y: frame.y.saturating_sub(4),
            width: frame.width + 8,
            height: frame.height + 8,
        };
        push_box(alloc, inside, around, Style::bordered(b"none", RACE, b"3"))?;
    }
    Ok(())
}

// Adds words behind others, if there are any.
fn push_phrase(
    alloc: Global,
    inside: &mut Vec<Content>,
    sheet: Sheet,
    flow: Flow,
    hand: Hand,
    words: &[u8],
) -> Result<(), AllocError>
    requires { hand.anchor ≡ Start }
    ensures { OnOk result (all_marks inside.new.items
        ≡ all_marks inside.old.items ++ phrase sheet.left sheet.top sheet.room flow words.now) }
{
    if words.is_empty() {
        return Ok(());
    }
    let spot = flow.spot(sheet.room, letters(words));
    let at = Point {
        x: u128::from(sheet.left) + 6 + width(u64::from(spot.before)),
        y: u128::from(sheet.top) + 12 + 13 * u128::from(spot.line),
    };
    push_label(alloc, inside, at, hand, words)
}

// Adds words that end where the box does.
fn push_last_phrase(
    alloc: Global,
    inside: &mut Vec<Content>,
    sheet: Sheet,
    flow: Flow,
    words: &[u8],
) -> Result<(), AllocError>
    ensures { OnOk result (all_marks inside.new.items
        ≡ all_marks inside.old.items
        ++ last_phrase sheet.right sheet.top sheet.room flow words.now) }
{
    if words.is_empty() {
        return Ok(());
    }
    let spot = flow.spot(sheet.room, letters(words));
    let at = Point {
        x: u128::from(sheet.right).saturating_sub(6),
        y: u128::from(sheet.top) + 12 + 13 * u128::from(spot.line),
    };
    push_label(alloc, inside, at, Hand::anchored(Anchor::End, PALE), words)
}

// Adds what was done, the node's time, and invalid pages.
fn push_own_words(
    alloc: Global,
    inside: &mut Vec<Content>,
    sheet: Sheet,
    row: &Row,
) -> Result<(), AllocError>
    ensures { OnOk result (all_marks inside.new.items
        ≡ all_marks inside.old.items ++ own_words sheet.left sheet.top sheet.room row.now) }
{
    let done = done_flow(sheet.room, row);
    let timed = timed_flow(sheet.room, row);
    push_phrase(
        alloc,
        inside,
        sheet,
        Flow::begun(),
        Hand::plain(INK),
        row.words.as_slice(),
    )?;
    push_phrase(
        alloc,
        inside,
        sheet,
        done,
        Hand::plain(TIME),
        row.time.as_slice(),
    )?;
    push_phrase(
        alloc,
        inside,
        sheet,
        timed,
        Hand::plain(INVALID),
        row.invalid.as_slice(),
    )
}

// Adds the kind of a message, if it is taken at this row.
fn push_kind(
    alloc: Global,
    inside: &mut Vec<Content>,
    sheet: Sheet,
    flow: Flow,
    number: usize,
    arrow: &Arrow,
) -> Result<(), AllocError>
    ensures { OnOk result (all_marks inside.new.items
        ≡ all_marks inside.old.items
        ++ kind_behind sheet.left sheet.top sheet.room number flow arrow.now) }
{
    if arrow.to == number {
        push_phrase(
            alloc,
            inside,
            sheet,
            flow,
            Hand::plain(MESSAGE),
            arrow.label.as_slice(),
        )?;
    }
    Ok(())
}

// Adds the kinds of the messages that a row takes.
fn push_kinds(
    alloc: Global,
    inside: &mut Vec<Content>,
    sheet: Sheet,
    number: usize,
    row: &Row,
    arrows: &[Arrow],
) -> Result<(), AllocError>
    ensures { OnOk result (all_marks inside.new.items
        ≡ all_marks inside.old.items
        ++ row_kinds sheet.left sheet.top sheet.room number row.now arrows.now) }
{
    let mut flow = words_flow(sheet.room, row);
    for arrow in arrows {
        push_kind(alloc, inside, sheet, flow, number, arrow)?;
        flow = flow.behind_label(sheet.room, number, arrow);
    }
    Ok(())
}

// Adds all words of a row.
fn push_all_words(
    alloc: Global,
    inside: &mut Vec<Content>,
    sheet: Sheet,
    number: usize,
    row: &Row,
    arrows: &[Arrow],
) -> Result<(), AllocError>
    ensures { OnOk result (all_marks inside.new.items ≡ all_marks inside.old.items
        ++ row_words sheet.left sheet.right sheet.top sheet.room number row.now arrows.now) }
{
    let flow = kinds_flow(sheet.room, number, row, arrows);
    push_own_words(alloc, inside, sheet, row)?;
    push_kinds(alloc, inside, sheet, number, row, arrows)?;
    push_last_phrase(alloc, inside, sheet, flow, row.place.as_slice())
}

// Adds the box of a row.
fn push_frame(
    alloc: Global,
    inside: &mut Vec<Content>,
    layout: &Layout,
    number: usize,
    row: &Row,
) -> Result<(), AllocError>
    ensures { OnOk result (all_marks inside.new.items
        ≡ all_marks inside.old.items ++ row_box_marks (plan_in layout.now) number row.now) }
{
    let lane = layout.lane(usize::from(row.column));
    let frame = layout.frame(number);
    let area = Area {
        x: u128::from(lane.left),
        y: u128::from(frame.top),
        width: u128::from(lane.right).saturating_sub(u128::from(lane.left)),
        height: u128::from(frame.high),
    };
    push_framed(alloc, inside, area, row)
}

// Adds the words of a row in its box.
fn push_words(
    alloc: Global,
    inside: &mut Vec<Content>,
    layout: &Layout,
    arrows: &[Arrow],
    number: usize,
    row: &Row,
) -> Result<(), AllocError>
    ensures { OnOk result (all_marks inside.new.items
        ≡ all_marks inside.old.items
        ++ row_word_marks (plan_in layout.now) arrows.now number row.now) }
{
    let lane = layout.lane(usize::from(row.column));
    let frame = layout.frame(number);
    let sheet = Sheet {
        left: lane.left,
        right: lane.right,
        top: frame.top,
        room: layout.room(),
    };
    push_all_words(alloc, inside, sheet, number, row, arrows)
}

// Adds a row.
fn push_row(
    alloc: Global,
    contents: &mut Vec<Content>,
    layout: &Layout,
    arrows: &[Arrow],
    number: usize,
    row: &Row,
) -> Result<(), AllocError>
    ensures { OnOk result (all_marks contents.new.items
        ≡ all_marks contents.old.items
        ++ row_marks_at (plan_in layout.now) arrows.now number row.now) }
{
    let mut inside = Vec::new(alloc);
    push_hint(alloc, &mut inside, row.hint.as_slice())?;
    push_frame(alloc, &mut inside, layout, number, row)?;
    push_words(alloc, &mut inside, layout, arrows, number, row)?;
    push_group(alloc, contents, inside)
}

/// Adds the rows, from the top.
pub(crate) fn push_rows(
    alloc: Global,
    contents: &mut Vec<Content>,
    layout: &Layout,
    arrows: &[Arrow],
    rows: &[Row],
) -> Result<(), AllocError>
    ensures { OnOk result (all_marks contents.new.items
        ≡ all_marks contents.old.items
        ++ each (row_marks_at (plan_in layout.now) arrows.now) rows.now) }
{
    for (number, row) in rows.iter().enumerate() {
        push_row(alloc, contents, layout, arrows, number, row)?;
    }
    Ok(())
}
