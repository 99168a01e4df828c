// The legend of a drawing: each of its signs looks as what it stands for, and no two kinds of rows look alike.

use crate::checks::passes;
use crate::drawing::{blank, bytes, push_row};
use lrc_chart_model::{Arrow, Kind, Lost, Picture, Race};
use lrc_chart_svg::document_of;
use lrc_svg::{Attribute, Content, Document};
use std::alloc::{AllocError, Global};

const KINDS: &[Kind] = &[
    Kind::Act,
    Kind::Wait,
    Kind::Message,
    Kind::Trap,
    Kind::Barrier,
];

// The kinds of rows in the order of the legend, and the messages and races in that of its lines.
fn push_rows(alloc: Global, picture: &mut Picture) -> Result<(), AllocError> {
    for kind in KINDS {
        push_row(alloc, &mut picture.rows, 0, *kind, b"", b"")?;
    }
    Ok(())
}

fn arrow(alloc: Global, again: bool) -> Arrow {
    Arrow {
        from: 0,
        sender: 0,
        to: 1,
        receiver: 0,
        again,
        label: Vec::new(alloc),
        hint: Vec::new(alloc),
    }
}

fn push_lines(alloc: Global, picture: &mut Picture) -> Result<(), AllocError> {
    picture.arrows.push(arrow(alloc, false))?;
    picture.arrows.push(arrow(alloc, true))?;
    picture.lost.push(Lost {
        from: 0,
        sender: 0,
        receiver: 0,
        label: Vec::new(alloc),
        hint: Vec::new(alloc),
    })?;
    picture.races.push(Race {
        number: 1,
        from: 0,
        first: 0,
        to: 1,
        second: 0,
        label: Vec::new(alloc),
        hint: Vec::new(alloc),
    })?;
    Ok(())
}

fn drawn(alloc: Global) -> Result<Document, AllocError> {
    let mut picture = blank(alloc);
    fill(alloc, &mut picture)?;
    document_of(alloc, &picture)
}

fn fill(alloc: Global, picture: &mut Picture) -> Result<(), AllocError> {
    picture.columns.push(bytes(alloc, b"node 0")?)?;
    push_rows(alloc, picture)?;
    push_lines(alloc, picture)
}

// The legend's boxes and lines, each before its name, stand behind the ground and the title.
const BOXES: usize = 2;

const LINES: usize = 12;

// Behind the legend's words and a column of three elements: two messages, one that was never taken, a race, and the rows.
const GROUPS: usize = 30;

const ROWS: usize = 34;

fn attributes(content: &Content) -> &[Attribute] {
    match content {
        Content::Element(_, attributes, _) => attributes.as_slice(),
        Content::Text(_) => &[],
    }
}

// Behind the hint of a group.
fn shape(content: &Content) -> &Content {
    match content {
        Content::Element(_, _, inside) => match inside.get(1) {
            Some(shape) => shape,
            None => content,
        },
        Content::Text(_) => content,
    }
}

// Whether two elements have the same line: the last three attributes of both; and whether the same area too, if they are boxes.
fn look_alike(a: &Content, b: &Content, count: usize) -> bool {
    let first = attributes(a);
    let second = attributes(b);
    count <= first.len()
        && count <= second.len()
        && first.iter().rev().take(count).zip(second.iter().rev()).all(|(one, other)| one
            .value
            .as_slice()
            == other.value.as_slice())
}

// Whether the sign at one place looks as the shape in the group at another.
fn stands_for(document: &Document, sign: usize, group: usize, count: usize) -> bool {
    match (document.inside.get(sign), document.inside.get(group)) {
        (Some(sign), Some(group)) => look_alike(sign, shape(group), count),
        _ => false,
    }
}

// Whether the box of each kind looks as its row, and its area as no other one's.
fn are_boxes_those_of_rows(document: &Document) -> bool {
    let mut is = true;
    for kind in 0..5usize {
        for other in 0..5usize {
            let same = stands_for(document, BOXES + 2 * kind, ROWS + other, 3);
            is = is && same == (kind == other);
        }
        is = is && stands_for(document, BOXES + 2 * kind, ROWS + kind, 4);
    }
    is
}

// The shapes of the legend's lines, from where they begin: plain ones, one to a cross around its end, and one between two bars.
const SHAPES: [&[u8]; 5] = [
    b" 44h28",
    b" 44h28",
    b" 44h28",
    b" 44h23 m-5 -5 l10 10 m-10 0 l10 -10",
    b" 44m0 -4 v8 m0 -4 h28 m0 -4 v8",
];

// Whether the points of a path, its first attribute, end so.
fn ends_so(document: &Document, place: usize, shape: &[u8]) -> bool {
    match document.inside.get(place) {
        Some(path) => match attributes(path).first() {
            Some(points) => points.value.as_slice().ends_with(shape),
            None => false,
        },
        None => false,
    }
}

// Whether each line of the legend has its shape.
fn have_lines_their_shapes(document: &Document) -> bool {
    let mut is = true;
    for line in 0..5usize {
        is = is && ends_so(document, LINES + 2 * line, SHAPES[line]);
    }
    is
}

// Whether the lines are those of messages and races. The first one is the rule of a row; then come a message, one taken again, one never
// taken, and a race.
fn are_lines_those_of_messages(document: &Document) -> bool {
    let mut is = true;
    for line in 0..4usize {
        is = is && stands_for(document, LINES + 2 + 2 * line, GROUPS + line, 3);
    }
    is && !stands_for(document, LINES + 2, GROUPS + 1, 3)
        && !stands_for(document, LINES + 2, GROUPS + 3, 3)
}

// What is asked of the legend, and is not so.
fn first_wrong_of(document: &Document) -> Option<&'static str> {
    if !are_boxes_those_of_rows(document) {
        Some("boxes of the legend are those of rows")
    } else if !have_lines_their_shapes(document) {
        Some("lines of the legend have their shapes")
    } else if !are_lines_those_of_messages(document) {
        Some("lines of the legend are those of messages and races")
    } else {
        None
    }
}

fn first_wrong(alloc: Global) -> Option<&'static str> {
    match drawn(alloc) {
        Ok(document) => first_wrong_of(&document),
        Err(_) => Some("no memory"),
    }
}

#[test]
fn signs_of_the_legend_look_as_what_they_stand_for(rt: HostRuntime) {
    passes(&rt, first_wrong(rt.alloc()));
}
