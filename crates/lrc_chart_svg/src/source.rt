// The program's text, at the right of a picture.

ghost use Rattle.std.specs.Prelude.{◌≡◌, ◌≤◌, ◌<◌, ◌+◌, ◌^◌, ◌++◌, ◌∷◌, [], OnOk, decimal, length};
ghost use Rattle.lrc_chart_svg.specs.Attributes.{anchor_word};
ghost use Rattle.lrc_text.specs.Each.{each};
ghost use Rattle.lrc_chart_svg.specs.Marks.{all_marks, word};
ghost use Rattle.lrc_chart_svg.specs.Shown.{line_box, line_words, source_marks};
ghost use Rattle.lrc_chart_svg.specs.declared.style.Anchor.TheVariants.{End};
ghost use Rattle.lrc_chart_svg.specs.Source.{blanks, most_of_source, source_foot, source_wide};

use crate::flow::{letters, width};
use crate::paint::{Area, Point, bytes, push_box, push_label, push_number};
use crate::style::{Anchor, EDGE, HEAD, Hand, INK, PALE, Style};
use lrc_chart_model::SourceLine;
use lrc_svg::Content;
use std::alloc::{AllocError, Global};

// How many blanks a line begins with.
#[tactic(auto, using(crate::proofs::Blanks::one_blank, crate::proofs::Blanks::no_blank, crate::proofs::Blanks::past_blanks))]
fn blanks(words: &[u8]) -> usize
    ensures most { result ≤ length words.now }
    ensures exact { result ≡ blanks words.now }
{
    let mut count = 0usize;
    for byte in words {
        if *byte != b' ' {
            return count;
        }
        count += 1;
    }
    count
}

fn most_of_source(lines: &[SourceLine]) -> u32
    ensures { result ≡ most_of_source lines.now }
{
    let mut most = 0u32;
    for line in lines {
        most = most.max(letters(line.words.as_slice()));
    }
    most
}

/// Returns the width of the text in pixels.
pub(crate) fn source_wide(lines: &[SourceLine]) -> u128
    ensures most { result < 2 ^ 66 }
    ensures exact { result ≡ source_wide lines.now }
{
    if lines.is_empty() {
        return 0;
    }
    width(u64::from(most_of_source(lines))) + 72
}

/// Returns the foot of the line at a place.
pub(crate) fn source_foot(place: usize) -> u128
    ensures least { 98 ≤ result }
    ensures most { result < 2 ^ 70 }
    ensures exact { result ≡ source_foot place }
{
    98 + 16 * place as u128
}

// Adds the box around a line that an act is of.
fn push_line_box(
    alloc: Global,
    contents: &mut Vec<Content>,
    at: Point,
    width: u128,
    marked: bool,
) -> Result<(), AllocError>
    requires { at.x < 2 ^ 70 }
    ensures { OnOk result (all_marks contents.new.items
        ≡ all_marks contents.old.items ++ line_box at.x at.y width marked) }
{
    if marked {
        let area = Area {
            x: at.x + 4,
            y: at.y.saturating_sub(12),
            width: width.saturating_sub(8),
            height: 16,
        };
        push_box(alloc, contents, area, Style::bordered(HEAD, EDGE, b"1"))?;
    }
    Ok(())
}

// Adds the number of a line.
fn push_line_number(
    alloc: Global,
    contents: &mut Vec<Content>,
    at: Point,
    place: usize,
) -> Result<(), AllocError>
    requires { at.x < 2 ^ 70 }
    ensures { OnOk result (all_marks contents.new.items
        ≡ all_marks contents.old.items
        ++ word (decimal (at.x + 44)) (decimal at.y) (anchor_word End) (decimal (place + 1))
        ∷ []) }
{
    let mut number = bytes(alloc, b"")?;
    push_number(&mut number, place as u128 + 1)?;
    let before = Point {
        x: at.x + 44,
        y: at.y,
    };
    push_label(
        alloc,
        contents,
        before,
        Hand::anchored(Anchor::End, PALE),
        &number,
    )
}

// Adds a line with its number before it.
fn push_line_words(
    alloc: Global,
    contents: &mut Vec<Content>,
    at: Point,
    place: usize,
    words: &[u8],
) -> Result<(), AllocError>
    requires { at.x < 2 ^ 70 }
    ensures { OnOk result (all_marks contents.new.items
        ≡ all_marks contents.old.items ++ line_words at.x at.y place words.now) }
{
    let text = Point {
        x: at.x + 54 + width(blanks(words) as u64),
        y: at.y,
    };
    push_line_number(alloc, contents, at, place)?;
    push_label(alloc, contents, text, Hand::plain(INK), words)
}

// Adds a line.
fn push_source_line(
    alloc: Global,
    contents: &mut Vec<Content>,
    left: u128,
    width: u128,
    place: usize,
    line: &SourceLine,
) -> Result<(), AllocError>
    requires { left < 2 ^ 70 }
    ensures { OnOk result (all_marks contents.new.items
        ≡ all_marks contents.old.items ++ source_marks left width place line.now) }
{
    let at = Point {
        x: left,
        y: source_foot(place),
    };
    push_line_box(alloc, contents, at, width, line.marked)?;
    push_line_words(alloc, contents, at, place, line.words.as_slice())
}

/// Adds the program's text.
pub(crate) fn push_source(
    alloc: Global,
    contents: &mut Vec<Content>,
    left: u128,
    width: u128,
    lines: &[SourceLine],
) -> Result<(), AllocError>
    requires { left < 2 ^ 70 }
    ensures { OnOk result (all_marks contents.new.items
        ≡ all_marks contents.old.items ++ each (source_marks left width) lines.now) }
{
    for (place, line) in lines.iter().enumerate() {
        push_source_line(alloc, contents, left, width, place, line)?;
    }
    Ok(())
}
