// The line of the run with reasons.

ghost use Rattle.std.specs.Prelude.{◌≡◌, ◌++◌, OnOk, map};
ghost use Rattle.lrc_step.specs.EndLines.{circle_at, circles_text, end_at, end_text, end_word, ends_text, explain_line};
ghost use Rattle.lrc_step.specs.Lines.{lines_in};

use crate::lines::{push_comma, push_numbers, push_printed};
use lrc_explain_waits::Fate;
use lrc_text::push_number;
use std::alloc::{AllocError, Global};

/// How a node ended.
#[derive(Clone, Copy)]
pub struct End {
    /// Whether it reached the end of the text, trapped, or did neither.
    pub fate: Fate,
    /// The line of that end, of that trap, or of what comes next.
    pub line: u32,
    /// How many values it printed.
    pub prints: usize,
}

/// Adds the line about the run with reasons, from the output of `explain`, from how each node ended, and from the circles
/// of waiting nodes.
pub fn push_explain_line(
    alloc: Global,
    text: &mut Vec<u8>,
    printed: &[u8],
    ends: &[End],
    circles: &[Vec<usize>],
) -> Result<(), AllocError>
    ensures { OnOk result (text.new.items ≡ text.old.items
        ++ explain_line (lines_in printed.now) ends.now (map (λ one. one.items) circles.now)) }
{
    text.extend_from_slice(b"{\"explain\":[")?;
    push_printed(alloc, text, printed)?;
    text.extend_from_slice(b"],\"ends\":[")?;
    push_ends(text, ends)?;
    text.extend_from_slice(b"],\"deadlocks\":[")?;
    push_circles(text, circles)?;
    text.extend_from_slice(b"]}\n")
}

fn push_ends(text: &mut Vec<u8>, ends: &[End]) -> Result<(), AllocError>
    ensures { OnOk result (text.new.items ≡ text.old.items ++ ends_text ends.now) }
{
    for (node, end) in ends.iter().enumerate() {
        push_end_at(text, node, *end)?;
    }
    Ok(())
}

fn push_end_at(text: &mut Vec<u8>, node: usize, end: End) -> Result<(), AllocError>
    ensures { OnOk result (text.new.items ≡ text.old.items ++ end_at node end) }
{
    push_comma(text, node)?;
    push_end(text, end)
}

fn end_word(fate: Fate) -> &'static [u8]
    ensures { result.now ≡ end_word fate }
{
    match fate {
        Fate::Ended => b"ended",
        Fate::Trapped(_) => b"trapped",
        Fate::Unfinished => b"unfinished",
    }
}

#[tactic(auto, unfolding(crate::specs::EndLines::end_text))]
fn push_end(text: &mut Vec<u8>, end: End) -> Result<(), AllocError>
    ensures { OnOk result (text.new.items ≡ text.old.items ++ end_text end) }
{
    text.extend_from_slice(b"{\"end\":\"")?;
    text.extend_from_slice(end_word(end.fate))?;
    push_number(text, b"\",\"line\":", u64::from(end.line))?;
    push_number(text, b",\"prints\":", end.prints as u64)?;
    text.extend_from_slice(b"}")
}

fn push_circles(text: &mut Vec<u8>, circles: &[Vec<usize>]) -> Result<(), AllocError>
    ensures { OnOk result (text.new.items ≡ text.old.items
        ++ circles_text (map (λ one. one.items) circles.now)) }
{
    for place in 0..circles.len() {
        push_circle_at(text, place, &circles[place])?;
    }
    Ok(())
}

fn push_circle_at(text: &mut Vec<u8>, place: usize, circle: &[usize]) -> Result<(), AllocError>
    ensures { OnOk result (text.new.items ≡ text.old.items ++ circle_at place circle.now) }
{
    push_comma(text, place)?;
    push_numbers(text, circle)
}
