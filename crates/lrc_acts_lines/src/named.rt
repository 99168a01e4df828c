// The lines that comments behind acts name.

ghost use Rattle.std.specs.Prelude.{◌≡◌, ◌≤◌, ◌==◌, ◌-◌, ℕ, IfOk, [], MatchOption, get_or, length, map, not};
ghost use Rattle.std.specs.Char.{is_ascii_digit};
ghost use Rattle.std.specs.List.{position_or_len};
ghost use Rattle.lrc_labels.specs.declared.cut.Divider.TheVariants.{LineFeed};
ghost use Rattle.lrc_labels.specs.Cut.{cut, divides};
ghost use Rattle.lrc_acts_lines.specs.Named.{AreLinesTold, IsLineTold, Names, comment_of, digits_in, front_digits};

use lrc_labels::cut::{Divider, cut};
use lrc_text::read_number;
use std::alloc::{AllocError, Global};

const MOST_DIGITS: usize = 9;

const GREATEST_LINE: u64 = 999_999_999;

fn place_of_comment(line: &[u8]) -> usize
    ensures place { result ≡ position_or_len (λ byte. byte == 35) line.now }
    ensures bound { result ≤ length line.now }
{
    line.iter()
        .position(|byte| *byte == b'#')
        .unwrap_or(line.len())
}

// The comment of a line, from its sign # on.
fn comment_of(line: &[u8]) -> &[u8]
    ensures { result.now ≡ comment_of line.now }
{
    let (_before, comment) = line.split_at(place_of_comment(line));
    comment
}

fn end_of_digits(text: &[u8]) -> usize
    ensures place { result ≡ position_or_len (λ byte. not (is_ascii_digit byte)) text.now }
    ensures bound { result ≤ length text.now }
{
    text.iter()
        .position(|byte| !byte.is_ascii_digit())
        .unwrap_or(text.len())
}

// The digits at the beginning of a text.
fn front_digits(text: &[u8]) -> &[u8]
    ensures { result.now ≡ front_digits text.now }
{
    &text[..end_of_digits(text)]
}

// The digits at once behind `# line ` at the beginning of a comment.
fn digits_in(comment: &[u8]) -> &[u8]
    ensures { result.now ≡ digits_in comment.now }
{
    match comment.strip_prefix(b"# line ") {
        Some(rest) => front_digits(rest),
        None => b"",
    }
}

// The number that a line's comment names: `# line L`.
fn named_in(line: &[u8]) -> Option<u32>
    ensures { MatchOption result ((number : ℕ) → ¬ Names line.now number) (Names line.now) }
{
    let digits = digits_in(comment_of(line));
    if digits.len() > MOST_DIGITS {
        return None;
    }
    let number = read_number(digits, GREATEST_LINE)?;
    Some(number as u32)
}

// The line told of an act on this line, which has this number.
fn line_told(line: &[u8], number: u32) -> u32
    ensures { IsLineTold line.now number result }
{
    match named_in(line) {
        Some(named) => named,
        None => number,
    }
}

// The line at this place, or an empty one past the last.
fn line_at<'t>(lines: &[&'t [u8]], place: usize) -> &'t [u8]
    ensures { result.now ≡ get_or (map (λ line. line.now) lines.now) place [] }
{
    if place < lines.len() {
        lines[place]
    } else {
        b""
    }
}

// The line told of an act on the line of this number.
fn told_at(lines: &[&[u8]], number: u32) -> u32
    ensures { IsLineTold (get_or (map (λ line. line.now) lines.now) (number - 1) []) number result }
{
    let place = (number as usize).saturating_sub(1);
    line_told(line_at(lines, place), number)
}

/// Returns the line to report for each act, given the numbers of the lines on which the acts are. It is the line that
/// the comment of that line names, if any, or else the line itself.
pub fn act_lines(alloc: Global, text: &[u8], numbers: &[u32]) -> Result<Vec<u32>, AllocError>
    ensures { IfOk result (λ told. AreLinesTold
        (cut (divides LineFeed) text.now) numbers.now told.items) }
{
    let lines = cut(alloc, Divider::LineFeed, text)?;
    let mut told = Vec::new(alloc);
    for at in 0..numbers.len() {
        told.push(told_at(&lines, numbers[at]))?;
    }
    Ok(told)
}
