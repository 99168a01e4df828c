// The lines of a run's data that are not its states.

ghost use Rattle.std.specs.Prelude.{◌≡◌, ◌++◌, IfOk, OnOk, map};
ghost use Rattle.lrc_text.specs.Each.{each};
ghost use Rattle.lrc_step.specs.Lines.{access_text, comma_text, given_text, group_site_text, kind_text, lines_in, number_at, numbers_text, optional_text, pair_text, pairs_text, program_line};
ghost use Rattle.lrc_step.specs.Lines.{quoted_at, quoted_each, race_line, rival_at, rival_text, rivals_text, site_text, text_part, why_line, writes_text};

use crate::given::Given;
use crate::rivals::Rival;
use crate::spelling::push_quoted;
use lrc_explain::Site;
use lrc_judge::pairs::Pair;
use lrc_labels::cut::{Divider, cut};
use lrc_text::push_number;
use std::alloc::{AllocError, Global};

// The lines of what a command prints.
fn lines_in(alloc: Global, printed: &[u8]) -> Result<Vec<&[u8]>, AllocError>
    ensures { IfOk result (λ lines. map (λ line. line.now) lines.items ≡ lines_in printed.now) }
{
    let mut lines = cut(alloc, Divider::LineFeed, printed)?;
    lines.truncate(lines.len().saturating_sub(1));
    Ok(lines)
}

#[tactic(auto, unfolding(crate::specs::Lines::text_part))]
fn push_text_part(text: &mut Vec<u8>, program: &[u8]) -> Result<(), AllocError>
    ensures { OnOk result (text.new.items ≡ text.old.items ++ text_part program.now) }
{
    text.extend_from_slice(b",\"text\":")?;
    push_quoted(text, program)?;
    text.extend_from_slice(b"}\n")
}

/// Adds the line about the program: the name of its file, and its text.
pub fn push_program_line(text: &mut Vec<u8>, name: &[u8], program: &[u8]) -> Result<(), AllocError>
    ensures { OnOk result (text.new.items ≡ text.old.items ++ program_line name.now program.now) }
{
    text.extend_from_slice(b"{\"program\":")?;
    push_quoted(text, name)?;
    push_text_part(text, program)
}

/// Adds the lines of what a command prints, between their quotation marks, with commas between them.
pub(crate) fn push_printed(
    alloc: Global,
    text: &mut Vec<u8>,
    printed: &[u8],
) -> Result<(), AllocError>
    ensures { OnOk result (text.new.items ≡ text.old.items ++ quoted_each (lines_in printed.now)) }
{
    let lines = lines_in(alloc, printed)?;
    push_quoted_each(text, &lines)
}

/// Adds the line that says why the act at a position is as it is, from the output of `why`, from the acts that race with
/// it, and from the writes that a read gives what it gives by.
pub fn push_why_line(
    alloc: Global,
    text: &mut Vec<u8>,
    position: usize,
    printed: &[u8],
    rivals: &[Option<Rival>],
    given: &Option<Given>,
) -> Result<(), AllocError>
    ensures { OnOk result (text.new.items
        ≡ text.old.items ++ why_line position (lines_in printed.now) rivals.now given.now) }
{
    push_number(text, b"{\"why\":", position as u64)?;
    text.extend_from_slice(b",\"lines\":[")?;
    push_printed(alloc, text, printed)?;
    text.extend_from_slice(b"],\"races\":[")?;
    push_rivals(text, rivals)?;
    text.extend_from_slice(b"],\"gives\":")?;
    push_given(text, given)?;
    text.extend_from_slice(b"}\n")
}

fn push_given(text: &mut Vec<u8>, given: &Option<Given>) -> Result<(), AllocError>
    ensures { OnOk result (text.new.items ≡ text.old.items ++ given_text given.now) }
{
    match given {
        Some(given) => push_writes(text, given),
        None => push_optional(text, None),
    }
}

#[tactic(auto, unfolding(crate::specs::Lines::writes_text))]
fn push_writes(text: &mut Vec<u8>, given: &Given) -> Result<(), AllocError>
    ensures { OnOk result (text.new.items ≡ text.old.items ++ writes_text given.now) }
{
    text.extend_from_slice(b"{\"last\":")?;
    push_numbers(text, &given.last)?;
    text.extend_from_slice(b",\"unknown\":")?;
    push_optional(text, given.unknown)?;
    text.extend_from_slice(b"}")
}

fn push_rivals(text: &mut Vec<u8>, rivals: &[Option<Rival>]) -> Result<(), AllocError>
    ensures { OnOk result (text.new.items ≡ text.old.items ++ rivals_text rivals.now) }
{
    for (node, rival) in rivals.iter().enumerate() {
        push_rival_at(text, node, *rival)?;
    }
    Ok(())
}

fn push_rival_at(text: &mut Vec<u8>, node: usize, rival: Option<Rival>) -> Result<(), AllocError>
    ensures { OnOk result (text.new.items ≡ text.old.items ++ rival_at node rival) }
{
    push_comma(text, node)?;
    push_rival(text, rival)
}

#[tactic(auto, unfolding(crate::specs::Lines::rival_text))]
fn push_rival(text: &mut Vec<u8>, rival: Option<Rival>) -> Result<(), AllocError>
    ensures { OnOk result (text.new.items ≡ text.old.items ++ rival_text rival) }
{
    let Some(rival) = rival else {
        return text.extend_from_slice(b"null");
    };
    push_number(text, b"{\"act\":", rival.act as u64)?;
    push_site(text, rival.site)?;
    text.extend_from_slice(b"}")
}

// What of an access tells its kind.
fn kind_text(writes: bool) -> &'static [u8]
    ensures { result.now ≡ kind_text writes }
{
    if writes {
        b",\"kind\":\"write\"}"
    } else {
        b",\"kind\":\"read\"}"
    }
}

fn push_access(text: &mut Vec<u8>, line: u32, writes: bool) -> Result<(), AllocError>
    ensures { OnOk result (text.new.items ≡ text.old.items ++ access_text line writes) }
{
    push_number(text, b"{\"line\":", u64::from(line))?;
    text.extend_from_slice(kind_text(writes))
}

// Adds two accesses that race.
#[tactic(auto, unfolding(crate::specs::Lines::site_text))]
fn push_site(text: &mut Vec<u8>, site: Site) -> Result<(), AllocError>
    ensures { OnOk result (text.new.items ≡ text.old.items ++ site_text site) }
{
    text.extend_from_slice(b",\"of\":[")?;
    push_access(text, site.line, site.writes)?;
    text.extend_from_slice(b",")?;
    push_access(text, site.later_line, site.later_writes)?;
    text.extend_from_slice(b"]")
}

fn push_group_site(text: &mut Vec<u8>, site: Option<Site>) -> Result<(), AllocError>
    ensures { OnOk result (text.new.items ≡ text.old.items ++ group_site_text site) }
{
    match site {
        Some(site) => push_site(text, site),
        None => Ok(()),
    }
}

/// Adds the line about a group of races, with its pairs of acts and its two accesses, or about the races that are in no
/// group.
pub fn push_race_line(
    text: &mut Vec<u8>,
    group: Option<usize>,
    site: Option<Site>,
    pairs: &[Pair],
) -> Result<(), AllocError>
    ensures { OnOk result (text.new.items ≡ text.old.items ++ race_line group site pairs.now) }
{
    text.extend_from_slice(b"{\"race\":")?;
    push_optional(text, group)?;
    text.extend_from_slice(b",\"pairs\":[")?;
    push_pairs(text, pairs)?;
    text.extend_from_slice(b"]")?;
    push_group_site(text, site)?;
    text.extend_from_slice(b"}\n")
}

fn push_optional(text: &mut Vec<u8>, number: Option<usize>) -> Result<(), AllocError>
    ensures { OnOk result (text.new.items ≡ text.old.items ++ optional_text number) }
{
    match number {
        Some(number) => push_number(text, b"", number as u64),
        None => text.extend_from_slice(b"null"),
    }
}

fn push_pairs(text: &mut Vec<u8>, pairs: &[Pair]) -> Result<(), AllocError>
    ensures { OnOk result (text.new.items ≡ text.old.items ++ pairs_text pairs.now) }
{
    for (place, pair) in pairs.iter().enumerate() {
        push_pair(text, place, *pair)?;
    }
    Ok(())
}

fn push_pair(text: &mut Vec<u8>, place: usize, pair: Pair) -> Result<(), AllocError>
    ensures { OnOk result (text.new.items ≡ text.old.items ++ pair_text place pair) }
{
    push_comma(text, place)?;
    push_number(text, b"[", pair.earlier as u64)?;
    push_number(text, b",", pair.later as u64)?;
    text.extend_from_slice(b"]")
}

// Adds texts between their quotation marks, with commas between them.
fn push_quoted_each(text: &mut Vec<u8>, lines: &[&[u8]]) -> Result<(), AllocError>
    ensures { OnOk result (text.new.items
        ≡ text.old.items ++ quoted_each (map (λ line. line.now) lines.now)) }
{
    for (place, line) in lines.iter().enumerate() {
        push_quoted_at(text, place, line)?;
    }
    Ok(())
}

fn push_quoted_at(text: &mut Vec<u8>, place: usize, line: &[u8]) -> Result<(), AllocError>
    ensures { OnOk result (text.new.items ≡ text.old.items ++ quoted_at place line.now) }
{
    push_comma(text, place)?;
    push_quoted(text, line)
}

/// Adds a comma before each but the first of a list.
pub(crate) fn push_comma(text: &mut Vec<u8>, place: usize) -> Result<(), AllocError>
    ensures { OnOk result (text.new.items ≡ text.old.items ++ comma_text place) }
{
    if place == 0 {
        Ok(())
    } else {
        text.extend_from_slice(b",")
    }
}

/// Adds numbers in a list.
#[tactic(auto, unfolding(crate::specs::Lines::numbers_text))]
pub(crate) fn push_numbers(text: &mut Vec<u8>, numbers: &[usize]) -> Result<(), AllocError>
    ensures { OnOk result (text.new.items ≡ text.old.items ++ numbers_text numbers.now) }
{
    text.extend_from_slice(b"[")?;
    push_each_number(text, numbers)?;
    text.extend_from_slice(b"]")
}

fn push_each_number(text: &mut Vec<u8>, numbers: &[usize]) -> Result<(), AllocError>
    ensures { OnOk result (text.new.items ≡ text.old.items ++ each number_at numbers.now) }
{
    for (place, number) in numbers.iter().enumerate() {
        push_number_at(text, place, *number)?;
    }
    Ok(())
}

fn push_number_at(text: &mut Vec<u8>, place: usize, number: usize) -> Result<(), AllocError>
    ensures { OnOk result (text.new.items ≡ text.old.items ++ number_at place number) }
{
    push_comma(text, place)?;
    push_number(text, b"", number as u64)
}
