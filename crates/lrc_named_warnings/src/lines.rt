// The lines of warnings, each once.

ghost use Rattle.std.specs.Prelude.{◌≡◌, ◌++◌, IfOk, OnOk, map};
ghost use Rattle.std.specs.List.{flat_map, list_any};
ghost use Rattle.lrc_named_warnings.specs.Context.{context_seen};
ghost use Rattle.lrc_named_warnings.specs.Lines.{firsts, is_same, line_of, line_text, unless_told};
ghost use Rattle.lrc_named_warnings.specs.Seen.{line_seen};

use crate::context::Context;
use crate::note::Note;
use crate::words::push_words;
use lrc_lint_lines::push_place;
use std::alloc::{AllocError, Global};

/// A warning in words, and the line and the column that it stands at.
#[derive(Drop)]
pub(crate) struct Line {
    pub line: u32,
    pub column: u32,
    pub words: Vec<u8>,
}

/// Returns the warnings in words. It fails only if memory runs out.
pub(crate) fn lines_of(
    alloc: Global,
    context: &Context<'_>,
    notes: &[Note],
) -> Result<Vec<Line>, AllocError>
    ensures { IfOk result (λ lines. map line_seen lines.items
        ≡ map (line_of (context_seen context.now)) notes.now) }
{
    let mut lines = Vec::new(alloc);
    for note in notes {
        let line = line_of(alloc, context, *note)?;
        lines.push(line)?;
    }
    Ok(lines)
}

fn line_of(alloc: Global, context: &Context<'_>, note: Note) -> Result<Line, AllocError>
    ensures { IfOk result (λ line. line_seen line ≡ line_of (context_seen context.now) note) }
{
    let mut words = Vec::new(alloc);
    push_words(&mut words, context, note.says)?;
    Ok(Line {
        line: note.line,
        column: note.column,
        words,
    })
}

// Whether two stand at one place and say the same.
fn is_same(one: &Line, other: &Line) -> bool
    ensures { result ≡ is_same (line_seen one.now) (line_seen other.now) }
{
    one.line == other.line
        && one.column == other.column
        && one.words.as_slice() == other.words.as_slice()
}

fn is_among(lines: &[Line], line: &Line) -> bool
    ensures { result ≡ list_any (is_same (line_seen line.now)) (map line_seen lines.now) }
{
    lines.iter().any(|other| is_same(line, other))
}

/// Returns the lines but those that an earlier one is the same as. It fails only if memory runs out.
pub(crate) fn firsts<'l>(alloc: Global, lines: &'l [Line]) -> Result<Vec<&'l Line>, AllocError>
    ensures { IfOk result (λ told. map (λ line. line_seen line.now) told.items
        ≡ firsts (map line_seen lines.entry.now)) }
{
    let mut told = Vec::new(alloc);
    for i in 0..lines.len() {
        put_unless_told(&mut told, &lines[..i], &lines[i])?;
    }
    Ok(told)
}

fn put_unless_told<'l>(
    told: &mut Vec<&'l Line>,
    before: &[Line],
    line: &'l Line,
) -> Result<(), AllocError>
    ensures { OnOk result (map (λ line. line_seen line.now) told.new.items
        ≡ map (λ line. line_seen line.now) told.old.items
        ++ unless_told (map line_seen before.now) (line_seen line.entry.now)) }
{
    if is_among(before, line) {
        return Ok(());
    }
    told.push(line)?;
    Ok(())
}

/// Adds the text of these lines.
pub(crate) fn push_lines(out: &mut Vec<u8>, file: &[u8], lines: &[&Line]) -> Result<(), AllocError>
    ensures { OnOk result (out.new.items ≡ out.old.items
        ++ flat_map (line_text file.now) (map (λ line. line_seen line.now) lines.now)) }
{
    for line in lines {
        push_line(out, file, line)?;
    }
    Ok(())
}

fn push_line(out: &mut Vec<u8>, file: &[u8], line: &Line) -> Result<(), AllocError>
    ensures { OnOk result (out.new.items
        ≡ out.old.items ++ line_text file.now (line_seen line.now)) }
{
    push_place(out, file, u64::from(line.line), u64::from(line.column))?;
    out.extend_from_slice(b"warning: ")?;
    out.extend_from_slice(&line.words)?;
    out.extend_from_slice(b"\n")
}
