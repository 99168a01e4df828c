// What is told of a named program.

ghost use Rattle.std.specs.Prelude.{◌≡◌, ◌++◌, OnOk};
ghost use Rattle.lrc_named_warnings.specs.Context.{context_seen};
ghost use Rattle.lrc_named_warnings.specs.Told.{Tells, told_text};

use crate::context::Context;
use crate::lines::{firsts, lines_of, push_lines};
use crate::note::Note;
use crate::notes::notes_of;
use lrc_lint_lines::push_count;
use lrc_lint_warnings::warning::Warning;
use std::alloc::{AllocError, Global};

/// Adds a line for each warning of a named program, then the line with their number. `warned` is what is warned of in the
/// core: each has the place of its token among those of the core's text as its column. It fails only if memory runs out.
pub fn push_told(
    out: &mut Vec<u8>,
    alloc: Global,
    file: &[u8],
    context: &Context<'_>,
    warned: &[Warning],
) -> Result<(), AllocError>
    ensures { OnOk result (Tells file.now (context_seen context.now) warned.now
        out.old.items out.new.items) }
{
    let notes = notes_of(alloc, context, warned)?;
    push_notes(out, alloc, file, context, &notes)
}

fn push_notes(
    out: &mut Vec<u8>,
    alloc: Global,
    file: &[u8],
    context: &Context<'_>,
    notes: &[Note],
) -> Result<(), AllocError>
    ensures { OnOk result (out.new.items
        ≡ out.old.items ++ told_text file.now (context_seen context.now) notes.now) }
{
    let lines = lines_of(alloc, context, notes)?;
    let told = firsts(alloc, &lines)?;
    push_lines(out, file, &told)?;
    push_count(out, told.len() as u64)
}
