// The document.

ghost use Rattle.std.specs.Prelude.{◌≡◌, IfOk};
ghost use Rattle.lrc_step.specs.Lines.{closing, document, opening, program_line, run_lines};
ghost use Rattle.lrc_text.specs.Parts.{whole_text};

use crate::frame::OPENING;
use crate::lines::push_program_line;
use crate::script::CLOSING;
use std::alloc::{AllocError, Global};

#[tactic(auto, unfolding(crate::specs::Lines::opening))]
fn opening() -> &'static [u8]
    ensures { result.now ≡ opening }
{
    OPENING
}

#[tactic(auto, unfolding(crate::specs::Lines::closing))]
fn closing() -> &'static [u8]
    ensures { result.now ≡ closing }
{
    CLOSING
}

/// Returns the document: its frame with these lines in it.
pub fn document_parts(alloc: Global, mut lines: Vec<Vec<u8>>) -> Result<Vec<Vec<u8>>, AllocError>
    ensures { IfOk result (λ parts. whole_text parts.items ≡ document (whole_text lines.items)) }
{
    let mut parts = Vec::new(alloc);
    parts.push(Vec::from_slice(alloc, opening())?)?;
    parts.append(&mut lines)?;
    parts.push(Vec::from_slice(alloc, closing())?)?;
    Ok(parts)
}

fn program_part(alloc: Global, name: &[u8], text: &[u8]) -> Result<Vec<u8>, AllocError>
    ensures { IfOk result (λ part. part.items ≡ program_line name.now text.now) }
{
    let mut part = Vec::new(alloc);
    push_program_line(&mut part, name, text)?;
    Ok(part)
}

/// Returns the document that shows a run of the program in the file with this name. In its frame are the program, and
/// these lines about states, about the run with reasons, about races, and about reasons of acts.
pub fn step_document(
    alloc: Global,
    name: &[u8],
    text: &[u8],
    mut states: Vec<Vec<u8>>,
    explained: Vec<u8>,
    races: Vec<u8>,
    reasons: Vec<u8>,
) -> Result<Vec<Vec<u8>>, AllocError>
    ensures { IfOk result (λ parts. whole_text parts.items
        ≡ document (run_lines name.now text.now
        (whole_text states.items) explained.items races.items reasons.items)) }
{
    let mut lines = Vec::new(alloc);
    lines.push(program_part(alloc, name, text)?)?;
    lines.append(&mut states)?;
    lines.push(explained)?;
    lines.push(races)?;
    lines.push(reasons)?;
    document_parts(alloc, lines)
}
