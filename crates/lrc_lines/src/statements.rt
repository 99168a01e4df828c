// The statements of acts by their numbers, from which the lines of acts follow.

ghost use Rattle.std.specs.Prelude.{◌≡◌, ◌+◌, ℕ, List, length, map, slice_index_or, IfOk};
ghost use Rattle.std.specs.List.{range_with_len};
ghost use Rattle.lrc_program.specs.declared.Program.{Program};
ghost use Rattle.lrc_trace.specs.declared.act.Act.{Act};
ghost use Rattle.lrc_lines.specs.Statements.{act_statements, numbers_of};
ghost use Rattle.lrc_lines.specs.Walks.{act_lines};

use crate::walks::lines_of_acts;
use lrc_exec::code::Code;
use lrc_trace::act::Act;
use std::alloc::{AllocError, Global};

// The numbers from 0 to the last one. For a number that does not fit in 32 bits there is no memory.
fn numbers_to(alloc: Global, last: usize) -> Result<Vec<u32>, AllocError>
    ensures { IfOk result (λ numbers. numbers.items ≡ range_with_len 0 (last + 1)) }
{
    let Ok(last) = u32::try_from(last) else {
        return Err(AllocError);
    };
    let mut numbers = Vec::new(alloc);
    for number in 0..=last {
        numbers.push(number)?;
    }
    Ok(numbers)
}

/// Returns the number of each act's statement: how many statements come before it in the order of the text, where a
/// statement comes before those of its blocks. For an end it is how many statements there are. It fails if memory runs
/// out; there is none for 2^32 statements.
pub fn statements_of_acts(
    alloc: Global,
    code: &Code<'_>,
    nodes: u8,
    acts: &[Act],
) -> Result<Vec<u32>, AllocError>
    ensures { IfOk result (λ found. found.items ≡ act_statements code.now nodes acts.now) }
{
    let (instructions, _start) = code.parts();
    let numbers = numbers_to(alloc, instructions.len())?;
    lines_of_acts(alloc, code, &numbers, nodes, acts)
}

// The line of the statement with this number.
fn line_of(lines: &[u32], statement: u32) -> u32
    ensures { result ≡ slice_index_or lines.now statement 0 }
{
    match lines.get(statement as usize) {
        Some(line) => *line,
        None => 0,
    }
}

// The line of each of the statements with these numbers.
fn lines_at(alloc: Global, lines: &[u32], statements: &[u32]) -> Result<Vec<u32>, AllocError>
    ensures { IfOk result (λ found. found.items
        ≡ map (λ number. slice_index_or lines.now number 0) statements.now) }
{
    statements
        .iter()
        .map(|statement| line_of(lines, *statement))
        .collect(alloc)
}

/// Returns the line of each act, from the number of its statement. `lines` has the line of each statement in the order
/// of the text, and last that of the text's end; a number past it has line 0. It fails if memory runs out.
pub fn lines_of_statements(
    alloc: Global,
    lines: &[u32],
    statements: &[u32],
) -> Result<Vec<u32>, AllocError>
    ensures lines { IfOk result (λ found. (program : Program) (nodes : ℕ) (acts : List Act)
        → length lines.now ≡ length (numbers_of program)
        → statements.now ≡ act_statements program nodes acts
        → found.items ≡ act_lines program nodes lines.now acts) }
    ensures numbers { IfOk result (λ found. found.items
        ≡ map (λ number. slice_index_or lines.now number 0) statements.now) }
{
    lines_at(alloc, lines, statements)
}
