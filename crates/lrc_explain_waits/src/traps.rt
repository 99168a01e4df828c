// What a text says of traps, and of words and locks.

ghost use Rattle.std.specs.Prelude.{◌≡◌, ◌+◌, IfOk, List, map, option_map};
ghost use Rattle.std.specs.List.{range_with_len};
ghost use Rattle.lrc_lines.specs.Statements.{numbers_of};
ghost use Rattle.lrc_named_core.specs.View.{trap_of};
ghost use Rattle.lrc_program.specs.declared.Program.{Program};
ghost use Rattle.lrc_trace.specs.declared.act.Act.{Act as AnyAct};
ghost use Rattle.lrc_explain_waits.specs.Followed.{AreFollowed};
ghost use Rattle.lrc_explain_waits.specs.Traps.{trap_at, traps_behind, traps_told};

use lrc_exec::code::Code;
use lrc_labels::label::Label;
use lrc_lines::walks::{Followed, follow_acts};
use lrc_named_core::tree::Trap;
use lrc_trace::act::Act;
use std::alloc::{AllocError, Global};

/// What a text says of words and locks by labels, and of a trap of each statement, in the order of the core's text, if it
/// says something of statements.
#[derive(Clone, Copy)]
pub struct Wording<'a, 't> {
    pub labels: &'a [Label<'t>],
    pub traps: Option<&'a [Trap<'t>]>,
}

// The numbers from 0 to the last one. For a number that does not fit in 32 bits there is no memory.
fn numbers_to(alloc: Global, last: usize) -> Result<Vec<u32>, AllocError>
    ensures { IfOk result (λ numbers. numbers.items ≡ range_with_len 0 (last + 1)) }
{
    let Ok(last) = u32::try_from(last) else {
        return Err(AllocError);
    };
    let mut numbers = Vec::new(alloc);
    for number in 0..=last {
        numbers.push(number)?;
    }
    Ok(numbers)
}

// The numbers of the statements of a program, and last how many there are.
fn numbers_in(alloc: Global, code: &Code<'_>) -> Result<Vec<u32>, AllocError>
    ensures { IfOk result (λ numbers. numbers.items ≡ numbers_of code.now) }
{
    let (instructions, _start) = code.parts();
    numbers_to(alloc, instructions.len())
}

/// Returns what is said at a place; past the last one nothing is.
pub fn trap_at<'t>(traps: &[Trap<'t>], place: usize) -> Trap<'t>
    ensures { trap_of result ≡ trap_at (map trap_of traps.now) place }
{
    match traps.get(place) {
        Some(trap) => *trap,
        None => Trap::Plain,
    }
}

/// Returns what the text says of a trap of the statement to which each node has come after acts, or nothing where nothing
/// is said of statements. It fails if memory runs out; there is none for 2^32 statements.
pub fn traps_told<'t>(
    alloc: Global,
    code: &Code<'_>,
    traps: Option<&[Trap<'t>]>,
    nodes: u8,
    acts: &[Act],
) -> Result<Vec<Trap<'t>>, AllocError>
    ensures { IfOk result (λ found. map trap_of found.items
        ≡ traps_told (option_map (λ traps. map trap_of traps.now) traps.entry) code.now nodes
        acts.now) }
{
    match traps {
        Some(traps) => traps_behind(alloc, code, traps, nodes, acts),
        None => Ok(Vec::new(alloc)),
    }
}

// What the text says of a trap of the statement to which each of nodes 0, 1, .. has come after acts. `traps` has it of each
// statement, in the order of the text.
fn traps_behind<'t>(
    alloc: Global,
    code: &Code<'_>,
    traps: &[Trap<'t>],
    nodes: u8,
    acts: &[Act],
) -> Result<Vec<Trap<'t>>, AllocError>
    ensures { IfOk result (λ found. map trap_of found.items
        ≡ traps_behind (map trap_of traps.now) code.now nodes acts.now) }
{
    let numbers = numbers_in(alloc, code)?;
    let followed = follow_acts(alloc, code, &numbers, nodes, acts)?;
    found_at(alloc, traps, nodes, &followed)
}

// The same where acts were followed by the numbers of statements.
fn found_at<'t>(
    alloc: Global,
    traps: &[Trap<'t>],
    nodes: u8,
    followed: &Followed<'_>,
) -> Result<Vec<Trap<'t>>, AllocError>
    ensures { (program : Program) (acts : List AnyAct)
        → AreFollowed program nodes (numbers_of program) acts followed.now
        → IfOk result (λ found. map trap_of found.items
        ≡ traps_behind (map trap_of traps.now) program nodes acts) }
{
    let mut found = Vec::new(alloc);
    for node in 0..nodes {
        found.push(trap_at(traps, followed.walks.line(node) as usize))?;
    }
    Ok(found)
}
