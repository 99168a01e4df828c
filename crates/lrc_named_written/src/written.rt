// The text of the core of a named program.

ghost use Rattle.std.specs.Prelude.{◌≤◌, IfOk};
ghost use Rattle.lrc_named_tree.specs.View.{program_of};
ghost use Rattle.lrc_named_names.specs.View.{declared_of};
ghost use Rattle.lrc_named_constants.specs.Layout.{locks_in, words_in};
ghost use Rattle.lrc_named_constants.specs.Well.{IsSound};
ghost use Rattle.lrc_named_core.specs.View.{block_of};
ghost use Rattle.lrc_named_statements.specs.Well.{IsWellBlock};
ghost use Rattle.lrc_named_text.specs.Statements.{core_text};
ghost use Rattle.lrc_named_written.specs.Written.{ComesTo, IsTextOf, IsWritten};

use crate::privates::privates;
use lrc_named_core::tree::Origin;
use lrc_named_held::{Own, owns_among};
use lrc_named_limits::excess::Excess;
use lrc_named_limits::first_excess;
use lrc_named_names::names::Names;
use lrc_named_origins::origins_of;
use lrc_named_program::{CoreProgram, core_of};
use lrc_named_text::push_core;
use lrc_named_tree::tree::NamedProgram;
use std::alloc::{AllocError, Global};

/// How many bytes the text of a core may have.
pub const MOST_BYTES: usize = 65_536;

/// What the core of a named program comes to.
#[derive(Drop)]
pub enum Written<'p> {
    /// A text; what each of its statements comes from, in the order of the text; and the translation's own names in each, in
    /// the same order.
    Core(Vec<u8>, Vec<Origin<'p>>, Vec<Vec<Own>>),
    /// The first statement whose core is over a limit.
    Over(Excess),
    /// Nothing is over a limit, but the text would have more than 65,536 bytes.
    TooLong,
}

/// Returns the text of the core of a named program that declares this, that uses names as what they are, and whose tokens
/// stand on these lines, with what its statements come from and their names; or why there is none. It fails only if memory
/// runs out.
pub fn core_text<'p>(
    alloc: Global,
    names: &Names<'_, 'p>,
    lines: &[u32],
    program: &NamedProgram<'p>,
) -> Result<Written<'p>, AllocError>
    requires table { IsSound (declared_of names.now) }
    requires well { IsWellBlock (declared_of names.now) (program_of program.now).statements }
    requires few_words { words_in (declared_of names.now) ≤ 65536 }
    requires few_locks { locks_in (declared_of names.now) ≤ 64 }
    ensures { IfOk result (IsWritten (declared_of names.now) lines.now (program_of program.now)) }
{
    let count = privates(alloc, names, &program.statements)?;
    let core = core_of(alloc, names, program)?;
    of_core(alloc, names, lines, count, &core)
}

// What a core comes to, where the program has so many private names.
fn of_core<'p>(
    alloc: Global,
    names: &Names<'_, '_>,
    lines: &[u32],
    privates: u32,
    core: &CoreProgram<'p>,
) -> Result<Written<'p>, AllocError>
    ensures { IfOk result (ComesTo privates core.now.words core.now.locks (declared_of names.now) lines.now
        (block_of core.now.statements.items)) }
{
    match first_excess(privates, &core.statements)? {
        Some(excess) => Ok(Written::Over(excess)),
        None => text_of(alloc, names, lines, core),
    }
}

// The text of a core, and what its statements come from and have, unless it is too long.
fn text_of<'p>(
    alloc: Global,
    names: &Names<'_, '_>,
    lines: &[u32],
    core: &CoreProgram<'p>,
) -> Result<Written<'p>, AllocError>
    ensures { IfOk result (IsTextOf (core_text core.now.words core.now.locks (declared_of names.now) lines.now
        (block_of core.now.statements.items)) (block_of core.now.statements.items)) }
{
    let mut text = Vec::new(alloc);
    push_core(
        &mut text,
        alloc,
        core.words,
        core.locks,
        names,
        lines,
        &core.statements,
    )?;
    if text.len() > MOST_BYTES {
        Ok(Written::TooLong)
    } else {
        let origins = origins_of(alloc, &core.statements)?;
        let owns = owns_among(alloc, &core.statements)?;
        Ok(Written::Core(text, origins, owns))
    }
}
