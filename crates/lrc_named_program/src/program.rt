// The core of a whole named program.

ghost use Rattle.std.specs.Prelude.{◌≤◌, IfOk};
ghost use Rattle.lrc_named_tree.specs.View.{program_of};
ghost use Rattle.lrc_named_names.specs.View.{declared_of};
ghost use Rattle.lrc_named_constants.specs.Layout.{locks_in, words_in};
ghost use Rattle.lrc_named_constants.specs.Well.{IsSound};
ghost use Rattle.lrc_named_core.specs.View.{block_of};
ghost use Rattle.lrc_named_statements.specs.Well.{IsWellBlock};
ghost use Rattle.lrc_named_program.specs.Program.{IsCoreOf};

use crate::layout::{locks, words};
use lrc_named_blocks::Blocks;
use lrc_named_core::tree::Statement;
use lrc_named_names::names::Names;
use lrc_named_tree::tree::NamedProgram;
use std::alloc::{AllocError, Global};

/// The core of a named program.
#[derive(Drop)]
pub struct CoreProgram<'p> {
    /// How many words its shared memory has.
    pub words: u32,
    /// How many locks it has.
    pub locks: u32,
    pub statements: Vec<Statement<'p>>,
}

/// Returns the core of a named program that declares this and in which names are used as what they are. It fails only if
/// memory runs out.
pub fn core_of<'p>(
    alloc: Global,
    names: &Names<'_, 'p>,
    program: &NamedProgram<'p>,
) -> Result<CoreProgram<'p>, AllocError>
    requires table { IsSound (declared_of names.now) }
    requires well { IsWellBlock (declared_of names.now) (program_of program.now).statements }
    requires few_words { words_in (declared_of names.now) ≤ 65536 }
    requires few_locks { locks_in (declared_of names.now) ≤ 64 }
    ensures { IfOk result (λ core. IsCoreOf (declared_of names.now) (program_of program.now)
        core.words core.locks (block_of core.statements.items)) }
{
    let blocks = Blocks { alloc, names };
    let mut statements = Vec::new(alloc);
    blocks.block(&program.statements, 0, &mut statements)?;
    Ok(CoreProgram {
        words: words(names),
        locks: locks(names),
        statements,
    })
}
