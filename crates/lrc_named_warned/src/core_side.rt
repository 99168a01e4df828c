// What the core has to say: its warnings, and what they are told by.

ghost use Rattle.std.specs.Prelude.{IfOk};
ghost use Rattle.lrc_lang.specs.Faults.{IsText};
ghost use Rattle.lrc_program.specs.Tree.{program_of};
ghost use Rattle.lrc_named_warned.specs.CoreSide.{IsCoreSide, side_seen};

use crate::tokens::{begins_in, numbered, tokens_of};
use lrc_labels::label::Labels;
use lrc_labels::read_labels;
use lrc_lang::positions::positions_of;
use lrc_lint_warned::places::statements_at;
use lrc_lint_warnings::warning::Warning;
use lrc_lint_warnings::warnings;
use lrc_private_names::names_of;
use lrc_program::Program;
use std::alloc::{AllocError, Global};

/// What the core has to say.
#[derive(Drop)]
pub(crate) struct CoreSide<'t> {
    /// What is warned of, each with the number of its token as its column.
    pub warned: Vec<Warning>,
    /// With which token each statement begins.
    pub begins: Vec<u32>,
    /// The private names, by number.
    pub names: Vec<&'t [u8]>,
    /// The label lines.
    pub labels: Labels<'t>,
}

/// Returns what the core of this text has to say. It fails only if memory runs out.
pub(crate) fn core_side<'t>(
    alloc: Global,
    core: &'t [u8],
    program: &Program,
) -> Result<CoreSide<'t>, AllocError>
    requires { IsText core.now (program_of program.now) }
    ensures { IfOk result (λ side. IsCoreSide core.entry.now (program_of program.now)
        (side_seen side)) }
{
    let all = positions_of(alloc, core)?;
    let tokens = tokens_of(alloc, &all)?;
    let spots = numbered(alloc, &tokens)?;
    let warned = warnings(alloc, program, &tokens, &spots, &[])?;
    let statements = statements_at(alloc, &program.statements, &tokens)?;
    let begins = begins_in(alloc, &statements)?;
    let names = names_of(alloc, core)?;
    let labels = read_labels(alloc, core, program.words(), program.locks())?;
    Ok(CoreSide {
        warned,
        begins,
        names,
        labels,
    })
}
