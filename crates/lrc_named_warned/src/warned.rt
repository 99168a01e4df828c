// What is told of a named program without a fault.

ghost use Rattle.std.specs.Prelude.{◌≡◌, ◌≢◌, [], IfOk, MatchOption, None, OnOk, map};
ghost use Rattle.lrc_lang.specs.declared.fault.FaultKind.TheVariants.{NoMemory};
ghost use Rattle.lrc_lang.specs.Faults.{IsText};
ghost use Rattle.lrc_program.specs.Tree.{program_of as core_program_of};
ghost use Rattle.lrc_text.specs.Parts.{whole_text};
ghost use Rattle.lrc_named_check.specs.Program.{IsClean};
ghost use Rattle.lrc_named_core.specs.View.{origin_of};
ghost use Rattle.lrc_named_names.specs.View.{declared_of};
ghost use Rattle.lrc_named_parse.specs.Faults.{IsNamed};
ghost use Rattle.lrc_named_tokens.specs.View.{located_of};
ghost use Rattle.lrc_named_tree.specs.View.{program_of};
ghost use Rattle.lrc_named_warned.specs.CoreSide.{side_seen};
ghost use Rattle.lrc_named_warned.specs.Warned.{HasFault, IsProgramText, TellsCore, TellsOf, WarnsNamed};

use crate::core_side::{CoreSide, core_side};
use crate::tokens::{lines_of, spots_of};
use lrc_lang::fault::FaultKind;
use lrc_lang::parse as parse_core;
use lrc_lint_fault::Linted;
use lrc_lint_warnings::warning::Spot;
use lrc_named_check::names_of;
use lrc_named_core::tree::Origin;
use lrc_named_entries::entry::Entry;
use lrc_named_faults::layout::Layout;
use lrc_named_faults::values::Found;
use lrc_named_names::names::Names;
use lrc_named_parse::{TextFault, parse};
use lrc_named_tokens::token::Located;
use lrc_named_tree::tree::NamedProgram;
use lrc_named_uses::{loops_in, unused_of};
use lrc_named_warnings::context::Context;
use lrc_named_warnings::push_told;
use lrc_named_written::{Written, core_text};
use lrc_program::Program;
use std::alloc::{AllocError, Global};

/// Returns what `lint` answers to a text that is a named program without a fault, its warnings with status 0; or none, if
/// the text has a fault. The answer names the file as it was given.
pub fn lint_sound(alloc: Global, file: &[u8], text: &[u8]) -> Result<Option<Linted>, AllocError>
    ensures { IfOk result (λ told. MatchOption told (HasFault text.now)
        (λ linted. WarnsNamed file.now text.now (whole_text linted.parts.items)
        × (linted.status ≡ 0))) }
{
    match parse(alloc, text) {
        Ok(parsed) => lint_parsed(alloc, file, text, &parsed.tokens, &parsed.program),
        Err(fault) => unless_memory(fault),
    }
}

// None of a text that has a fault.
fn unless_memory(fault: TextFault) -> Result<Option<Linted>, AllocError>
    ensures { IfOk result (λ told. (told ≡ None) × (fault.kind ≢ NoMemory)) }
{
    match fault.kind {
        FaultKind::NoMemory => Err(AllocError),
        _ => Ok(None),
    }
}

fn lint_parsed(
    alloc: Global,
    file: &[u8],
    text: &[u8],
    tokens: &[Located<'_>],
    program: &NamedProgram<'_>,
) -> Result<Option<Linted>, AllocError>
    requires { IsNamed text.now (map located_of tokens.now) (program_of program.now) }
    ensures { IfOk result (λ told. MatchOption told (HasFault text.now)
        (λ linted. WarnsNamed file.now text.now (whole_text linted.parts.items)
        × (linted.status ≡ 0))) }
{
    let found = names_of(alloc, program)?;
    match found {
        Found::Bad(_) => Ok(None),
        Found::Good(layout) => lint_clean(alloc, file, text, tokens, program, &layout),
    }
}

// The same, of a program whose names have no fault.
fn lint_clean<'p>(
    alloc: Global,
    file: &[u8],
    text: &[u8],
    tokens: &[Located<'_>],
    program: &NamedProgram<'p>,
    layout: &Layout<'_, 'p>,
) -> Result<Option<Linted>, AllocError>
    requires parsed { IsNamed text.now (map located_of tokens.now) (program_of program.now) }
    requires clean { IsClean (program_of program.now) layout.now }
    ensures { IfOk result (λ told. MatchOption told (HasFault text.now)
        (λ linted. WarnsNamed file.now text.now (whole_text linted.parts.items)
        × (linted.status ≡ 0))) }
{
    let lines = lines_of(alloc, tokens)?;
    let written = core_text(alloc, &layout.names, &lines, program)?;
    match written {
        Written::Core(core, origins, _) => {
            let linted = lint_core(alloc, file, tokens, program, &layout.names, &core, &origins)?;
            Ok(Some(linted))
        }
        Written::Over(_) => Ok(None),
        Written::TooLong => Ok(None),
    }
}

// What is told of a program that has this core, whose statements come from this.
fn lint_core(
    alloc: Global,
    file: &[u8],
    tokens: &[Located<'_>],
    program: &NamedProgram<'_>,
    names: &Names<'_, '_>,
    core: &[u8],
    origins: &[Origin<'_>],
) -> Result<Linted, AllocError>
    requires { IsProgramText core.now }
    ensures told { IfOk result (λ linted. TellsCore file.now (map located_of tokens.now)
        (program_of program.now) (declared_of names.now) core.now (map origin_of origins.now)
        (whole_text linted.parts.items)) }
    ensures status { IfOk result (λ linted. linted.status ≡ 0) }
{
    match parse_core(alloc, core) {
        Ok(parsed) => lint_both(alloc, file, tokens, program, names, core, origins, &parsed),
        Err(fault) => match fault.kind {
            FaultKind::NoMemory => Err(AllocError),
            _ => unreachable!(),
        },
    }
}

fn lint_both(
    alloc: Global,
    file: &[u8],
    tokens: &[Located<'_>],
    program: &NamedProgram<'_>,
    names: &Names<'_, '_>,
    core: &[u8],
    origins: &[Origin<'_>],
    parsed: &Program,
) -> Result<Linted, AllocError>
    requires { IsText core.now (core_program_of parsed.now) }
    ensures told { IfOk result (λ linted. TellsCore file.now (map located_of tokens.now)
        (program_of program.now) (declared_of names.now) core.now (map origin_of origins.now)
        (whole_text linted.parts.items)) }
    ensures status { IfOk result (λ linted. linted.status ≡ 0) }
{
    let mut out = Vec::new(alloc);
    push_core(
        &mut out, alloc, file, tokens, program, names, core, origins, parsed,
    )?;
    let mut parts = Vec::new(alloc);
    parts.push(out)?;
    Ok(Linted { parts, status: 0 })
}

fn push_core(
    out: &mut Vec<u8>,
    alloc: Global,
    file: &[u8],
    tokens: &[Located<'_>],
    program: &NamedProgram<'_>,
    names: &Names<'_, '_>,
    core: &[u8],
    origins: &[Origin<'_>],
    parsed: &Program,
) -> Result<(), AllocError>
    requires program { IsText core.now (core_program_of parsed.now) }
    requires empty { out.old.items ≡ [] }
    ensures { OnOk result (TellsCore file.now (map located_of tokens.now) (program_of program.now)
        (declared_of names.now) core.now (map origin_of origins.now) out.new.items) }
{
    let side = core_side(alloc, core, parsed)?;
    push_both(out, alloc, file, tokens, program, names, origins, &side)
}

// Adds what is told by what the core has to say, and by the text of the named program.
fn push_both(
    out: &mut Vec<u8>,
    alloc: Global,
    file: &[u8],
    tokens: &[Located<'_>],
    program: &NamedProgram<'_>,
    names: &Names<'_, '_>,
    origins: &[Origin<'_>],
    side: &CoreSide<'_>,
) -> Result<(), AllocError>
    requires { out.old.items ≡ [] }
    ensures { OnOk result (TellsOf file.now (map located_of tokens.now) (program_of program.now)
        (declared_of names.now) (map origin_of origins.now) (side_seen side.now) out.new.items) }
{
    let spots = spots_of(alloc, tokens)?;
    let loops = loops_in(alloc, names, tokens, &program.statements)?;
    let unused = unused_of(alloc, tokens, &program.declarations)?;
    let context = context_by(&spots, origins, side, &loops, &unused);
    push_told(out, alloc, file, &context, &side.warned)
}

// What the warnings are told by.
fn context_by<'c>(
    spots: &'c [Spot],
    origins: &'c [Origin<'c>],
    side: &'c CoreSide<'c>,
    loops: &'c [u32],
    unused: &'c [Entry<'c>],
) -> Context<'c>
    ensures spots { result.spots.now ≡ spots.entry.now }
    ensures origins { result.origins.now ≡ origins.entry.now }
    ensures begins { result.begins.now ≡ side.entry.now.begins.items }
    ensures names { result.names.now ≡ side.entry.now.names.items }
    ensures labels { result.labels.now ≡ side.entry.now.labels.said.items }
    ensures loops { result.loops.now ≡ loops.entry.now }
    ensures unused { result.unused.now ≡ unused.entry.now }
{
    Context {
        spots,
        origins,
        begins: &side.begins,
        names: &side.names,
        labels: &side.labels.said,
        loops,
        unused,
    }
}
