// The text of the core of a named program.

ghost use Rattle.std.specs.Prelude.{◌≡◌, IfErr, IfOk, List, map, option_map};
ghost use Rattle.lrc_named_tokens.specs.Token.{Located as LocatedSeen};
ghost use Rattle.lrc_named_tokens.specs.View.{located_of};
ghost use Rattle.lrc_named_tree.specs.View.{program_of};
ghost use Rattle.lrc_named_check.specs.Program.{IsClean};
ghost use Rattle.lrc_named_core.specs.View.{trap_of};
ghost use Rattle.lrc_named_held.specs.Held.{held_seen};
ghost use Rattle.lrc_named_parse.specs.Faults.{IsNamed};
ghost use Rattle.lrc_named.specs.Lines.{lines_of, offsets_of};
ghost use Rattle.lrc_named.specs.Named.{IsCoreTextOn, IsNamedFault};

use crate::fault::NamedFault;
use crate::lines::{line_of, lines_of, offsets_of, told_lines, told_traps};
use crate::nodes::nodes_asked;
use lrc_lang::fault::FaultKind;
use lrc_named_check::names_of;
use lrc_named_core::tree::Trap;
use lrc_named_faults::layout::Layout;
use lrc_named_faults::values::Found;
use lrc_named_held::{Held, held_of};
use lrc_named_parse::parse;
use lrc_named_tokens::token::Located;
use lrc_named_tree::tree::NamedProgram;
use lrc_named_written::{Written, core_text};
use lrc_setting::setting::Nodes;
use std::alloc::Global;

/// The core of a named program.
#[derive(Drop)]
pub struct CoreText<'t> {
    /// The text of the core.
    pub text: Vec<u8>,
    /// How many nodes the named program asks for, if it does.
    pub nodes: Option<Nodes>,
    /// On which line of the named program's text each statement of the core lies, in the order of the core's text, and
    /// last the line of the named text's end.
    pub lines: Vec<u32>,
    /// What the named program says of a trap of each statement of the core, in the same order.
    pub traps: Vec<Trap<'t>>,
    /// What the translation's own names hold in each statement of the core, in the same order.
    pub held: Vec<Vec<Held>>,
}

/// Returns the core of the named program that this text is. It fails if the text is none, with the first fault, or if
/// memory runs out.
pub fn core_of_text(alloc: Global, text: &[u8]) -> Result<CoreText<'_>, NamedFault>
    ensures core { IfOk result (λ core. IsCoreTextOn text.now
        (option_map (λ nodes. nodes.count) core.nodes) core.text.items core.lines.items
        (map trap_of core.traps.items) (map (λ one. map held_seen one.items) core.held.items)) }
    ensures fault { IfErr result (IsNamedFault text.now) }
{
    let parsed = parse(alloc, text)?;
    of_program(alloc, text, &parsed.tokens, &parsed.program)
}

// The core of a program that is this text and has these tokens.
fn of_program<'p>(
    alloc: Global,
    text: &[u8],
    tokens: &[Located<'_>],
    program: &NamedProgram<'p>,
) -> Result<CoreText<'p>, NamedFault>
    requires { IsNamed text.now (map located_of tokens.now) (program_of program.now) }
    ensures core { IfOk result (λ core. IsCoreTextOn text.now
        (option_map (λ nodes. nodes.count) core.nodes) core.text.items core.lines.items
        (map trap_of core.traps.items) (map (λ one. map held_seen one.items) core.held.items)) }
    ensures fault { IfErr result (IsNamedFault text.now) }
{
    let lines = lines_of(alloc, tokens)?;
    let found = names_of(alloc, program)?;
    match found {
        Found::Bad(fault) => Err(NamedFault::Names(line_of(&lines, fault.at), fault.kind)),
        Found::Good(layout) => {
            let offsets = offsets_of(alloc, tokens)?;
            of_names(alloc, text, &lines, &offsets, program, &layout)
        }
    }
}

// The core of a program that declares this, and whose tokens stand on these lines and behind so many bytes.
fn of_names<'p>(
    alloc: Global,
    text: &[u8],
    lines: &[u32],
    offsets: &[u32],
    program: &NamedProgram<'p>,
    layout: &Layout<'_, 'p>,
) -> Result<CoreText<'p>, NamedFault>
    requires clean { IsClean (program_of program.now) layout.now }
    requires tokens { (tokens : List LocatedSeen)
        × IsNamed text.now tokens (program_of program.now) × (lines.now ≡ lines_of tokens)
        × (offsets.now ≡ offsets_of tokens) }
    ensures core { IfOk result (λ core. IsCoreTextOn text.now
        (option_map (λ nodes. nodes.count) core.nodes) core.text.items core.lines.items
        (map trap_of core.traps.items) (map (λ one. map held_seen one.items) core.held.items)) }
    ensures fault { IfErr result (IsNamedFault text.now) }
{
    let nodes = nodes_asked(program, layout);
    let written = core_text(alloc, &layout.names, lines, program)?;
    match written {
        Written::Core(core, origins, owns) => {
            let lines = told_lines(alloc, lines, &origins)?;
            let traps = told_traps(alloc, &origins)?;
            let held = held_of(alloc, text, offsets, &owns)?;
            Ok(CoreText {
                text: core,
                nodes,
                lines,
                traps,
                held,
            })
        }
        Written::Over(excess) => {
            let line = line_of(lines, u64::from(excess.at));
            Err(NamedFault::Text(line, FaultKind::OverLimit))
        }
        Written::TooLong => Err(NamedFault::Text(1, FaultKind::TooLong)),
    }
}
