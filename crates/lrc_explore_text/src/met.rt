// What a search met that was cut short, as it is printed.

ghost use Rattle.std.specs.Prelude.{◌≡◌, ℕ, Bool, IfOk, map, option_map};
ghost use Rattle.lrc_exec.specs.Nodes.{AreNodes};
ghost use Rattle.lrc_explain_waits.specs.Traps.{wording_of};
ghost use Rattle.lrc_text.specs.Parts.{whole_text};
ghost use Rattle.lrc_explore.specs.Met.{GaveUp, IsStuckOrder, IsTrapOrder};
ghost use Rattle.lrc_explore_text.specs.Met.{SaysMet, SaysStuckMet, SaysTrapMet};
ghost use Rattle.lrc_explore_text.specs.Sections.{section_text};

use crate::orders::{Section, line_alone, parts_of, stuck_told, trap_told};
use lrc_explain_waits::Wording;
use lrc_orders::search::Findings;
use lrc_program::Program;
use std::alloc::{AllocError, Global};

/// Returns the parts of what is printed of what a search met: an order that gets stuck, if one is told, and one in which a
/// node traps, if one is told, with what belongs to them. It fails if memory runs out.
pub(crate) fn met_told(
    alloc: Global,
    wording: &Wording<'_, '_>,
    program: &Program,
    lines: &[u32],
    nodes: u8,
    met: &Findings,
) -> Result<Vec<Vec<u8>>, AllocError>
    requires nodes { AreNodes nodes }
    requires gave { (most : ℕ) × (races : Bool) × GaveUp program.now nodes most races met.now }
    ensures { IfOk result (λ parts. SaysMet (wording_of wording.now) program.now nodes lines.now
        met.now (whole_text parts.items)) }
{
    let stuck = stuck_met(alloc, wording, program, lines, nodes, &met.stuck)?;
    let trap = trap_met(alloc, wording, program, lines, nodes, &met.trap)?;
    let parts = parts_of(alloc, b"", stuck, trap)?;
    Ok(parts)
}

// An order that gets stuck, if one is told.
fn stuck_met(
    alloc: Global,
    wording: &Wording<'_, '_>,
    program: &Program,
    lines: &[u32],
    nodes: u8,
    stuck: &Option<Vec<usize>>,
) -> Result<Section, AllocError>
    requires nodes { AreNodes nodes }
    requires stuck { IsStuckOrder program.now nodes
        (option_map (λ order. order.items) stuck.now) }
    ensures { IfOk result (λ section. SaysStuckMet (wording_of wording.now) program.now nodes
        lines.now (option_map (λ order. order.items) stuck.now) (section_text section)) }
{
    // For the proof: the lines are in range, and the wording is that of the others.
    let _lines = lines;
    let _wording = wording;
    match stuck {
        None => {
            let section = line_alone(alloc, b"")?;
            Ok(section)
        }
        Some(order) => {
            let section = stuck_told(alloc, wording, program, lines, nodes, order)?;
            Ok(section)
        }
    }
}

// An order in which a node traps, if one is told.
fn trap_met(
    alloc: Global,
    wording: &Wording<'_, '_>,
    program: &Program,
    lines: &[u32],
    nodes: u8,
    trap: &Option<Vec<usize>>,
) -> Result<Section, AllocError>
    requires nodes { AreNodes nodes }
    requires trap { IsTrapOrder program.now nodes (option_map (λ order. order.items) trap.now) }
    ensures { IfOk result (λ section. SaysTrapMet (wording_of wording.now) program.now nodes
        lines.now (option_map (λ order. order.items) trap.now) (section_text section)) }
{
    // For the proof: the lines are in range, and the wording is that of the others.
    let _lines = lines;
    let _wording = wording;
    match trap {
        None => {
            let section = line_alone(alloc, b"")?;
            Ok(section)
        }
        Some(order) => {
            let section = trap_told(alloc, wording, program, lines, nodes, order)?;
            Ok(section)
        }
    }
}
