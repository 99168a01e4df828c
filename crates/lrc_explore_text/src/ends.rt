// Whether every order of a program can end, as it is printed.

ghost use Rattle.std.specs.Prelude.{◌≡◌, ◌≢◌, ◌++◌, false, true, IfErr, IfOk, map, option_map};
ghost use Rattle.lrc_explain_waits.specs.Traps.{wording_of};
ghost use Rattle.lrc_text.specs.Parts.{whole_text};
ghost use Rattle.lrc_exec.specs.Nodes.{AreNodes};
ghost use Rattle.lrc_explore.specs.Answers.{FitsSettled, MetTooMany};
ghost use Rattle.lrc_explore.specs.Met.{ComputesTooLong};
ghost use Rattle.lrc_consistency_laws.specs.Racing.{HasNoRace};
ghost use Rattle.lrc_explore_ends.specs.Answers.{AreEndFindings};
ghost use Rattle.lrc_explore_text.specs.Met.{IsTold, TellsMet};
ghost use Rattle.lrc_explore_text.specs.Ends.{SaysEnds, TellsEnds, ends_status, first_line};
ghost use Rattle.lrc_explore_text.specs.Sections.{section_text};
ghost use Rattle.lrc_orders_ends.specs.Ends.{CannotEnd, EveryOrderCanEnd, TellsEnd};

use crate::explored::{Printout, Told};
use crate::met::met_told;
use crate::orders::{Section, acts_of, acts_told, ends_told, found_told, line_alone, race_told};
use lrc_explain_waits::Wording;
use lrc_explore_ends::answers::{EndFindings, EndVerdict, explore_ends};
use lrc_orders::search::ExploreFault;
use lrc_program::Program;
use std::alloc::{AllocError, Global};

/// Searches every order in which `nodes` nodes can run a program, and returns what is printed: whether an order races, if
/// `races` is true, and if none does, whether one gets stuck, whether a node traps in one, and whether every order can
/// end; or what a search met that was cut short. The lines of nodes have the labels of words and locks. Fails as
/// `explored` does.
pub fn explored_ends(
    alloc: Global,
    wording: &Wording<'_, '_>,
    program: &Program,
    lines: &[u32],
    nodes: u32,
    most: usize,
    races: bool,
) -> Result<Told, ExploreFault>
    requires { AreNodes nodes }
    ensures ok { IfOk result (IsTold
        (TellsEnds (wording_of wording.now) program.now nodes lines.now races)
        (TellsMet (wording_of wording.now) program.now nodes lines.now most races)) }
    ensures fits { IfOk result (IsTold (λ _ status. status ≢ 3
        → FitsSettled program.now nodes most) (λ _. Unit)) }
    ensures nodes { IfErr result (λ fault. fault ≢ ExploreFault.BadNodes) }
    ensures too_many { IfErr result (λ fault. fault ≡ ExploreFault.TooMany
        → MetTooMany program.now nodes most false races) }
    ensures too_long { IfErr result (λ fault. fault ≡ ExploreFault.TooMany
        → ComputesTooLong program.now nodes most) }
{
    match explore_ends(alloc, program, nodes, most, races)? {
        EndVerdict::Through(found) => {
            let count = nodes as u8;
            let printout = through_told(alloc, wording, program, lines, count, races, &found)?;
            Ok(Told::All(printout))
        }
        EndVerdict::Racy { order } => {
            let printout = race_told(alloc, wording, program, lines, nodes as u8, &order)?;
            Ok(Told::All(printout))
        }
        EndVerdict::Many(met) => {
            let parts = met_told(alloc, wording, program, lines, nodes as u8, &met)?;
            Ok(Told::Many(parts))
        }
    }
}

// What was found besides races.
fn through_told(
    alloc: Global,
    wording: &Wording<'_, '_>,
    program: &Program,
    lines: &[u32],
    nodes: u8,
    races: bool,
    found: &EndFindings,
) -> Result<Printout, AllocError>
    requires nodes { AreNodes nodes }
    requires free { races ≡ true → HasNoRace program.now nodes }
    requires found { AreEndFindings program.now nodes found.now }
    ensures { IfOk result (λ printout.
        TellsEnds (wording_of wording.now) program.now nodes lines.now races
        (whole_text printout.parts.items) printout.status) }
{
    let head = first_line(races);
    let besides = found_told(alloc, head, wording, program, lines, nodes, &found.besides)?;
    let ends = end_section(alloc, wording, program, lines, nodes, &found.lost)?;
    joined(besides, ends)
}

// The first line, where races are looked for and none is found.
fn first_line(races: bool) -> &'static [u8]
    ensures { result.now ≡ first_line races }
{
    if races {
        b"race free in every order\n"
    } else {
        b""
    }
}

// A text with a section behind it.
fn joined(before: Printout, section: Section) -> Result<Printout, AllocError>
    ensures text { IfOk result (λ printout. whole_text printout.parts.items
        ≡ whole_text before.parts.items ++ section_text section) }
    ensures status { IfOk result (λ printout. printout.status
        ≡ ends_status before.status section.told) }
{
    let status = if section.told { 4 } else { before.status };
    let mut parts = before.parts;
    parts.push(section.head)?;
    parts.push(section.acts)?;
    parts.push(section.ends)?;
    Ok(Printout { parts, status })
}

// What is said of ends.
fn end_section(
    alloc: Global,
    wording: &Wording<'_, '_>,
    program: &Program,
    lines: &[u32],
    nodes: u8,
    lost: &Option<Vec<usize>>,
) -> Result<Section, AllocError>
    requires nodes { AreNodes nodes }
    requires lost { TellsEnd program.now nodes (option_map (λ order. order.items) lost.now) }
    ensures { IfOk result (λ section. SaysEnds (wording_of wording.now) program.now nodes
        lines.now section.told (section_text section)) }
{
    match lost {
        None => all_end(alloc, wording, program, lines, nodes),
        Some(order) => lost_told(alloc, wording, program, lines, nodes, order),
    }
}

// That every order can end.
fn all_end(
    alloc: Global,
    wording: &Wording<'_, '_>,
    program: &Program,
    lines: &[u32],
    nodes: u8,
) -> Result<Section, AllocError>
    requires { EveryOrderCanEnd program.now nodes }
    ensures { IfOk result (λ section. SaysEnds (wording_of wording.now) program.now nodes
        lines.now section.told (section_text section)) }
{
    // For the proof: the lines are in range, and the wording is that of the others.
    let _lines = lines;
    let _wording = wording;
    let section = line_alone(alloc, b"every order can end\n")?;
    Ok(section)
}

// An order that can no longer end, and where it leaves the nodes.
fn lost_told(
    alloc: Global,
    wording: &Wording<'_, '_>,
    program: &Program,
    lines: &[u32],
    nodes: u8,
    order: &[usize],
) -> Result<Section, AllocError>
    requires nodes { AreNodes nodes }
    requires lost { CannotEnd program.now nodes order.now }
    ensures { IfOk result (λ section. SaysEnds (wording_of wording.now) program.now nodes
        lines.now section.told (section_text section)) }
{
    let made = acts_of(alloc, program, nodes, order)?;
    let head = Vec::from_slice(alloc, b"some order can no longer end:\n")?;
    let acts = acts_told(alloc, program, lines, nodes, &made)?;
    let ends = ends_told(alloc, wording, program, lines, nodes, &made)?;
    Ok(Section {
        told: true,
        head,
        acts,
        ends,
    })
}
