// Whether an order races or gets stuck, and whether a node traps in one, as it is printed.

ghost use Rattle.std.specs.Prelude.{◌≡◌, ◌≢◌, ◌<◌, ◌-◌, ◌++◌, ℕ, List, IfErr, IfOk, IsSome, Some, All, false, true, length, map, option_map};
ghost use Rattle.lrc_judge.specs.declared.TheConstants.{NODES};
ghost use Rattle.lrc_explain_waits.specs.Traps.{wording_of};
ghost use Rattle.lrc_text.specs.Parts.{whole_text};
ghost use Rattle.lrc_exec.specs.Plain.{plain};
ghost use Rattle.lrc_exec.specs.Nodes.{AreNodes};
ghost use Rattle.lrc_explore.specs.Answers.{IsAnswer, MetTooMany};
ghost use Rattle.lrc_explore.specs.Met.{ComputesTooLong};
ghost use Rattle.lrc_orders.specs.Stuck.{GetsStuck};
ghost use Rattle.lrc_orders.specs.Traps.{NeverTraps, NodeTraps};
ghost use Rattle.lrc_orders.specs.Verdict.{AreFindings, EndsInRace, FindsNoRace, NeverStuck, TellsStuck, TellsTrap};
ghost use Rattle.lrc_explore_causes.specs.Told.{TellsRace};
ghost use Rattle.lrc_trace.specs.declared.act.Act.{Act as ActType};
ghost use Rattle.lrc_explore_text.specs.Met.{IsTold, TellsMet};
ghost use Rattle.lrc_explore_text.specs.Orders.{SaysStuck, SaysTrap, TellsFindings, TellsOrders, ends_text, findings_status, order_text};
ghost use Rattle.lrc_explore_text.specs.Sections.{TellsBehind, section_text};

use crate::explored::{Printout, Told};
use crate::last_races::races_at;
use crate::met::met_told;
use crate::trapped::trapped_part;
use lrc_acts_text::acts_part;
use lrc_exec::code::Code;
use lrc_exec::plain::plain_run;
use lrc_explain_waits::{Wording, stuck_part};
use lrc_explore_less::answers::{Explored, Searched, explore, findings};
use lrc_lines::walks::lines_of_acts;
use lrc_orders::search::{ExploreFault, Findings, Verdict};
use lrc_program::Program;
use lrc_text::{first_race_part, races_part};
use lrc_trace::act::Act;
use std::alloc::{AllocError, Global};

/// Returns what is printed of the verdict on a program, and of the order that it names, or of what a search
/// met that was cut short. The lines of stuck nodes have the labels of words and locks.
pub(crate) fn orders_told(
    alloc: Global,
    wording: &Wording<'_, '_>,
    program: &Program,
    lines: &[u32],
    nodes: u32,
    most: usize,
) -> Result<Told, ExploreFault>
    requires { AreNodes nodes }
    ensures ok { IfOk result (IsTold
        (TellsOrders (wording_of wording.now) program.now nodes lines.now)
        (TellsMet (wording_of wording.now) program.now nodes lines.now most true)) }
    ensures nodes { IfErr result (λ fault. fault ≢ ExploreFault.BadNodes) }
    ensures too_many { IfErr result (λ fault. fault ≡ ExploreFault.TooMany
        → MetTooMany program.now nodes most false true) }
    ensures too_long { IfErr result (λ fault. fault ≡ ExploreFault.TooMany
        → ComputesTooLong program.now nodes most) }
{
    match explore(alloc, program, nodes, most)? {
        Explored::Told(verdict) => {
            let printout = verdict_told(alloc, wording, program, lines, nodes as u8, &verdict)?;
            Ok(Told::All(printout))
        }
        Explored::Many(met) => {
            let parts = met_told(alloc, wording, program, lines, nodes as u8, &met)?;
            Ok(Told::Many(parts))
        }
    }
}

/// Returns what is printed of stuck orders and of traps of a program, whether or not an order races, or of what a
/// search met that was cut short. The lines of nodes have the labels of words and locks. Fails as `explored` does.
pub fn findings_told(
    alloc: Global,
    wording: &Wording<'_, '_>,
    program: &Program,
    lines: &[u32],
    nodes: u32,
    most: usize,
) -> Result<Told, ExploreFault>
    requires { AreNodes nodes }
    ensures ok { IfOk result (IsTold
        (TellsFindings (wording_of wording.now) program.now nodes lines.now)
        (TellsMet (wording_of wording.now) program.now nodes lines.now most false)) }
    ensures nodes { IfErr result (λ fault. fault ≢ ExploreFault.BadNodes) }
    ensures too_many { IfErr result (λ fault. fault ≡ ExploreFault.TooMany
        → MetTooMany program.now nodes most false false) }
    ensures too_long { IfErr result (λ fault. fault ≡ ExploreFault.TooMany
        → ComputesTooLong program.now nodes most) }
{
    match findings(alloc, program, nodes, most)? {
        Searched::All(found) => {
            let printout = found_told(alloc, b"", wording, program, lines, nodes as u8, &found)?;
            Ok(Told::All(printout))
        }
        Searched::Many(met) => {
            let parts = met_told(alloc, wording, program, lines, nodes as u8, &met)?;
            Ok(Told::Many(parts))
        }
    }
}

fn verdict_told(
    alloc: Global,
    wording: &Wording<'_, '_>,
    program: &Program,
    lines: &[u32],
    nodes: u8,
    verdict: &Verdict,
) -> Result<Printout, AllocError>
    requires nodes { AreNodes nodes }
    requires verdict { IsAnswer program.now nodes verdict.now }
    ensures ok { IfOk result (λ printout.
        TellsOrders (wording_of wording.now) program.now nodes lines.now
        (whole_text printout.parts.items) printout.status) }
    ensures free { IfOk result (λ printout. printout.status ≢ 3 → FindsNoRace verdict.now) }
{
    match verdict {
        Verdict::RaceFree(found) => {
            let head = b"race free in every order\n";
            found_told(alloc, head, wording, program, lines, nodes, found)
        }
        Verdict::Racy { order } => race_told(alloc, wording, program, lines, nodes, order),
    }
}

// What is said of stuck orders, of traps or of ends: a line, and where an order is told its acts, and the nodes after
// them.
#[derive(Drop)]
pub(crate) struct Section {
    pub(crate) told: bool,
    pub(crate) head: Vec<u8>,
    pub(crate) acts: Vec<u8>,
    pub(crate) ends: Vec<u8>,
}

// What was found besides races, behind a first line.
pub(crate) fn found_told(
    alloc: Global,
    head: &[u8],
    wording: &Wording<'_, '_>,
    program: &Program,
    lines: &[u32],
    nodes: u8,
    found: &Findings,
) -> Result<Printout, AllocError>
    requires nodes { AreNodes nodes }
    requires found { AreFindings program.now nodes found.now }
    ensures { IfOk result (λ printout.
        TellsBehind (wording_of wording.now) program.now nodes lines.now head.now
        (whole_text printout.parts.items) printout.status) }
{
    let stuck = stuck_section(alloc, wording, program, lines, nodes, &found.stuck)?;
    let traps = trap_section(alloc, wording, program, lines, nodes, &found.trap)?;
    let status = findings_status(stuck.told, traps.told);
    let parts = parts_of(alloc, head, stuck, traps)?;
    Ok(Printout { parts, status })
}

// The status where an order that gets stuck is told or not, and one in which a node traps.
fn findings_status(stuck: bool, traps: bool) -> u8
    ensures { result ≡ findings_status stuck traps }
{
    if stuck || traps { 4 } else { 0 }
}

// The parts of a text of a first line and two sections.
pub(crate) fn parts_of(
    alloc: Global,
    head: &[u8],
    first: Section,
    second: Section,
) -> Result<Vec<Vec<u8>>, AllocError>
    ensures { IfOk result (λ parts. whole_text parts.items
        ≡ head.now ++ (section_text first ++ section_text second)) }
{
    let mut parts = Vec::new(alloc);
    parts.push(Vec::from_slice(alloc, head)?)?;
    parts.push(first.head)?;
    parts.push(first.acts)?;
    parts.push(first.ends)?;
    parts.push(second.head)?;
    parts.push(second.acts)?;
    parts.push(second.ends)?;
    Ok(parts)
}

// A section of a line alone.
pub(crate) fn line_alone(alloc: Global, line: &[u8]) -> Result<Section, AllocError>
    ensures told { IfOk result (λ section. section.told ≡ false) }
    ensures text { IfOk result (λ section. section_text section ≡ line.now) }
{
    Ok(Section {
        told: false,
        head: Vec::from_slice(alloc, line)?,
        acts: Vec::new(alloc),
        ends: Vec::new(alloc),
    })
}

// What is said of stuck orders.
fn stuck_section(
    alloc: Global,
    wording: &Wording<'_, '_>,
    program: &Program,
    lines: &[u32],
    nodes: u8,
    stuck: &Option<Vec<usize>>,
) -> Result<Section, AllocError>
    requires nodes { AreNodes nodes }
    requires stuck { TellsStuck program.now nodes
        (option_map (λ order. order.items) stuck.now) }
    ensures { IfOk result (λ section. SaysStuck (wording_of wording.now) program.now nodes
        lines.now section.told (section_text section)) }
{
    match stuck {
        None => none_stuck(alloc, wording, program, lines, nodes),
        Some(order) => stuck_told(alloc, wording, program, lines, nodes, order),
    }
}

// That no order gets stuck.
fn none_stuck(
    alloc: Global,
    wording: &Wording<'_, '_>,
    program: &Program,
    lines: &[u32],
    nodes: u8,
) -> Result<Section, AllocError>
    requires { NeverStuck program.now nodes }
    ensures { IfOk result (λ section. SaysStuck (wording_of wording.now) program.now nodes
        lines.now section.told (section_text section)) }
{
    // For the proof: the lines are in range, and the wording is that of the others.
    let _lines = lines;
    let _wording = wording;
    let section = line_alone(alloc, b"no order gets stuck\n")?;
    Ok(section)
}

// An order that gets stuck, and where it leaves the nodes.
pub(crate) fn stuck_told(
    alloc: Global,
    wording: &Wording<'_, '_>,
    program: &Program,
    lines: &[u32],
    nodes: u8,
    order: &[usize],
) -> Result<Section, AllocError>
    requires nodes { AreNodes nodes }
    requires stuck { GetsStuck program.now nodes order.now }
    ensures { IfOk result (λ section. SaysStuck (wording_of wording.now) program.now nodes
        lines.now section.told (section_text section)) }
{
    let made = acts_of(alloc, program, nodes, order)?;
    let head = Vec::from_slice(alloc, b"some order gets stuck:\n")?;
    let acts = acts_told(alloc, program, lines, nodes, &made)?;
    let ends = ends_told(alloc, wording, program, lines, nodes, &made)?;
    Ok(Section {
        told: true,
        head,
        acts,
        ends,
    })
}

// What is said of traps.
fn trap_section(
    alloc: Global,
    wording: &Wording<'_, '_>,
    program: &Program,
    lines: &[u32],
    nodes: u8,
    trap: &Option<Vec<usize>>,
) -> Result<Section, AllocError>
    requires nodes { AreNodes nodes }
    requires trap { TellsTrap program.now nodes (option_map (λ order. order.items) trap.now) }
    ensures { IfOk result (λ section. SaysTrap (wording_of wording.now) program.now nodes
        lines.now section.told (section_text section)) }
{
    match trap {
        None => none_traps(alloc, wording, program, lines, nodes),
        Some(order) => trap_told(alloc, wording, program, lines, nodes, order),
    }
}

// That no node traps in any order.
fn none_traps(
    alloc: Global,
    wording: &Wording<'_, '_>,
    program: &Program,
    lines: &[u32],
    nodes: u8,
) -> Result<Section, AllocError>
    requires { NeverTraps program.now nodes }
    ensures { IfOk result (λ section. SaysTrap (wording_of wording.now) program.now nodes
        lines.now section.told (section_text section)) }
{
    // For the proof: the lines are in range, and the wording is that of the others.
    let _lines = lines;
    let _wording = wording;
    let section = line_alone(alloc, b"no node traps\n")?;
    Ok(section)
}

// An order in which a node traps, and the nodes that have trapped after it.
pub(crate) fn trap_told(
    alloc: Global,
    wording: &Wording<'_, '_>,
    program: &Program,
    lines: &[u32],
    nodes: u8,
    order: &[usize],
) -> Result<Section, AllocError>
    requires nodes { AreNodes nodes }
    requires traps { NodeTraps program.now nodes order.now }
    ensures { IfOk result (λ section. SaysTrap (wording_of wording.now) program.now nodes
        lines.now section.told (section_text section)) }
{
    let made = acts_of(alloc, program, nodes, order)?;
    let head = Vec::from_slice(alloc, b"some order traps:\n")?;
    let acts = acts_told(alloc, program, lines, nodes, &made)?;
    let ends = trapped_part(alloc, wording, program, lines, nodes, &made)?;
    Ok(Section {
        told: true,
        head,
        acts,
        ends,
    })
}

// What the earliest race of an order comes of.
pub(crate) fn race_told(
    alloc: Global,
    wording: &Wording<'_, '_>,
    program: &Program,
    lines: &[u32],
    nodes: u8,
    order: &[usize],
) -> Result<Printout, AllocError>
    requires nodes { AreNodes nodes }
    requires ends { EndsInRace program.now nodes order.now }
    ensures ok { IfOk result (λ printout.
        TellsOrders (wording_of wording.now) program.now nodes lines.now
        (whole_text printout.parts.items) printout.status) }
    ensures status { IfOk result (λ printout. printout.status ≡ 3) }
{
    let raced = acts_of(alloc, program, nodes, order)?;
    let acts = lrc_explore_causes::told::race_told(alloc, program, nodes, &raced)?;
    last_race_told(alloc, wording, program, lines, nodes, &acts)
}

// What an earliest race comes of, and its races.
fn last_race_told(
    alloc: Global,
    wording: &Wording<'_, '_>,
    program: &Program,
    lines: &[u32],
    nodes: u8,
    acts: &[Act],
) -> Result<Printout, AllocError>
    requires in_range { All (λ act. act.node < NODES) acts.now }
    requires tells { (order : List ℕ) × (run : List ActType)
        × (plain program.now nodes order ≡ Some run) × TellsRace program.now nodes run acts.now }
    ensures ok { IfOk result (λ printout.
        TellsOrders (wording_of wording.now) program.now nodes lines.now
        (whole_text printout.parts.items) printout.status) }
    ensures status { IfOk result (λ printout. printout.status ≡ 3) }
{
    let last = last_of(acts);
    let races = races_at(alloc, acts, last)?;
    let told = acts_told(alloc, program, lines, nodes, acts)?;
    let named = races_part(alloc, &races)?;
    let first = first_race_part(alloc, Some(last))?;
    let parts = three_parts(alloc, told, named, first)?;
    Ok(Printout { parts, status: 3 })
}

// The position of the last act.
fn last_of(acts: &[Act]) -> usize
    ensures { result ≡ length acts.now - 1 }
{
    acts.len().saturating_sub(1)
}

// A text of three parts.
fn three_parts(
    alloc: Global,
    first: Vec<u8>,
    second: Vec<u8>,
    third: Vec<u8>,
) -> Result<Vec<Vec<u8>>, AllocError>
    ensures { IfOk result (λ parts. whole_text parts.items
        ≡ first.items ++ second.items ++ third.items) }
{
    let mut parts = Vec::new(alloc);
    parts.push(first)?;
    parts.push(second)?;
    parts.push(third)?;
    Ok(parts)
}

/// Returns the acts that the plain machine makes in an order. There must be 1 to 16 nodes. Fails if memory runs out.
pub fn acts_of(
    alloc: Global,
    program: &Program,
    nodes: u8,
    order: &[usize],
) -> Result<Vec<Act>, AllocError>
    requires nodes { AreNodes nodes }
    requires led { IsSome (plain program.now nodes order.now) }
    ensures acts { IfOk result (λ acts. plain program.now nodes order.now ≡ Some acts.items) }
    ensures in_range { IfOk result (λ acts. All (λ act. act.node < NODES) acts.items) }
{
    match plain_run(alloc, program, nodes, order)? {
        Some(acts) => Ok(acts),
        None => unreachable!(),
    }
}

// Where acts leave the nodes that are unfinished.
pub(crate) fn ends_told(
    alloc: Global,
    wording: &Wording<'_, '_>,
    program: &Program,
    lines: &[u32],
    nodes: u8,
    acts: &[Act],
) -> Result<Vec<u8>, AllocError>
    ensures { IfOk result (λ text. text.items
        ≡ ends_text (wording_of wording.now) program.now nodes lines.now acts.now) }
{
    let code = Code::new(alloc, program)?;
    stuck_part(alloc, wording, &code, lines, nodes, None, acts)
}

/// Returns a line for each act of an order.
pub fn acts_told(
    alloc: Global,
    program: &Program,
    lines: &[u32],
    nodes: u8,
    acts: &[Act],
) -> Result<Vec<u8>, AllocError>
    ensures { IfOk result (λ text. text.items ≡ order_text program.now nodes lines.now acts.now) }
{
    let code = Code::new(alloc, program)?;
    let found = lines_of_acts(alloc, &code, lines, nodes, acts)?;
    acts_part(alloc, acts, &found)
}
