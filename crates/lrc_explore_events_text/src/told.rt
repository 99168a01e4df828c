// Events along the order that a search tells, of those of its lines.

ghost use Rattle.std.specs.Prelude.{◌≡◌, ◌≢◌, IfErr, IfOk, None, option_map, is_some, ℕ, Bool, false, true};
ghost use Rattle.lrc_exec.specs.Nodes.{AreNodes};
ghost use Rattle.lrc_explore.specs.Answers.{IsAnswer, MetTooMany};
ghost use Rattle.lrc_explore.specs.Met.{ComputesTooLong, GaveUp};
ghost use Rattle.lrc_explore_text.specs.Ends.{ends_status};
ghost use Rattle.lrc_explore_text.specs.Orders.{findings_status};
ghost use Rattle.lrc_orders.specs.Verdict.{AreFindings, EndsInRace, FindsNoRace};
ghost use Rattle.lrc_explore_events_text.specs.Met.{IsShowing, ShowsMet};
ghost use Rattle.lrc_explore_events_text.specs.Shows.{ShowsCauses, ShowsFound, ShowsLine, ShowsOrder, ShowsRace, TellsEndIf, chosen};

use crate::showing::{events_shown, order_shown};
use lrc_explore_causes::told::race_told;
use lrc_explore_ends::answers::{EndVerdict, explore_ends};
use lrc_explore_less::answers::{Explored, Searched, explore, findings};
use lrc_explore_text::orders::acts_of;
use lrc_orders::search::{ExploreFault, Findings, Verdict};
use lrc_program::Program;
use std::alloc::{AllocError, Global};

/// Of which line the order is asked for, of the lines that a search prints.
#[derive(Clone, Copy)]
pub enum Line {
    /// Of the first line that has an order.
    First,
    /// Of the line on orders that get stuck.
    Stuck,
    /// Of the line on orders in which a node traps.
    Trap,
    /// Of the line on orders that can no longer end.
    End,
}

/// Printed events, and the exit status of the program after them.
#[derive(Drop)]
pub struct Shown {
    pub text: Vec<u8>,
    /// 0, or 3 after a race, or 4 if some order gets stuck, a node traps in one, or one can no longer end.
    pub status: u8,
}

/// What is shown of a search.
#[derive(Drop)]
pub enum Showing {
    /// Events along the order that is asked for, and the status after them.
    All(Shown),
    /// Events along such an order of those that a search met that was cut short. Behind them a fault is to be told.
    Many(Vec<u8>),
}

/// Searches every order in which `nodes` nodes can run a program, and returns the events along the order that the
/// search tells on a line, which are none if it tells none. If `races` is true, it looks for a race first, which is the
/// first line then; if `ends` is true, the last line is that of orders that can no longer end. There must be 1 to 16
/// nodes. If there are more than `most` states to tell apart, it returns the events along an order that was met. Gives up
/// with `TooMany` only if a thread makes 1,000,000 + 20 * `most` free acts one after another. Fails if memory runs out.
pub fn line_shown(
    alloc: Global,
    program: &Program,
    nodes: u32,
    most: usize,
    races: bool,
    ends: bool,
    line: Line,
) -> Result<Showing, ExploreFault>
    requires { AreNodes nodes }
    ensures shows { IfOk result (IsShowing (ShowsLine program.now nodes races ends line)
        (ShowsMet program.now nodes most races line)) }
    ensures nodes { IfErr result (λ fault. fault ≢ ExploreFault.BadNodes) }
    ensures too_many { IfErr result (λ fault. fault ≡ ExploreFault.TooMany
        → MetTooMany program.now nodes most false races) }
    ensures too_long { IfErr result (λ fault. fault ≡ ExploreFault.TooMany
        → ComputesTooLong program.now nodes most) }
{
    if ends {
        return ends_shown(alloc, program, nodes, most, races, line);
    }
    if races {
        return verdict_shown(alloc, program, nodes, most, line);
    }
    match findings(alloc, program, nodes, most)? {
        Searched::All(found) => {
            let shown = found_shown(alloc, program, nodes as u8, &found, &None, line)?;
            Ok(Showing::All(shown))
        }
        Searched::Many(met) => {
            let text = met_shown(alloc, program, nodes as u8, &met, line)?;
            Ok(Showing::Many(text))
        }
    }
}

// The same, where ends are asked for.
fn ends_shown(
    alloc: Global,
    program: &Program,
    nodes: u32,
    most: usize,
    races: bool,
    line: Line,
) -> Result<Showing, ExploreFault>
    requires { AreNodes nodes }
    ensures shows { IfOk result (IsShowing (ShowsLine program.now nodes races true line)
        (ShowsMet program.now nodes most races line)) }
    ensures nodes { IfErr result (λ fault. fault ≢ ExploreFault.BadNodes) }
    ensures too_many { IfErr result (λ fault. fault ≡ ExploreFault.TooMany
        → MetTooMany program.now nodes most false races) }
    ensures too_long { IfErr result (λ fault. fault ≡ ExploreFault.TooMany
        → ComputesTooLong program.now nodes most) }
{
    match explore_ends(alloc, program, nodes, most, races)? {
        EndVerdict::Through(found) => {
            let count = nodes as u8;
            let shown = found_shown(alloc, program, count, &found.besides, &found.lost, line)?;
            Ok(Showing::All(shown))
        }
        EndVerdict::Racy { order } => {
            let shown = race_shown(alloc, program, nodes as u8, &order, line)?;
            Ok(Showing::All(shown))
        }
        EndVerdict::Many(met) => {
            let text = met_shown(alloc, program, nodes as u8, &met, line)?;
            Ok(Showing::Many(text))
        }
    }
}

// The same, where races are looked for and ends are not asked for.
fn verdict_shown(
    alloc: Global,
    program: &Program,
    nodes: u32,
    most: usize,
    line: Line,
) -> Result<Showing, ExploreFault>
    requires { AreNodes nodes }
    ensures shows { IfOk result (IsShowing (ShowsLine program.now nodes true false line)
        (ShowsMet program.now nodes most true line)) }
    ensures nodes { IfErr result (λ fault. fault ≢ ExploreFault.BadNodes) }
    ensures too_many { IfErr result (λ fault. fault ≡ ExploreFault.TooMany
        → MetTooMany program.now nodes most false true) }
    ensures too_long { IfErr result (λ fault. fault ≡ ExploreFault.TooMany
        → ComputesTooLong program.now nodes most) }
{
    match explore(alloc, program, nodes, most)? {
        Explored::Told(verdict) => {
            let shown = of_verdict(alloc, program, nodes as u8, &verdict, line)?;
            Ok(Showing::All(shown))
        }
        Explored::Many(met) => {
            let text = met_shown(alloc, program, nodes as u8, &met, line)?;
            Ok(Showing::Many(text))
        }
    }
}

fn of_verdict(
    alloc: Global,
    program: &Program,
    nodes: u8,
    verdict: &Verdict,
    line: Line,
) -> Result<Shown, AllocError>
    requires nodes { AreNodes nodes }
    requires verdict { IsAnswer program.now nodes verdict.now }
    ensures shows { IfOk result (λ shown.
        ShowsLine program.now nodes true false line shown.text.items shown.status) }
    ensures free { IfOk result (λ shown. shown.status ≢ 3 → FindsNoRace verdict.now) }
{
    match verdict {
        Verdict::RaceFree(found) => found_shown(alloc, program, nodes, found, &None, line),
        Verdict::Racy { order } => race_shown(alloc, program, nodes, order, line),
    }
}

// Events along an order that was found besides races.
fn found_shown(
    alloc: Global,
    program: &Program,
    nodes: u8,
    found: &Findings,
    end: &Option<Vec<usize>>,
    line: Line,
) -> Result<Shown, AllocError>
    requires nodes { AreNodes nodes }
    requires found { AreFindings program.now nodes found.now }
    requires end { (ends : Bool) × TellsEndIf program.now nodes ends
        (option_map (λ order. order.items) end.now) }
    ensures { (ends : Bool) → TellsEndIf program.now nodes ends
        (option_map (λ order. order.items) end.now)
        → IfOk result (λ shown. ShowsFound program.now nodes ends line shown.text.items
        shown.status) }
{
    let order = chosen(line, &found.stuck, &found.trap, end);
    let text = order_shown(alloc, program, nodes, order)?;
    let status = status_of(&found.stuck, &found.trap, end);
    Ok(Shown { text, status })
}

// Events along an order of those that a search met that was cut short.
fn met_shown(
    alloc: Global,
    program: &Program,
    nodes: u8,
    met: &Findings,
    line: Line,
) -> Result<Vec<u8>, AllocError>
    requires nodes { AreNodes nodes }
    requires gave { (most : ℕ) × (races : Bool) × GaveUp program.now nodes most races met.now }
    ensures { IfOk result (λ text. ShowsOrder program.now nodes
        (chosen line (option_map (λ order. order.items) met.now.stuck)
        (option_map (λ order. order.items) met.now.trap) None) text.items) }
{
    let order = chosen(line, &met.stuck, &met.trap, &None);
    order_shown(alloc, program, nodes, order)
}

// Events along what a race comes of, if no other line is asked for.
fn race_shown(
    alloc: Global,
    program: &Program,
    nodes: u8,
    order: &[usize],
    line: Line,
) -> Result<Shown, AllocError>
    requires nodes { AreNodes nodes }
    requires ends { EndsInRace program.now nodes order.now }
    ensures shows { IfOk result (λ shown.
        ShowsRace program.now nodes line shown.text.items) }
    ensures status { IfOk result (λ shown. shown.status ≡ 3) }
{
    let text = match line {
        Line::First => causes_shown(alloc, program, nodes, order)?,
        _ => Vec::new(alloc),
    };
    Ok(Shown { text, status: 3 })
}

// Events along what the earliest race of an order comes of.
fn causes_shown(
    alloc: Global,
    program: &Program,
    nodes: u8,
    order: &[usize],
) -> Result<Vec<u8>, AllocError>
    requires nodes { AreNodes nodes }
    requires ends { EndsInRace program.now nodes order.now }
    ensures { IfOk result (λ text. ShowsCauses program.now nodes text.items) }
{
    let run = acts_of(alloc, program, nodes, order)?;
    let told = race_told(alloc, program, nodes, &run)?;
    events_shown(alloc, program, nodes, &told)
}

// The order of the line that is asked for.
fn chosen<'o>(
    line: Line,
    stuck: &'o Option<Vec<usize>>,
    trap: &'o Option<Vec<usize>>,
    end: &'o Option<Vec<usize>>,
) -> Option<&'o [usize]>
    ensures { option_map (λ order. order.now) result
        ≡ chosen line (option_map (λ order. order.items) stuck.now)
        (option_map (λ order. order.items) trap.now) (option_map (λ order. order.items) end.now) }
{
    match line {
        Line::First if stuck.is_some() => order_in(stuck),
        Line::First if trap.is_some() => order_in(trap),
        Line::First | Line::End => order_in(end),
        Line::Stuck => order_in(stuck),
        Line::Trap => order_in(trap),
    }
}

// The order, if there is one.
fn order_in(order: &Option<Vec<usize>>) -> Option<&[usize]>
    ensures { option_map (λ order. order.now) result ≡ option_map (λ order. order.items) order.now }
{
    match order {
        Some(order) => Some(order.as_slice()),
        None => None,
    }
}

// The status where these orders are told, those that are there.
fn status_of(stuck: &Option<Vec<usize>>, trap: &Option<Vec<usize>>, end: &Option<Vec<usize>>) -> u8
    ensures { result ≡ ends_status (findings_status (is_some stuck.now) (is_some trap.now))
        (is_some end.now) }
{
    if stuck.is_some() || trap.is_some() || end.is_some() {
        4
    } else {
        0
    }
}
