// What a search through fewer states answers of a program.

ghost use Rattle.std.specs.Prelude.{◌≡◌, ◌↔◌, List, IfErr, IfOk, Err, false, true};
ghost use Rattle.lrc_trace.specs.declared.act.Act.{Act as ActType};
ghost use Rattle.lrc_exec.specs.Nodes.{AreNodes};
ghost use Rattle.lrc_exec.specs.Follows.{nodes_of_acts};
ghost use Rattle.lrc_orders.specs.Outcome.{HasOutcome, IsOutcome};
ghost use Rattle.lrc_explore.specs.Answers.{IsFault, IsFaultOf, MetTooMany};
ghost use Rattle.lrc_explore.specs.Reached.{IsTask};
ghost use Rattle.lrc_explore.specs.Traps.{LeadIntoTrap, StartTraps};
ghost use Rattle.lrc_explore.specs.Met.{ComputesTooLong, tells_both};
ghost use Rattle.lrc_explore_less.specs.Met.{IsExplored, IsSearched, searched_of};

use crate::ended::all_ended;
use crate::less::Less;
use crate::soon::tells_soon;
use indexmap::IndexSet;
use lrc_exec::code::Code;
use lrc_explore::answers::{
    count_of, explore as explore_all, findings as findings_of_all, task_of,
};
use lrc_explore::found::{settled_start, taken};
use lrc_explore::task::{End, Origin, Sought, Task, Trapping};
use lrc_orders::outcomes::Outcome;
use lrc_orders::search::{ExploreFault, Findings, Verdict};
use lrc_program::Program;
use lrc_trace::act::Act;
use std::alloc::{AllocError, Global};

/// What a search for races answers.
#[derive(Drop)]
pub enum Explored {
    /// The verdict on the program.
    Told(Verdict),
    /// There are more states to tell apart than may be, or from one that was met a thread makes too many free acts; and
    /// no two nodes meet at those that were met. These are the findings at them: an order that gets stuck exactly if
    /// the program is stuck at one of them, and an order in which a node traps if one traps on the way to them.
    Many(Findings),
}

/// What a search that looks for no races answers.
#[derive(Drop)]
pub enum Searched {
    /// The findings of all orders.
    All(Findings),
    /// There are more states to tell apart than may be, or from one that was met a thread makes too many free acts.
    /// These are the findings at those that were met, as in `Explored`.
    Many(Findings),
}

/// Searches the settled states of a program on this many nodes, and makes undisputed acts at once. It tells whether an
/// order races, and if none does, whether one gets stuck and whether a node traps in one. If there is something to
/// tell, the order told is that of the search that makes no undisputed acts, unless that one gives up with `TooMany`.
/// It fails with `BadNodes` exactly if the number of nodes is not 1 to 16. If there are more states to tell apart than
/// `most`, at none of which two nodes meet, it tells what it met at them, by any order that shows it; so too if from a
/// state that was met a thread makes 1,000,000 + 20 * `most` free acts one after another. It gives up with `TooMany`
/// only if a thread makes so many. It fails if memory runs out.
pub fn explore(
    alloc: Global,
    program: &Program,
    nodes: u32,
    most: usize,
) -> Result<Explored, ExploreFault>
    ensures answer { IfOk result (IsExplored program.now nodes most) }
    ensures bad_nodes { (result ≡ Err ExploreFault.BadNodes) ↔ (¬ AreNodes nodes) }
    ensures too_many { IfErr result (λ fault. fault ≡ ExploreFault.TooMany
        → MetTooMany program.now nodes most false true) }
    ensures too_long { IfErr result (λ fault. fault ≡ ExploreFault.TooMany
        → ComputesTooLong program.now nodes most) }
{
    let count = count_of(nodes)?;
    let code = Code::new(alloc, program)?;
    let soon = is_told_soon(alloc, &code, count, most, true)?;
    if soon {
        match explore_all(alloc, program, nodes, most) {
            Ok(told) => return Ok(Explored::Told(told)),
            Err(ExploreFault::TooMany) => {}
            Err(ExploreFault::BadNodes) => return Err(ExploreFault::BadNodes),
            Err(ExploreFault::NoMemory) => return Err(ExploreFault::NoMemory),
        }
    }
    let explored = explore_code(alloc, &code, count, most)?;
    if soon || is_last(&explored) {
        return Ok(explored);
    }
    match explore_all(alloc, program, nodes, most) {
        Ok(told) => Ok(Explored::Told(told)),
        Err(ExploreFault::TooMany) => Ok(explored),
        Err(ExploreFault::BadNodes) => Err(ExploreFault::BadNodes),
        Err(ExploreFault::NoMemory) => Err(ExploreFault::NoMemory),
    }
}

// Whether there is something to tell of a short run of a program's flat code, so that the search for what is told comes
// first.
fn is_told_soon(
    alloc: Global,
    code: &Code<'_>,
    nodes: u8,
    most: usize,
    races: bool,
) -> Result<bool, AllocError> {
    let task = task_of(alloc, code, nodes, most, false)?;
    tells_soon(alloc, &task, races)
}

// The same of a program's flat code, with an order of the search that makes undisputed acts.
fn explore_code(
    alloc: Global,
    code: &Code<'_>,
    nodes: u8,
    most: usize,
) -> Result<Explored, ExploreFault>
    ensures answer { IfOk result (IsExplored code.now nodes most) }
    ensures faults { IfErr result (IsFaultOf code.now nodes most false true) }
    ensures too_long { IfErr result (λ fault. fault ≡ ExploreFault.TooMany
        → ComputesTooLong code.now nodes most) }
{
    let task = task_of(alloc, code, nodes, most, false)?;
    let mut less = Less::none(alloc, nodes as usize);
    less.answer(alloc, &task)
}

/// Searches as `explore` does, whether or not an order races, and tells whether one gets stuck and whether a node traps
/// in one. Two nodes may meet at its states. If it is cut short as `explore` is, but the program was stuck at one that
/// was met, and a node traps on the way to one, then these are all findings that there are. It fails as `explore` does.
pub fn findings(
    alloc: Global,
    program: &Program,
    nodes: u32,
    most: usize,
) -> Result<Searched, ExploreFault>
    ensures findings { IfOk result (IsSearched program.now nodes most) }
    ensures bad_nodes { (result ≡ Err ExploreFault.BadNodes) ↔ (¬ AreNodes nodes) }
    ensures too_many { IfErr result (λ fault. fault ≡ ExploreFault.TooMany
        → MetTooMany program.now nodes most false false) }
    ensures too_long { IfErr result (λ fault. fault ≡ ExploreFault.TooMany
        → ComputesTooLong program.now nodes most) }
{
    let count = count_of(nodes)?;
    let code = Code::new(alloc, program)?;
    let soon = is_told_soon(alloc, &code, count, most, false)?;
    if soon {
        match findings_of_all(alloc, program, nodes, most) {
            Ok(told) => return Ok(Searched::All(told)),
            Err(ExploreFault::TooMany) => {}
            Err(ExploreFault::BadNodes) => return Err(ExploreFault::BadNodes),
            Err(ExploreFault::NoMemory) => return Err(ExploreFault::NoMemory),
        }
    }
    let searched = findings_of(alloc, &code, count, most)?;
    if soon || are_last(&searched) {
        return Ok(searched);
    }
    match findings_of_all(alloc, program, nodes, most) {
        Ok(told) => Ok(Searched::All(told)),
        Err(ExploreFault::TooMany) => Ok(searched),
        Err(ExploreFault::BadNodes) => Err(ExploreFault::BadNodes),
        Err(ExploreFault::NoMemory) => Err(ExploreFault::NoMemory),
    }
}

// The same of a program's flat code, with orders of the search that makes undisputed acts.
fn findings_of(
    alloc: Global,
    code: &Code<'_>,
    nodes: u8,
    most: usize,
) -> Result<Searched, ExploreFault>
    ensures findings { IfOk result (IsSearched code.now nodes most) }
    ensures faults { IfErr result (IsFaultOf code.now nodes most false false) }
    ensures too_long { IfErr result (λ fault. fault ≡ ExploreFault.TooMany
        → ComputesTooLong code.now nodes most) }
{
    let task = task_of(alloc, code, nodes, most, false)?;
    let mut less = Less::none(alloc, nodes as usize);
    less.all_findings(alloc, &task)
}

/// Returns every outcome of the orders in which this many nodes can run a program, after which no node can make an act.
/// It fails as `findings` does.
pub fn outcomes(
    alloc: Global,
    program: &Program,
    nodes: u32,
    most: usize,
) -> Result<IndexSet<Outcome>, ExploreFault>
    ensures exact { IfOk result (λ found. (notes : List ActType)
        → (HasOutcome found.keys notes ↔ IsOutcome program.now nodes notes)) }
    ensures bad_nodes { (result ≡ Err ExploreFault.BadNodes) ↔ (¬ AreNodes nodes) }
    ensures too_many { IfErr result (λ fault. fault ≡ ExploreFault.TooMany
        → MetTooMany program.now nodes most true false) }
{
    let count = count_of(nodes)?;
    let code = Code::new(alloc, program)?;
    outcomes_of(alloc, &code, count, most)
}

// The same of a program's flat code.
fn outcomes_of(
    alloc: Global,
    code: &Code<'_>,
    nodes: u8,
    most: usize,
) -> Result<IndexSet<Outcome>, ExploreFault>
    ensures exact { IfOk result (λ found. (notes : List ActType)
        → (HasOutcome found.keys notes ↔ IsOutcome code.now nodes notes)) }
    ensures faults { IfErr result (IsFaultOf code.now nodes most true false) }
{
    let task = task_of(alloc, code, nodes, most, true)?;
    let ended = all_ended(alloc, &task)?;
    Ok(ended.outcomes)
}

// Whether no other order is to be told: the verdict names none, or the search was cut short.
fn is_last(explored: &Explored) -> bool {
    match explored {
        Explored::Told(Verdict::RaceFree(found)) => found.stuck.is_none() && found.trap.is_none(),
        Explored::Told(Verdict::Racy { .. }) => false,
        Explored::Many(_) => true,
    }
}

// The same where no races are looked for.
fn are_last(searched: &Searched) -> bool {
    match searched {
        Searched::All(found) => found.stuck.is_none() && found.trap.is_none(),
        Searched::Many(_) => true,
    }
}

// What was met where a search is cut short, as an answer: if both are told, nothing else is to be found.
fn searched_of(met: Findings) -> Searched
    ensures { result ≡ searched_of (tells_both met) met }
{
    if met.stuck.is_some() && met.trap.is_some() {
        Searched::All(met)
    } else {
        Searched::Many(met)
    }
}

// The nodes of acts, in their order.
fn order_of(alloc: Global, acts: &[Act]) -> Result<Vec<usize>, AllocError>
    ensures { IfOk result (λ order. order.items ≡ nodes_of_acts acts.now) }
{
    let mut order = Vec::new(alloc);
    for act in acts {
        order.push(act.node as usize)?;
    }
    Ok(order)
}

// The acts by which the start settles, where a node traps as it does.
fn start_acts(alloc: Global, task: &Task<'_>) -> Result<Vec<Act>, ExploreFault>
    requires task { IsTask task.now }
    requires traps { StartTraps task.now }
    ensures led { IfOk result (λ acts. LeadIntoTrap task.now acts.items) }
    ensures faults { IfErr result (IsFault task.now) }
{
    let mut acts = Vec::new(alloc);
    let _state = settled_start(alloc, task, &mut acts)?;
    Ok(acts)
}

impl Less {
    ghost use Rattle.std.specs.Prelude.{◌≡◌, IfErr, IfOk, false, length, option_map, true};
    ghost use Rattle.lrc_orders.specs.Verdict.{AreFindings, TellsStuck, TellsTrap};
    ghost use Rattle.lrc_explore.specs.declared.task.Trapping.TheVariants.{Step};
    ghost use Rattle.lrc_explore.specs.Answers.{IsAnswer, IsFault};
    ghost use Rattle.lrc_explore.specs.Reached.{IsTask};
    ghost use Rattle.lrc_explore.specs.Traps.{IsTrapping, LeadIntoTrap};
    ghost use Rattle.lrc_explore_less.specs.Passing.{AreLess, IsNone, IsSound};
    ghost use Rattle.lrc_explore_less.specs.Enough.{AreDone, HasBegun, IsEnd, IsStuckOpen, IsThrough};
    ghost use Rattle.lrc_explore_less.specs.Met.{IsTaskExplored, IsTaskSearched};

    // From the settled start on, where there are no states yet: what is answered.
    fn answer(&mut self, alloc: Global, task: &Task<'_>) -> Result<Explored, ExploreFault>
        requires task { IsTask task.now }
        requires none { IsNone task.now self.old }
        ensures answer { IfOk result (IsTaskExplored task.now) }
        ensures faults { IfErr result (IsFault task.now) }
    {
        let sought = self.search(alloc, task, true)?;
        match sought {
            Sought::Ended(end) => {
                let verdict = self.verdict(alloc, task, end)?;
                Ok(Explored::Told(verdict))
            }
            Sought::Many { stuck, trap } => {
                let met = self.found.met_told(alloc, task, true, stuck, trap)?;
                Ok(Explored::Many(met))
            }
        }
    }

    // The same where races are not looked for.
    fn all_findings(&mut self, alloc: Global, task: &Task<'_>) -> Result<Searched, ExploreFault>
        requires task { IsTask task.now }
        requires none { IsNone task.now self.old }
        ensures findings { IfOk result (IsTaskSearched task.now) }
        ensures faults { IfErr result (IsFault task.now) }
    {
        let sought = self.search(alloc, task, false)?;
        match sought {
            Sought::Ended(end) => match end {
                End::Meeting { .. } => unreachable!(),
                End::Through { stuck, trap } => {
                    let found = self.findings_told(alloc, task, stuck, trap)?;
                    Ok(Searched::All(found))
                }
            },
            Sought::Many { stuck, trap } => {
                let met = self.found.met_told(alloc, task, false, stuck, trap)?;
                Ok(searched_of(met))
            }
        }
    }

    // What a search for races that ended so says.
    fn verdict(&self, alloc: Global, task: &Task<'_>, end: End) -> Result<Verdict, ExploreFault>
        requires task { IsTask task.now }
        requires less { AreLess task.now self.now }
        requires begun { HasBegun task.now self.now }
        requires end { IsEnd task.now self.now true end }
        ensures answer { IfOk result (IsAnswer task.now.program.now task.now.flat.nodes) }
        ensures faults { IfErr result (IsFault task.now) }
    {
        match end {
            End::Meeting { place, p, q } => self.found.race_told(alloc, task, place, p, q),
            End::Through { stuck, trap } => {
                let findings = self.findings_told(alloc, task, stuck, trap)?;
                Ok(Verdict::RaceFree(findings))
            }
        }
    }

    // An order that gets stuck, and one in which a node traps, if there are some.
    fn findings_told(
        &self,
        alloc: Global,
        task: &Task<'_>,
        stuck: Option<usize>,
        trap: Option<Trapping>,
    ) -> Result<Findings, ExploreFault>
        requires task { IsTask task.now }
        requires less { AreLess task.now self.now }
        requires begun { HasBegun task.now self.now }
        requires through { IsThrough task.now self.now stuck trap }
        ensures findings { IfOk result (AreFindings task.now.program.now task.now.flat.nodes) }
        ensures faults { IfErr result (IsFault task.now) }
    {
        let stuck = self.stuck_told(alloc, task, stuck)?;
        let trap = self.trap_told(alloc, task, trap)?;
        Ok(Findings { stuck, trap })
    }

    // An order that gets stuck, if one does.
    fn stuck_told(
        &self,
        alloc: Global,
        task: &Task<'_>,
        stuck: Option<usize>,
    ) -> Result<Option<Vec<usize>>, ExploreFault>
        requires task { IsTask task.now }
        requires less { AreLess task.now self.now }
        requires begun { HasBegun task.now self.now }
        requires done { AreDone task.now self.now (length self.now.opens.items) }
        requires halted { IsStuckOpen task.now self.now (length self.now.opens.items) stuck }
        ensures stuck { IfOk result (λ order. TellsStuck task.now.program.now
            task.now.flat.nodes (option_map (λ nodes. nodes.items) order)) }
        ensures faults { IfErr result (IsFault task.now) }
    {
        let Some(place) = stuck else {
            return Ok(None);
        };
        let acts = self.found.acts_to(alloc, task, place)?;
        let order = order_of(alloc, &acts)?;
        Ok(Some(order))
    }

    // An order in which a node traps, if one does.
    fn trap_told(
        &self,
        alloc: Global,
        task: &Task<'_>,
        trap: Option<Trapping>,
    ) -> Result<Option<Vec<usize>>, ExploreFault>
        requires task { IsTask task.now }
        requires less { AreLess task.now self.now }
        requires begun { HasBegun task.now self.now }
        requires done { AreDone task.now self.now (length self.now.opens.items) }
        requires trap { trap ≡ self.now.trap }
        ensures trap { IfOk result (λ order. TellsTrap task.now.program.now task.now.flat.nodes
            (option_map (λ nodes. nodes.items) order)) }
        ensures faults { IfErr result (IsFault task.now) }
    {
        let Some(there) = trap else {
            return Ok(None);
        };
        let acts = self.acts_into_trap(alloc, task, there)?;
        let order = order_of(alloc, &acts)?;
        Ok(Some(order))
    }

    // Acts in which a node traps there.
    fn acts_into_trap(
        &self,
        alloc: Global,
        task: &Task<'_>,
        there: Trapping,
    ) -> Result<Vec<Act>, ExploreFault>
        requires task { IsTask task.now }
        requires sound { IsSound task.now self.now }
        requires traps { IsTrapping task.now self.now.found.table.rows there }
        ensures led { IfOk result (λ acts. LeadIntoTrap task.now acts.items) }
        ensures faults { IfErr result (IsFault task.now) }
    {
        match there {
            Trapping::Start => start_acts(alloc, task),
            Trapping::Step(origin) => self.acts_through(alloc, task, origin),
        }
    }

    // Acts that lead to a state and on by a step, in which a node traps.
    fn acts_through(
        &self,
        alloc: Global,
        task: &Task<'_>,
        origin: Origin,
    ) -> Result<Vec<Act>, ExploreFault>
        requires task { IsTask task.now }
        requires sound { IsSound task.now self.now }
        requires traps { IsTrapping task.now self.now.found.table.rows (Step origin) }
        ensures led { IfOk result (λ acts. LeadIntoTrap task.now acts.items) }
        ensures faults { IfErr result (IsFault task.now) }
    {
        let mut acts = self.found.acts_to(alloc, task, origin.parent)?;
        let key = self.found.table.rows.noted(alloc, origin.parent)?;
        let _after = taken(alloc, task, &key.state, origin.step, &mut acts)?;
        Ok(acts)
    }
}
