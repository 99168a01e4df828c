// What is answered of a program.

ghost use Rattle.std.specs.Prelude.{◌≡◌, ◌≢◌, ◌≤◌, ◌++◌, ◌↔◌, List, IfOk, IfErr, MatchResult, Err, true, false};
ghost use Rattle.lrc_trace.specs.declared.act.Act.{Act as ActType};
ghost use Rattle.lrc_exec.specs.Nodes.{AreNodes};
ghost use Rattle.lrc_exec.specs.Spots.{IsFlatOf};
ghost use Rattle.lrc_exec.specs.Follows.{nodes_of_acts};
ghost use Rattle.lrc_orders.specs.Outcome.{HasOutcome, IsOutcome};
ghost use Rattle.lrc_explore.specs.Answers.{FitsSettled, FitsSettledNoted, IsAnswer, IsFaultOf, MetTooMany, looked_at};
ghost use Rattle.lrc_orders.specs.Verdict.{AreFindings, FindsNoRace};
ghost use Rattle.lrc_explore.specs.Reached.{IsTask};

use crate::task::{End, Found, Sought, Task, Trapping};
use indexmap::IndexSet;
use lrc_exec::code::Code;
use lrc_exec::spot::Flat;
use lrc_orders::outcomes::Outcome;
use lrc_orders::search::{ExploreFault, Findings, Verdict};
use lrc_orders_live::live_names;
use lrc_program::Program;
use lrc_trace::act::Act;
use std::alloc::{AllocError, Global};

/// Searches the settled states of a program on this many nodes. It tells whether an order races, and if none does,
/// whether one gets stuck and whether a node traps in one. It fails with `BadNodes` exactly if the number of nodes is not
/// 1 to 16. It gives up with `TooMany` only if there are more states to tell apart than `most`, at none of which two nodes
/// meet, or if a thread makes 1,000,000 + 20 * `most` free acts one after another. It fails if memory runs out.
pub fn explore(
    alloc: Global,
    program: &Program,
    nodes: u32,
    most: usize,
) -> Result<Verdict, ExploreFault>
    ensures answer { IfOk result (IsAnswer program.now nodes) }
    ensures fits { IfOk result (λ verdict. FindsNoRace verdict
        → FitsSettled program.now nodes most) }
    ensures bad_nodes { (result ≡ Err ExploreFault.BadNodes) ↔ (¬ AreNodes nodes) }
    ensures too_many { IfErr result (λ fault. fault ≡ ExploreFault.TooMany
        → MetTooMany program.now nodes most false true) }
{
    let count = count_of(nodes)?;
    let code = Code::new(alloc, program)?;
    explore_code(alloc, &code, count, most)
}

// The same of a program's flat code.
fn explore_code(
    alloc: Global,
    code: &Code<'_>,
    nodes: u8,
    most: usize,
) -> Result<Verdict, ExploreFault>
    ensures answer { IfOk result (IsAnswer code.now nodes) }
    ensures fits { IfOk result (λ verdict. FindsNoRace verdict → FitsSettled code.now nodes most) }
    ensures faults { IfErr result (IsFaultOf code.now nodes most false true) }
{
    let task = task_of(alloc, code, nodes, most, false)?;
    let mut found = Found::none(alloc, nodes as usize);
    found.answer(alloc, &task)
}

/// Searches the settled states of a program on this many nodes, whether or not an order races. It tells whether one gets
/// stuck and whether a node traps in one. It fails as `explore` does, but that two nodes may meet at these states.
pub fn findings(
    alloc: Global,
    program: &Program,
    nodes: u32,
    most: usize,
) -> Result<Findings, ExploreFault>
    ensures findings { IfOk result (AreFindings program.now nodes) }
    ensures fits { IfOk result (λ _. FitsSettled program.now nodes most) }
    ensures bad_nodes { (result ≡ Err ExploreFault.BadNodes) ↔ (¬ AreNodes nodes) }
    ensures too_many { IfErr result (λ fault. fault ≡ ExploreFault.TooMany
        → MetTooMany program.now nodes most false false) }
{
    let count = count_of(nodes)?;
    let code = Code::new(alloc, program)?;
    findings_of(alloc, &code, count, most)
}

// The same of a program's flat code.
fn findings_of(
    alloc: Global,
    code: &Code<'_>,
    nodes: u8,
    most: usize,
) -> Result<Findings, ExploreFault>
    ensures findings { IfOk result (AreFindings code.now nodes) }
    ensures fits { IfOk result (λ _. FitsSettled code.now nodes most) }
    ensures faults { IfErr result (IsFaultOf code.now nodes most false false) }
{
    let task = task_of(alloc, code, nodes, most, false)?;
    let mut found = Found::none(alloc, nodes as usize);
    found.all_findings(alloc, &task)
}

/// Returns every outcome of the orders in which this many nodes can run a program, after which no node can make an act.
/// It fails as `explore` does.
pub fn outcomes(
    alloc: Global,
    program: &Program,
    nodes: u32,
    most: usize,
) -> Result<IndexSet<Outcome>, ExploreFault>
    ensures exact { IfOk result (λ found. (notes : List ActType)
        → (HasOutcome found.keys notes ↔ IsOutcome program.now nodes notes)) }
    ensures fits { IfOk result (λ _. FitsSettledNoted program.now nodes most) }
    ensures bad_nodes { (result ≡ Err ExploreFault.BadNodes) ↔ (¬ AreNodes nodes) }
    ensures too_many { IfErr result (λ fault. fault ≡ ExploreFault.TooMany
        → MetTooMany program.now nodes most true false) }
{
    let count = count_of(nodes)?;
    let code = Code::new(alloc, program)?;
    outcomes_of(alloc, &code, count, most)
}

// The same of a program's flat code.
fn outcomes_of(
    alloc: Global,
    code: &Code<'_>,
    nodes: u8,
    most: usize,
) -> Result<IndexSet<Outcome>, ExploreFault>
    ensures exact { IfOk result (λ found. (notes : List ActType)
        → (HasOutcome found.keys notes ↔ IsOutcome code.now nodes notes)) }
    ensures fits { IfOk result (λ _. FitsSettledNoted code.now nodes most) }
    ensures faults { IfErr result (IsFaultOf code.now nodes most true false) }
{
    let task = task_of(alloc, code, nodes, most, true)?;
    let mut found = Found::none(alloc, nodes as usize);
    let mut outcomes = IndexSet::new(alloc);
    let all = found.all_outcomes(alloc, &task, &mut outcomes);
    match all {
        Ok(()) => Ok(outcomes),
        Err(fault) => Err(fault),
    }
}

/// Returns the task of searching a program's code. It fails if memory runs out.
pub fn task_of<'c>(
    alloc: Global,
    code: &'c Code<'c>,
    nodes: u8,
    most: usize,
    noting: bool,
) -> Result<Task<'c>, AllocError>
    ensures task { IfOk result IsTask }
    ensures program { IfOk result (λ task. task.program.now ≡ code.now) }
    ensures flat { IfOk result (λ task. IsFlatOf code.now nodes task.flat task.start) }
    ensures nodes { IfOk result (λ task. task.flat.nodes ≡ nodes) }
    ensures most { IfOk result (λ task. task.most ≡ most) }
    ensures looked { IfOk result (λ task. task.looked ≡ looked_at most) }
    ensures noting { IfOk result (λ task. task.noting ≡ noting) }
{
    let (flat, start) = Flat::of(code, nodes);
    let live = live_names(alloc, flat.code)?;
    Ok(Task {
        program: code.program(),
        flat,
        start,
        live,
        most,
        looked: looked_at(most),
        noting,
    })
}

// How many free acts of a thread are looked at.
fn looked_at(most: usize) -> u64
    ensures { result ≡ looked_at most }
{
    (most as u64).saturating_mul(20).saturating_add(1_000_000)
}

/// Returns how many nodes there are, if they are 1 to 16. If they are not, fails with `BadNodes`.
pub fn count_of(nodes: u32) -> Result<u8, ExploreFault>
    ensures { MatchResult result (λ count. (count ≡ nodes) × AreNodes nodes)
        (λ fault. (fault ≡ ExploreFault.BadNodes) × ¬ AreNodes nodes) }
{
    if nodes < 1 || nodes > 16 {
        return Err(ExploreFault::BadNodes);
    }
    Ok(nodes as u8)
}

// The nodes of acts, in their order, and then these.
pub(crate) fn order_of(
    alloc: Global,
    acts: &[Act],
    more: &[usize],
) -> Result<Vec<usize>, AllocError>
    ensures { IfOk result (λ order. order.items ≡ nodes_of_acts acts.now ++ more.now) }
{
    let mut order = Vec::new(alloc);
    for act in acts {
        order.push(act.node as usize)?;
    }
    order.extend_from_slice(more)?;
    Ok(order)
}

impl Found {
    ghost use Rattle.std.specs.Prelude.{◌≡◌, IfOk, IfErr, OnOk, [], true, false, Some, option_map};
    ghost use Rattle.lrc_orders_table.specs.Rows.{row_count};
    ghost use Rattle.lrc_explore.specs.Reached.{AreFound, HasStart, IsTask};
    ghost use Rattle.lrc_explore.specs.Ended.{AreAllFound};
    ghost use Rattle.lrc_explore.specs.Answers.{AreAllExpanded, FitsEnd, FitsSettled, FitsSettledNoted, IsAnswer, IsEnd, IsFault, IsSearchFault, IsStuckFirst};
    ghost use Rattle.lrc_explore.specs.Traps.{IsTrapSoFar};
    ghost use Rattle.lrc_orders.specs.Verdict.{AreFindings, FindsNoRace, TellsStuck, TellsTrap};
    ghost use Rattle.lrc_explore.specs.declared.task.End.TheVariants.{Meeting};

    // From the settled start on, where there are no states yet: what is answered.
    fn answer(&mut self, alloc: Global, task: &Task<'_>) -> Result<Verdict, ExploreFault>
        requires task { IsTask task.now }
        requires found { AreFound task.now self.old }
        requires none { row_count self.old.table.rows ≡ 0 }
        ensures answer { IfOk result (IsAnswer task.now.program.now task.now.flat.nodes) }
        ensures fits { IfOk result (λ verdict. FindsNoRace verdict
            → FitsSettled task.now.program.now task.now.flat.nodes task.now.most) }
        ensures faults { IfErr result (IsSearchFault task.now true) }
    {
        let traps = self.begin(alloc, task)?;
        let sought = self.seek(alloc, task, true, traps)?;
        match sought {
            Sought::Ended(end) => self.verdict(alloc, task, end),
            Sought::Many { .. } => Err(ExploreFault::TooMany),
        }
    }

    // The same where races are not looked for.
    fn all_findings(&mut self, alloc: Global, task: &Task<'_>) -> Result<Findings, ExploreFault>
        requires task { IsTask task.now }
        requires found { AreFound task.now self.old }
        requires none { row_count self.old.table.rows ≡ 0 }
        ensures findings { IfOk result (AreFindings task.now.program.now task.now.flat.nodes) }
        ensures fits { IfOk result (λ _. FitsSettled task.now.program.now task.now.flat.nodes
            task.now.most) }
        ensures faults { IfErr result (IsSearchFault task.now false) }
    {
        let traps = self.begin(alloc, task)?;
        let sought = self.seek(alloc, task, false, traps)?;
        match sought {
            Sought::Ended(end) => match end {
                End::Meeting { .. } => unreachable!(),
                End::Through { stuck, trap } => self.findings_told(alloc, task, stuck, trap),
            },
            Sought::Many { .. } => Err(ExploreFault::TooMany),
        }
    }

    // What a search for races that ended so says.
    fn verdict(&self, alloc: Global, task: &Task<'_>, end: End) -> Result<Verdict, ExploreFault>
        requires task { IsTask task.now }
        requires found { AreFound task.now self.now }
        requires start { HasStart task.now self.now.table.rows }
        requires end { IsEnd task.now self.now true end }
        requires few { FitsEnd task.now self.now end }
        ensures answer { IfOk result (IsAnswer task.now.program.now task.now.flat.nodes) }
        ensures fits { IfOk result (λ verdict. FindsNoRace verdict
            → FitsSettled task.now.program.now task.now.flat.nodes task.now.most) }
        ensures faults { IfErr result (IsFault task.now) }
    {
        match end {
            End::Meeting { place, p, q } => self.race_told(alloc, task, place, p, q),
            End::Through { stuck, trap } => {
                let findings = self.findings_told(alloc, task, stuck, trap)?;
                Ok(Verdict::RaceFree(findings))
            }
        }
    }

    /// Returns an order whose last two acts race, where two nodes meet at a state. It fails if memory runs out.
    pub fn race_told(
        &self,
        alloc: Global,
        task: &Task<'_>,
        place: usize,
        p: usize,
        q: usize,
    ) -> Result<Verdict, ExploreFault>
        requires task { IsTask task.now }
        requires found { AreFound task.now self.now }
        requires meeting { IsEnd task.now self.now true (Meeting place p q) }
        ensures answer { IfOk result (IsAnswer task.now.program.now task.now.flat.nodes) }
        ensures racy { IfOk result (λ verdict. ¬ FindsNoRace verdict) }
        ensures faults { IfErr result (IsFault task.now) }
    {
        let acts = self.acts_to(alloc, task, place)?;
        let order = order_of(alloc, &acts, &[p, q])?;
        Ok(Verdict::Racy { order })
    }

    /// Returns an order that gets stuck, and one in which a node traps, where all states were found. It fails if memory
    /// runs out.
    pub fn findings_told(
        &self,
        alloc: Global,
        task: &Task<'_>,
        stuck: Option<usize>,
        trap: Option<Trapping>,
    ) -> Result<Findings, ExploreFault>
        requires task { IsTask task.now }
        requires found { AreFound task.now self.now }
        requires all { AreAllExpanded task.now self.now }
        requires stuck { IsStuckFirst task.now self.now.table.rows stuck }
        requires trap { IsTrapSoFar task.now self.now.table.rows
            (row_count self.now.table.rows) trap }
        ensures findings { IfOk result (AreFindings task.now.program.now task.now.flat.nodes) }
        ensures faults { IfErr result (IsFault task.now) }
    {
        let stuck = self.stuck_told(alloc, task, stuck)?;
        let trap = self.trap_told(alloc, task, trap)?;
        Ok(Findings { stuck, trap })
    }

    // An order that gets stuck, if one does.
    fn stuck_told(
        &self,
        alloc: Global,
        task: &Task<'_>,
        stuck: Option<usize>,
    ) -> Result<Option<Vec<usize>>, ExploreFault>
        requires task { IsTask task.now }
        requires found { AreFound task.now self.now }
        requires all { AreAllExpanded task.now self.now }
        requires stuck { IsStuckFirst task.now self.now.table.rows stuck }
        ensures stuck { IfOk result (λ order. TellsStuck task.now.program.now
            task.now.flat.nodes (option_map (λ nodes. nodes.items) order)) }
        ensures faults { IfErr result (IsFault task.now) }
    {
        let Some(place) = stuck else {
            return Ok(None);
        };
        let order = self.stuck_order(alloc, task, place)?;
        Ok(Some(order))
    }

    // An order in which a node traps, if one does.
    fn trap_told(
        &self,
        alloc: Global,
        task: &Task<'_>,
        trap: Option<Trapping>,
    ) -> Result<Option<Vec<usize>>, ExploreFault>
        requires task { IsTask task.now }
        requires found { AreFound task.now self.now }
        requires all { AreAllExpanded task.now self.now }
        requires trap { IsTrapSoFar task.now self.now.table.rows
            (row_count self.now.table.rows) trap }
        ensures trap { IfOk result (λ order. TellsTrap task.now.program.now task.now.flat.nodes
            (option_map (λ nodes. nodes.items) order)) }
        ensures faults { IfErr result (IsFault task.now) }
    {
        let Some(there) = trap else {
            return Ok(None);
        };
        let order = self.trap_order(alloc, task, there)?;
        Ok(Some(order))
    }

    // From the settled start on, where there are no states yet: every settled state, and every outcome.
    pub(crate) fn all_outcomes(
        &mut self,
        alloc: Global,
        task: &Task<'_>,
        outcomes: &mut IndexSet<Outcome>,
    ) -> Result<(), ExploreFault>
        requires task { IsTask task.now }
        requires noting { task.now.noting ≡ true }
        requires found { AreFound task.now self.old }
        requires none { row_count self.old.table.rows ≡ 0 }
        requires empty { outcomes.old.keys ≡ [] }
        ensures all { OnOk result (AreAllFound task.now self.new) }
        ensures exact { OnOk result ((notes : List ActType)
            → (HasOutcome outcomes.new.keys notes
            ↔ IsOutcome task.now.program.now task.now.flat.nodes notes)) }
        ensures fits { OnOk result (FitsSettledNoted task.now.program.now task.now.flat.nodes
            task.now.most) }
        ensures faults { IfErr result (IsSearchFault task.now false) }
    {
        let _traps = self.begin(alloc, task)?;
        self.gather(alloc, task, outcomes)
    }
}
