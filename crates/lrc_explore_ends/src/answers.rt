// What is answered of a program, where it is asked whether every order can end.

ghost use Rattle.std.specs.Prelude.{◌≡◌, ◌≢◌, ◌<◌, ◌≤◌, ◌↔◌, ◌⊎◌, IfErr, IfOk, OnOk, Ok, Err, true, false};
ghost use Rattle.lrc_exec.specs.Nodes.{AreNodes};
ghost use Rattle.lrc_orders_table.specs.Rows.{row_count};
ghost use Rattle.lrc_explore.specs.Answers.{AreAllExpanded, FitsSettled, IsEnd, IsFault, IsFaultOf, IsThrough, MetTooMany};
ghost use Rattle.lrc_explore.specs.Met.{ComputesTooLong, FitsSought, IsMany, IsSought};
ghost use Rattle.lrc_explore.specs.Reached.{AreFound, HasStart, IsTask};
ghost use Rattle.lrc_explore.specs.declared.task.End.TheVariants.{Meeting};
ghost use Rattle.lrc_explore_ends.specs.Answers.{AreEndFindings, GoesThrough, IsEndAnswer, IsTaskEndAnswer};

use crate::lost::lost_order;
use lrc_exec::code::Code;
use lrc_explore::answers::{count_of, task_of};
use lrc_explore::task::{End, Found, Sought, Task, Trapping};
use lrc_orders::search::{ExploreFault, Findings, Verdict};
use lrc_program::Program;
use std::alloc::Global;

/// What the search found of the orders of a program, besides races, where it was asked whether every order can end.
#[derive(Drop)]
pub struct EndFindings {
    /// What it found of stuck orders and of traps.
    pub besides: Findings,
    /// An order that can no longer end, or none if every order can.
    pub lost: Option<Vec<usize>>,
}

/// What the search found.
#[derive(Drop)]
pub enum EndVerdict {
    /// No order races, if that was looked for. These are the findings besides.
    Through(EndFindings),
    /// The last two acts of the order given race.
    Racy { order: Vec<usize> },
    /// There are more states to tell apart than may be, or from one that was met a thread makes too many free acts; and
    /// no two nodes meet at those that were met, if that was looked for. These are the findings at them: an order that
    /// gets stuck exactly if the program is stuck at one of them, and an order in which a node traps if one traps on
    /// the way to them.
    Many(Findings),
}

/// Searches the settled states of a program on this many nodes. It tells whether an order races, if `races` is true,
/// and if none does, whether one gets stuck, whether a node traps in one, and whether every order can end. If there are
/// more states to tell apart than `most`, or if from one a thread makes 1,000,000 + 20 * `most` free acts one after
/// another, it tells what it met at them. It fails as `explore` of `lrc_explore_less` does.
pub fn explore_ends(
    alloc: Global,
    program: &Program,
    nodes: u32,
    most: usize,
    races: bool,
) -> Result<EndVerdict, ExploreFault>
    ensures answer { IfOk result (IsEndAnswer program.now nodes most races) }
    ensures fits { IfOk result (λ verdict. GoesThrough verdict
        → FitsSettled program.now nodes most) }
    ensures bad_nodes { (result ≡ Err ExploreFault.BadNodes) ↔ (¬ AreNodes nodes) }
    ensures too_many { IfErr result (λ fault. fault ≡ ExploreFault.TooMany
        → MetTooMany program.now nodes most false races) }
    ensures too_long { IfErr result (λ fault. fault ≡ ExploreFault.TooMany
        → ComputesTooLong program.now nodes most) }
{
    let count = count_of(nodes)?;
    let code = Code::new(alloc, program)?;
    ends_of_code(alloc, &code, count, most, races)
}

// The same of a program's flat code.
fn ends_of_code(
    alloc: Global,
    code: &Code<'_>,
    nodes: u8,
    most: usize,
    races: bool,
) -> Result<EndVerdict, ExploreFault>
    ensures answer { IfOk result (IsEndAnswer code.now nodes most races) }
    ensures fits { IfOk result (λ verdict. GoesThrough verdict
        → FitsSettled code.now nodes most) }
    ensures faults { IfErr result (IsFaultOf code.now nodes most false races) }
    ensures too_long { IfErr result (λ fault. fault ≡ ExploreFault.TooMany
        → ComputesTooLong code.now nodes most) }
{
    let task = task_of(alloc, code, nodes, most, false)?;
    search(alloc, &task, races)
}

// From the settled start on: what is answered.
fn search(alloc: Global, task: &Task<'_>, races: bool) -> Result<EndVerdict, ExploreFault>
    requires { IsTask task.now }
    ensures answer { IfOk result (IsTaskEndAnswer task.now races) }
    ensures fits { IfOk result (λ verdict. GoesThrough verdict
        → FitsSettled task.now.program.now task.now.flat.nodes task.now.most) }
    ensures faults { IfErr result (IsFault task.now) }
{
    let mut found = Found::none(alloc, task.flat.nodes as usize);
    let sought = sought_from_start(alloc, task, &mut found, races)?;
    answer_of(alloc, task, found, races, sought)
}

// Searches from the settled start on, where there are no states yet.
fn sought_from_start(
    alloc: Global,
    task: &Task<'_>,
    found: &mut Found,
    races: bool,
) -> Result<Sought, ExploreFault>
    requires task { IsTask task.now }
    requires found { AreFound task.now found.old }
    requires none { row_count found.old.table.rows ≡ 0 }
    ensures found { OnOk result (AreFound task.now found.new) }
    ensures start { OnOk result (HasStart task.now found.new.table.rows) }
    ensures some { OnOk result (0 < row_count found.new.table.rows) }
    ensures sought { IfOk result (IsSought task.now found.new races) }
    ensures fits { IfOk result (FitsSought task.now found.new) }
    ensures faults { IfErr result (IsFault task.now) }
{
    let traps = found.begin(alloc, task)?;
    found.seek(alloc, task, races, traps)
}

// What is answered where the search ended so.
fn answer_of(
    alloc: Global,
    task: &Task<'_>,
    found: Found,
    races: bool,
    sought: Sought,
) -> Result<EndVerdict, ExploreFault>
    requires task { IsTask task.now }
    requires found { AreFound task.now found }
    requires start { HasStart task.now found.table.rows }
    requires some { 0 < row_count found.table.rows }
    requires sought { IsSought task.now found races sought }
    requires few { FitsSought task.now found sought }
    ensures answer { IfOk result (IsTaskEndAnswer task.now races) }
    ensures fits { IfOk result (λ verdict. GoesThrough verdict
        → FitsSettled task.now.program.now task.now.flat.nodes task.now.most) }
    ensures faults { IfErr result (IsFault task.now) }
{
    match sought {
        Sought::Ended(end) => match end {
            End::Meeting { place, p, q } => race_of(alloc, task, &found, place, p, q),
            End::Through { stuck, trap } => {
                let ends = through(alloc, task, found, stuck, trap)?;
                Ok(EndVerdict::Through(ends))
            }
        },
        Sought::Many { stuck, trap } => many_of(alloc, task, &found, races, stuck, trap),
    }
}

// What was met where the search was cut short.
fn many_of(
    alloc: Global,
    task: &Task<'_>,
    found: &Found,
    races: bool,
    stuck: Option<usize>,
    trap: Option<Trapping>,
) -> Result<EndVerdict, ExploreFault>
    requires task { IsTask task.now }
    requires found { AreFound task.now found.now }
    requires many { IsMany task.now found.now.table.rows races stuck trap }
    ensures answer { IfOk result (IsTaskEndAnswer task.now races) }
    ensures many { IfOk result (λ verdict. ¬ GoesThrough verdict) }
    ensures faults { IfErr result (IsFault task.now) }
{
    let met = found.met_told(alloc, task, races, stuck, trap)?;
    Ok(EndVerdict::Many(met))
}

// An order that races.
fn race_of(
    alloc: Global,
    task: &Task<'_>,
    found: &Found,
    place: usize,
    p: usize,
    q: usize,
) -> Result<EndVerdict, ExploreFault>
    requires task { IsTask task.now }
    requires found { AreFound task.now found.now }
    requires meeting { IsEnd task.now found.now true (Meeting place p q) }
    ensures answer { IfOk result (IsTaskEndAnswer task.now true) }
    ensures racy { IfOk result (λ verdict. ¬ GoesThrough verdict) }
    ensures faults { IfErr result (IsFault task.now) }
{
    match found.race_told(alloc, task, place, p, q)? {
        Verdict::Racy { order } => Ok(EndVerdict::Racy { order }),
        Verdict::RaceFree(_) => unreachable!(),
    }
}

// What was found besides races, past all states.
fn through(
    alloc: Global,
    task: &Task<'_>,
    found: Found,
    stuck: Option<usize>,
    trap: Option<Trapping>,
) -> Result<EndFindings, ExploreFault>
    requires task { IsTask task.now }
    requires found { AreFound task.now found }
    requires all { AreAllExpanded task.now found }
    requires through { IsThrough task.now found false stuck trap }
    requires some { 0 < row_count found.table.rows }
    ensures findings { IfOk result (AreEndFindings task.now.program.now task.now.flat.nodes) }
    ensures faults { IfErr result (IsFault task.now) }
{
    let besides = found.findings_told(alloc, task, stuck, trap);
    let lost = lost_order(alloc, task, found);
    end_findings(besides, lost)
}

// Both findings, or why the first of them failed, else the second.
fn end_findings(
    besides: Result<Findings, ExploreFault>,
    lost: Result<Option<Vec<usize>>, ExploreFault>,
) -> Result<EndFindings, ExploreFault>
    ensures besides { IfOk result (λ found. besides ≡ Ok found.besides) }
    ensures lost { IfOk result (λ found. lost ≡ Ok found.lost) }
    ensures fault { IfErr result (λ fault. (besides ≡ Err fault) ⊎ (lost ≡ Err fault)) }
{
    let besides = besides?;
    let lost = lost?;
    Ok(EndFindings { besides, lost })
}
