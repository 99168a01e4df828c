// Programs of which no order races: their exact runs are the runs of the plain machine.

ghost use Rattle.std.specs.Prelude.{◌≡◌, ◌≤◌, IfOk, IfSome, true};
ghost use Rattle.lrc_consistency_laws.specs.Racing.{HasNoRace};
ghost use Rattle.lrc_exec.specs.Nodes.{AreNodes};
ghost use Rattle.lrc_exact_text.specs.Calm.{AreCalmOutcomes, IsCalmRun};

use indexmap::IndexSet;
use lrc_explore_less::answers::{Explored, explore, outcomes};
use lrc_explore_text::outcome_run::outcome_run;
use lrc_orders::outcomes::Outcome;
use lrc_orders::search::{ExploreFault, Verdict};
use lrc_program::Program;
use lrc_trace::act::Act;
use std::alloc::{AllocError, Global};

/// What is known of the outcome with a number of a program of which no order races.
#[derive(Drop)]
pub enum CalmRun {
    /// The acts of a run that has it.
    Run(Vec<Act>),
    /// There are fewer outcomes.
    Fewer,
    /// Some order races, or a search was cut short.
    Unknown,
}

/// Returns the outcomes of all orders, or nothing. It returns them only if no order races; they are the outcomes of the
/// exact runs, too. That it returns nothing only where a search was cut short or met a race is code alone. Fails if
/// memory runs out.
pub fn calm_outcomes(
    alloc: Global,
    program: &Program,
    nodes: u8,
    most: usize,
) -> Result<Option<IndexSet<Outcome>>, AllocError>
    requires { AreNodes nodes }
    ensures { IfOk result (λ found. IfSome found (λ set.
        AreCalmOutcomes program.now nodes set.keys)) }
{
    if !is_calm(alloc, program, nodes, most)? {
        return Ok(None);
    }
    match outcomes(alloc, program, u32::from(nodes), most) {
        Ok(found) => Ok(Some(found)),
        Err(ExploreFault::TooMany) => Ok(None),
        Err(ExploreFault::NoMemory) => Err(AllocError),
        Err(ExploreFault::BadNodes) => unreachable!(),
    }
}

/// Returns a run that has the outcome with this number, counted from 1, or that there are fewer, or nothing. It tells
/// either only if no order races; the run is an exact run, too. That it returns nothing only where a search met too many
/// states or a race is code alone. Fails if memory runs out.
pub fn calm_run(
    alloc: Global,
    program: &Program,
    nodes: u8,
    most: usize,
    number: u64,
) -> Result<CalmRun, AllocError>
    requires nodes { AreNodes nodes }
    requires number { 1 ≤ number }
    ensures { IfOk result (IsCalmRun program.now nodes number) }
{
    if !is_calm(alloc, program, nodes, most)? {
        return Ok(CalmRun::Unknown);
    }
    match outcome_run(alloc, program, nodes, most, number) {
        Ok(Some(acts)) => Ok(CalmRun::Run(acts)),
        Ok(None) => Ok(CalmRun::Fewer),
        Err(ExploreFault::TooMany) => Ok(CalmRun::Unknown),
        Err(ExploreFault::NoMemory) => Err(AllocError),
        Err(ExploreFault::BadNodes) => unreachable!(),
    }
}

// Whether a search that meets no more states than it may finds that no order races.
fn is_calm(alloc: Global, program: &Program, nodes: u8, most: usize) -> Result<bool, AllocError>
    requires { AreNodes nodes }
    ensures { IfOk result (λ calm. calm ≡ true → HasNoRace program.now nodes) }
{
    match explore(alloc, program, u32::from(nodes), most) {
        Ok(Explored::Told(Verdict::RaceFree(_))) => Ok(true),
        Ok(_) | Err(ExploreFault::TooMany) => Ok(false),
        Err(ExploreFault::NoMemory) => Err(AllocError),
        Err(ExploreFault::BadNodes) => unreachable!(),
    }
}
