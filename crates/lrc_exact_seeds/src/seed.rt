// The run in the random order of a seed, and the outcome that it has.

ghost use Rattle.std.specs.Prelude.{◌≡◌, IfErr, IfOk, option_map};
ghost use Rattle.lrc_exec.specs.Nodes.{AreNodes};
ghost use Rattle.lrc_orders.specs.Notes.{notes_of};
ghost use Rattle.lrc_lazy.specs.Lazy.{IsLazyRun};
ghost use Rattle.lrc_world.specs.declared.keep.Keep.TheVariants.{Newest};
ghost use Rattle.lrc_world.specs.declared.run.Order.TheVariants.{Random};
ghost use Rattle.lrc_world.specs.Random.{WanderingWearsOut};
ghost use Rattle.lrc_world.specs.Report.{IsWornFault};
ghost use Rattle.lrc_world.specs.Runs.{IsRunIn};
ghost use Rattle.lrc_node.specs.Options.{options_of};
ghost use Rattle.lrc_exact_seeds.specs.Seeds.{AreNotesIfOver, IsAllOfSeed};

use lrc_lazy::over::is_over;
use lrc_orders::notes::note;
use lrc_program::Program;
use lrc_setting::setting::Setting;
use lrc_trace::act::Act;
use lrc_world::keep::Keep;
use lrc_world::report::TurnFault;
use lrc_world::run::{Order, Run, run_in};
use std::alloc::{AllocError, Global};

/// Returns what the nodes print in the run of a seed with this setting, and how they end, as notes of its acts. There are
/// none if the run answers a fault, or if a node can still act after it. It fails if memory runs out.
pub fn notes_of_seed(
    alloc: Global,
    program: &Program,
    setting: &Setting,
    seed: u64,
) -> Result<Option<Vec<Act>>, AllocError>
    ensures { IfOk result (λ notes. IsAllOfSeed program.now setting.now.nodes.count
        (options_of setting.now) seed (option_map (λ notes. notes.items) notes)) }
{
    match run_of_seed(alloc, program, setting, seed) {
        Ok(run) => notes_if_over(alloc, program, setting.nodes.number(), &run.report.acts),
        Err(TurnFault::Worn) => Ok(None),
        Err(TurnFault::NoMemory) => Err(AllocError),
    }
}

// The run of a seed.
fn run_of_seed(
    alloc: Global,
    program: &Program,
    setting: &Setting,
    seed: u64,
) -> Result<Run, TurnFault>
    ensures run { IfOk result (IsRunIn (Random seed) program.now setting.now.nodes.count
        (options_of setting.now) Newest) }
    ensures fault { IfErr result (IsWornFault
        (WanderingWearsOut program.now setting.now.nodes.count (options_of setting.now) seed)) }
{
    run_in(alloc, program, setting, Order::Random(seed), Keep::Newest)
}

// The notes of a lazy run, if no node can act after it.
fn notes_if_over(
    alloc: Global,
    program: &Program,
    nodes: u8,
    acts: &[Act],
) -> Result<Option<Vec<Act>>, AllocError>
    requires nodes { AreNodes nodes }
    requires run { IsLazyRun program.now nodes acts.now }
    ensures { IfOk result (λ notes. AreNotesIfOver program.now nodes acts.now
        (option_map (λ notes. notes.items) notes)) }
{
    let over = is_over(alloc, program, nodes, acts)?;
    if over {
        let notes = notes_of(alloc, program, nodes, acts)?;
        Ok(Some(notes))
    } else {
        Ok(None)
    }
}

// The notes of a lazy run.
fn notes_of(
    alloc: Global,
    program: &Program,
    nodes: u8,
    acts: &[Act],
) -> Result<Vec<Act>, AllocError>
    requires { IsLazyRun program.now nodes acts.now }
    ensures { IfOk result (λ notes. notes.items ≡ notes_of nodes acts.now) }
{
    let (_program, _nodes) = (program, nodes);
    let mut notes = Vec::new(alloc);
    for act in acts {
        note(&mut notes, *act)?;
    }
    Ok(notes)
}
