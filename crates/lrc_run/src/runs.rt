// Runs of a program whose nodes are on threads, by numbers that may be out of range.

ghost use Rattle.std.specs.Prelude.{◌≡◌, ◌↔◌, ◌⊎◌, Err, IfErr, IfOk, MatchResult};
ghost use Rattle.lrc_exec.specs.Nodes.{AreNodes};
ghost use Rattle.lrc_setting.specs.Ranges.{AreSteps};
ghost use Rattle.lrc_node.specs.Options.{options_of};
ghost use Rattle.lrc_world.specs.declared.keep.Keep.TheVariants.{Turns};
ghost use Rattle.lrc_world.specs.declared.run.Run.{Run as AnyRun};
ghost use Rattle.lrc_run.specs.Halts.{IsRunFault};
ghost use Rattle.lrc_run.specs.Run.{IsThreadedRun};

use crate::fault::RunFault;
use crate::live::{ThreadedRun, run_on_threads};
use lrc_envelope::Picker;
use lrc_node::Options;
use lrc_post::Wires;
use lrc_program::Program;
use lrc_setting::setting::Setting;
use lrc_threads::{Gate, OpenGate};
use lrc_world::keep::Keep;
use lrc_world::report::{Report, SimFault};
use lrc_world::setting::setting_of;
use std::alloc::Global;
use std::sync::Wait;
use std::thread::Threads;

/// Runs a program with each node on a separate thread, and returns the report and the mailboxes of the post between
/// them. It is [`run_on_threads`] with numbers that may be out of range. `picker` chooses which of its messages a node
/// is given next. If there is a report, each message was given: once, or with `Twice` twice.
///
/// The report is the one of `lrc_world` for the events that make the turns of all nodes, put into one order by their
/// stamps. So the sequential-consistency theorem holds of it, whatever the threads did. If program, lock and barrier
/// order leave no two conflicting accesses unordered, the plain machine, led by the order of the acts, makes the same
/// acts. Every run is plain up to its first race. If no order gives the plain machine a race, no run has one.
///
/// It fails with `BadNodes` first and `BadSteps` next, if a number is out of range. Of several faults of nodes, that of
/// the lowest node is returned. If no node had a fault, or if the turns do not tell why that node wore out, it may fail
/// with `Mismatch`. Memory may run out at any point.
pub fn run<R: Threads + Wait + Sync>(
    rt: &R,
    alloc: Global,
    program: &Program,
    nodes: u32,
    options: &Options,
    picker: Picker,
) -> Result<(Report, Wires), RunFault>
    ensures run { IfOk result (λ done. (made : AnyRun) × (done.0 ≡ made.report)
        × IsThreadedRun program.now nodes options.now picker Turns made done.1) }
    ensures fault { IfErr result (IsRunFault program.now nodes options.now picker) }
    ensures bad_nodes { (result ≡ Err RunFault.BadNodes) ↔ (¬ AreNodes nodes) }
    ensures bad_steps { (result ≡ Err RunFault.BadSteps)
        ↔ (AreNodes nodes × ¬ AreSteps options.now.steps) }
{
    run_gated(rt, alloc, program, nodes, options, picker, &OpenGate)
}

/// Runs a program as [`run`] does, but each node passes a gate before each of its turns, on its thread. That it does is
/// tested, not proved.
pub fn run_gated<G: Gate + Sync, R: Threads + Wait + Sync>(
    rt: &R,
    alloc: Global,
    program: &Program,
    nodes: u32,
    options: &Options,
    picker: Picker,
    gate: &G,
) -> Result<(Report, Wires), RunFault>
    ensures run { IfOk result (λ done. (made : AnyRun) × (done.0 ≡ made.report)
        × IsThreadedRun program.now nodes options.now picker Turns made done.1) }
    ensures fault { IfErr result (IsRunFault program.now nodes options.now picker) }
    ensures bad_nodes { (result ≡ Err RunFault.BadNodes) ↔ (¬ AreNodes nodes) }
    ensures bad_steps { (result ≡ Err RunFault.BadSteps)
        ↔ (AreNodes nodes × ¬ AreSteps options.now.steps) }
{
    let setting = check(nodes, options)?;
    match run_on_threads(rt, alloc, program, &setting, picker, Keep::Turns, gate) {
        Ok(run) => Ok(told_of(run)),
        Err(halt) => Err(RunFault::from(halt)),
    }
}

// What is answered of a run: its report, and what the post kept.
fn told_of(run: ThreadedRun) -> (Report, Wires)
    ensures report { result.0 ≡ run.made.report }
    ensures wires { result.1 ≡ run.wires }
{
    let ThreadedRun { made, wires } = run;
    (made.report, wires)
}

// The setting of so many nodes with these options, where all is in range.
fn check(nodes: u32, options: &Options) -> Result<Setting, RunFault>
    ensures { MatchResult result
        (λ setting. (setting.nodes.count ≡ nodes) × (options_of setting ≡ options.now)
        × AreNodes nodes × AreSteps options.now.steps)
        (λ fault. ((fault ≡ RunFault.BadNodes) × ¬ AreNodes nodes)
        ⊎ ((fault ≡ RunFault.BadSteps) × AreNodes nodes × ¬ AreSteps options.now.steps)) }
{
    match setting_of(nodes, options) {
        Ok(setting) => Ok(setting),
        Err(SimFault::BadNodes) => Err(RunFault::BadNodes),
        // Nothing else is looked at.
        Err(_) => Err(RunFault::BadSteps),
    }
}
