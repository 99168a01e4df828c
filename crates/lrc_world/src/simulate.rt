// Runs of a program by numbers that may be out of range: by a list of events, in rounds or in a random order.

ghost use Rattle.std.specs.Prelude.{◌≡◌, ◌<◌, ◌≤◌, ◌↔◌, length, IfOk, Err};
ghost use Rattle.lrc_judge.specs.Races.{AreNamedRaces};
ghost use Rattle.lrc_exec.specs.Nodes.{AreNodes};
ghost use Rattle.lrc_setting.specs.Ranges.{AreSteps};
ghost use Rattle.lrc_world.specs.Random.{IsWandering, WanderingWearsOut};
ghost use Rattle.lrc_world.specs.Promises.{AreKept};
ghost use Rattle.lrc_world.specs.Report.{AreAll, IsReportOf, IsWornBy, WearsOutEarly};
ghost use Rattle.lrc_world.specs.Rounds.{AreRounds, RoundsWearOut};
ghost use Rattle.lrc_world.specs.Runs.{IsRunIn, WearsOutIn};
ghost use Rattle.lrc_world.specs.Turned.{AreAllTurned};

use crate::keep::Keep;
use crate::report::{Report, SimFault};
use crate::run::{Order, Run, run_in};
use crate::setting::setting_of;
use lrc_envelope::Picker;
use lrc_node::Options;
use lrc_program::Program;
use lrc_protocol::Event;
use std::alloc::Global;

/// Runs a program by these events. An event that names no ready node, and no message in flight that its receiver
/// expects, is skipped.
///
/// At each moment of the run each message in flight is from one of the nodes and for one of them. The receiver does not
/// refuse it, whatever the kinds and the order of the messages that come. Each lock's token is in one place. At each
/// access the node's vector time covers exactly what happens before the access. No turn of the run sends a message that
/// is too long.
///
/// The sequential-consistency theorem is among the promises. If program, lock and barrier order leave no two
/// conflicting accesses unordered, the plain machine, led by the order of the acts, makes the same acts. Every run is
/// plain up to its first race. If no order gives the plain machine a race, no run has one.
///
/// It fails with `BadNodes` first and `BadSteps` next, if a number is out of range. Later it fails with `Worn` or
/// `NoMemory`.
pub fn simulate(
    alloc: Global,
    program: &Program,
    nodes: u32,
    options: &Options,
    events: &[Event],
) -> Result<Report, SimFault>
    ensures report { IfOk result (IsReportOf program.now nodes options.now events.now) }
    ensures races { IfOk result (λ report. AreNamedRaces report.acts.items report.races.items) }
    ensures kept { IfOk result (λ report. AreKept program.now nodes options.now events.now
        report.acts.items report.ends.items) }

    ensures worn { result ≡ Err SimFault.Worn → IsWornBy program.now nodes options.now events.now }
    ensures bad_nodes { (result ≡ Err SimFault.BadNodes) ↔ (¬ AreNodes nodes) }
    ensures bad_steps { (result ≡ Err SimFault.BadSteps)
        ↔ (AreNodes nodes × ¬ AreSteps options.now.steps) }
{
    let order = Order::Events(events);
    match run_checked(alloc, program, nodes, options, order, Keep::Turns) {
        Ok(run) => Ok(run.report),
        Err(fault) => Err(fault),
    }
}

/// Runs a program in rounds. In each round every ready node, from 0 up, goes on once. Then as many messages are
/// delivered as are in flight. `picker` chooses each of them; with `Twice` a message stays in flight after its first
/// delivery. The run ends after a round with no event, or at 100,000,000 events. Returns the events, none of which is
/// skipped, and the report that [`simulate`] gives for them. The errors are those of [`simulate`].
pub fn drive(
    alloc: Global,
    program: &Program,
    nodes: u32,
    options: &Options,
    picker: Picker,
) -> Result<(Vec<Event>, Report), SimFault>
    ensures report { IfOk result (λ done. IsReportOf program.now nodes options.now done.0.items
        done.1) }
    ensures rounds { IfOk result (λ done. AreRounds program.now nodes options.now picker
        done.0.items) }
    ensures unskipped { IfOk result (λ done. AreAllTurned program.now nodes options.now
        done.0.items) }
    ensures races { IfOk result (λ done. AreNamedRaces done.1.acts.items done.1.races.items) }
    ensures kept { IfOk result (λ done. AreKept program.now nodes options.now done.0.items
        done.1.acts.items done.1.ends.items) }

    // Unless there are 100,000,000 events, no node is ready and no message is in flight after them.
    ensures few { IfOk result (λ done. length done.0.items ≤ 100000000) }
    ensures over { IfOk result (λ done. length done.0.items < 100000000
        → AreAll program.now nodes options.now done.0.items) }
    ensures worn { result ≡ Err SimFault.Worn → WearsOutEarly program.now nodes options.now }
    ensures worn_rounds { result ≡ Err SimFault.Worn
        → RoundsWearOut program.now nodes options.now picker }
    ensures bad_nodes { (result ≡ Err SimFault.BadNodes) ↔ (¬ AreNodes nodes) }
    ensures bad_steps { (result ≡ Err SimFault.BadSteps)
        ↔ (AreNodes nodes × ¬ AreSteps options.now.steps) }
{
    let order = Order::Rounds(picker);
    match run_checked(alloc, program, nodes, options, order, Keep::Turns) {
        Ok(run) => Ok((run.events, run.report)),
        Err(fault) => Err(fault),
    }
}

/// Runs a program in a random order, while a node is ready or a message is in flight, and there are fewer than
/// 100,000,000 events. The candidates for the next event are the turns of the ready nodes, ascending, and then the
/// deliveries of the messages in flight, oldest first. The next SplitMix64 number, modulo the number of candidates,
/// chooses one; the generator starts in the state `seed`. Returns the events, none of which is skipped, and the report
/// that [`simulate`] gives for them. The errors are those of [`simulate`].
pub fn wander(
    alloc: Global,
    program: &Program,
    nodes: u32,
    options: &Options,
    seed: u64,
) -> Result<(Vec<Event>, Report), SimFault>
    ensures report { IfOk result (λ done. IsReportOf program.now nodes options.now done.0.items
        done.1) }
    ensures wandering { IfOk result (λ done. IsWandering program.now nodes options.now seed
        done.0.items) }
    ensures unskipped { IfOk result (λ done. AreAllTurned program.now nodes options.now
        done.0.items) }
    ensures races { IfOk result (λ done. AreNamedRaces done.1.acts.items done.1.races.items) }
    ensures kept { IfOk result (λ done. AreKept program.now nodes options.now done.0.items
        done.1.acts.items done.1.ends.items) }

    // Unless there are 100,000,000 events, no node is ready and no message is in flight after them.
    ensures few { IfOk result (λ done. length done.0.items ≤ 100000000) }
    ensures over { IfOk result (λ done. length done.0.items < 100000000
        → AreAll program.now nodes options.now done.0.items) }
    ensures worn { result ≡ Err SimFault.Worn → WearsOutEarly program.now nodes options.now }
    ensures worn_wandering { result ≡ Err SimFault.Worn
        → WanderingWearsOut program.now nodes options.now seed }
    ensures bad_nodes { (result ≡ Err SimFault.BadNodes) ↔ (¬ AreNodes nodes) }
    ensures bad_steps { (result ≡ Err SimFault.BadSteps)
        ↔ (AreNodes nodes × ¬ AreSteps options.now.steps) }
{
    let order = Order::Random(seed);
    match run_checked(alloc, program, nodes, options, order, Keep::Turns) {
        Ok(run) => Ok((run.events, run.report)),
        Err(fault) => Err(fault),
    }
}

/// Runs a program as [`run_in`] does, with numbers that may be out of range. Only this call tests them.
pub fn run_checked(
    alloc: Global,
    program: &Program,
    nodes: u32,
    options: &Options,
    order: Order<'_>,
    keep: Keep,
) -> Result<Run, SimFault>
    ensures run { IfOk result (IsRunIn order.entry program.now nodes options.now keep) }
    ensures worn { result ≡ Err SimFault.Worn
        → WearsOutIn order.entry program.now nodes options.now }
    ensures bad_nodes { (result ≡ Err SimFault.BadNodes) ↔ (¬ AreNodes nodes) }
    ensures bad_steps { (result ≡ Err SimFault.BadSteps)
        ↔ (AreNodes nodes × ¬ AreSteps options.now.steps) }
{
    let setting = setting_of(nodes, options)?;
    let run = run_in(alloc, program, &setting, order, keep)?;
    Ok(run)
}
