// A run of a program, in whichever order it goes on.

ghost use Rattle.std.specs.Prelude.{◌≡◌, ◌↔◌, ◌<◌, ◌≤◌, ◌++◌, ℕ, [], All, IfErr, IfOk, map, true};
ghost use Rattle.lrc_exec.specs.Nodes.{AreNodes};
ghost use Rattle.lrc_program.specs.declared.Program.{Program};
ghost use Rattle.lrc_protocol.specs.Node.{OptionsRecord};
ghost use Rattle.lrc_protocol.specs.Run.{World as AnyRun, fresh_world, turns_of_logs};
ghost use Rattle.lrc_race.specs.Races.{AreRacesOf, AreTracesOf};
ghost use Rattle.lrc_trace.specs.Conflict.{IsRaceFree};
ghost use Rattle.lrc_world.specs.declared.keep.Keep.{Keep};
ghost use Rattle.lrc_world.specs.Driven.{schedule_of};
ghost use Rattle.lrc_world.specs.Led.{WearsOut};
ghost use Rattle.lrc_world.specs.Origins.{AreOriginsOf};
ghost use Rattle.lrc_world.specs.Report.{IsKeptReport, IsOver, IsWornBy, IsWornFault};
ghost use Rattle.lrc_world.specs.Runs.{AreFollowed, AreLedToEnd, IsRun, IsRunBy, IsTurnFault, ShowsRun, WearsOutBehind};
ghost use Rattle.lrc_world.specs.World.{Starts, Shows};

use crate::keep::Keep;
use crate::lead::Lead;
use crate::origins::{Origins, origins_of};
use crate::report::{Report, TurnFault};
use crate::rounds::Driver;
use crate::turned::Turned;
use crate::world::World;
use lrc_envelope::Picker;
use lrc_exec::code::Code;
use lrc_node::{Options, options_of};
use lrc_program::Program;
use lrc_protocol::Event;
use lrc_setting::setting::Setting;
use std::alloc::{AllocError, Global};

/// The order in which a run goes on.
#[derive(Clone, Copy)]
pub enum Order<'e> {
    /// The order of these events. An event that names no ready node, and no message in flight that its receiver
    /// expects, is skipped.
    Events(&'e [Event]),
    /// The order in rounds. In each round every ready node, from 0 up, goes on once. Then as many messages are
    /// delivered as are in flight. The picker chooses each of them; with `Twice` a message stays in flight after its
    /// first delivery.
    Rounds(Picker),
    /// A random order, from this seed. The candidates for the next event are the turns of the ready nodes, ascending,
    /// and then the deliveries of the messages in flight, oldest first. The next SplitMix64 number, modulo the number
    /// of candidates, chooses one.
    Random(u64),
    /// The order of these events, and then on, led so: the rounds or the random order begin where the events end.
    Followed(&'e [Event], Lead),
}

/// A run of a program: its events and their result.
#[derive(Drop)]
pub struct Run {
    /// The events of the run, including skipped ones.
    pub events: Vec<Event>,
    /// The events that were not skipped, each with the node that made the turn; none unless all is kept.
    pub turned: Vec<Turned>,
    /// Where the acts come from; nothing unless all is kept.
    pub origins: Origins,
    /// Whether nothing is left to do after the events: no node is ready, and no message is in flight.
    pub is_over: bool,
    /// The result of the run.
    pub report: Report,
}

/// Runs a program in the given order. The logs in the result hold the turns that `keep` says. If it keeps all, the
/// result also has the events that made them, and the turn, the statement and the time of each act.
///
/// In rounds and at random the run goes on while a node is ready or a message is in flight, and there are fewer than
/// 100,000,000 events, those that were given left out.
pub fn run_in(
    alloc: Global,
    program: &Program,
    setting: &Setting,
    order: Order<'_>,
    keep: Keep,
) -> Result<Run, TurnFault>
    ensures run { IfOk result (IsRun program.now setting.now order.entry keep) }
    ensures fault { IfErr result (IsTurnFault program.now setting.now order.entry) }
{
    let nodes = setting.nodes.number();
    let options = options_of(setting);
    match order {
        Order::Events(events) => by_events(alloc, program, nodes, &options, events, keep),
        Order::Rounds(picker) => led(alloc, program, nodes, &options, Lead::Rounds(picker), keep),
        Order::Random(seed) => led(alloc, program, nodes, &options, Lead::Random(seed), keep),
        Order::Followed(events, lead) => {
            followed(alloc, program, nodes, &options, events, lead, keep)
        }
    }
}

// The run of these events.
//
// It is no part of its caller's frame, so that none of those who wait while the nodes are made has room for a node.
#[inline(never)]
fn by_events(
    alloc: Global,
    program: &Program,
    nodes: u8,
    options: &Options,
    events: &[Event],
    keep: Keep,
) -> Result<Run, TurnFault>
    requires { AreNodes nodes }
    ensures run { IfOk result (IsRunBy (λ played. played ≡ events.now) program.now nodes options.now
        keep) }
    ensures fault { IfErr result (IsWornFault (IsWornBy program.now nodes options.now events.now)) }
{
    let code = Code::new(alloc, program)?;
    let played = Vec::from_slice(alloc, events)?;
    let world = world_after(alloc, &code, nodes, options, events, keep)?;
    let run = run_shown(alloc, program, nodes, keep, world, played)?;
    Ok(run)
}

// The run that is led so.
fn led(
    alloc: Global,
    program: &Program,
    nodes: u8,
    options: &Options,
    lead: Lead,
    keep: Keep,
) -> Result<Run, TurnFault>
    requires { AreNodes nodes }
    ensures run { IfOk result (IsRunBy (AreLedToEnd
        (schedule_of nodes lead) program.now nodes options.now)
        program.now nodes options.now keep) }
    ensures fault { IfErr result (IsWornFault (WearsOut (schedule_of nodes lead)
        (fresh_world program.now nodes options.now))) }
{
    followed(alloc, program, nodes, options, &[], lead, keep)
}

// The run of these events that is then led so.
fn followed(
    alloc: Global,
    program: &Program,
    nodes: u8,
    options: &Options,
    before: &[Event],
    lead: Lead,
    keep: Keep,
) -> Result<Run, TurnFault>
    requires { AreNodes nodes }
    ensures run { IfOk result (IsRunBy (AreFollowed
        (schedule_of nodes lead) before.now program.now nodes options.now)
        program.now nodes options.now keep) }
    ensures fault { IfErr result (IsWornFault (WearsOutBehind
        (schedule_of nodes lead) before.now program.now nodes options.now)) }
{
    let code = Code::new(alloc, program)?;
    let world = world_after(alloc, &code, nodes, options, before, keep)?;
    led_on(alloc, program, nodes, lead, keep, before, world)
}

// The run of the events before, which the world shows, and of those that follow, led so.
#[inline(never)]
fn led_on(
    alloc: Global,
    program: &Program,
    nodes: u8,
    lead: Lead,
    keep: Keep,
    before: &[Event],
    world: World<'_>,
) -> Result<Run, TurnFault>
    requires nodes { AreNodes nodes }
    requires shown { (options : OptionsRecord)
        × ShowsRun keep program.now nodes options before.now world }
    ensures run { IfOk result (λ run. (options : OptionsRecord)
        → ShowsRun keep program.now nodes options before.now world.entry
        → IsRunBy (AreFollowed (schedule_of nodes lead) before.now program.now nodes options)
        program.now nodes options keep run) }
    ensures fault { IfErr result (λ fault. (options : OptionsRecord)
        → ShowsRun keep program.now nodes options before.now world.entry
        → IsWornFault (WearsOutBehind (schedule_of nodes lead) before.now program.now nodes options)
        fault) }
{
    let mut driver = Driver::new(alloc, world);
    driver.lead(nodes, lead)?;
    let Driver { world, events } = driver;
    let played = all_of(alloc, before, events)?;
    let run = run_shown(alloc, program, nodes, keep, world, played)?;
    Ok(run)
}

// The world after these events.
fn world_after<'c>(
    alloc: Global,
    code: &'c Code<'_>,
    nodes: u8,
    options: &Options,
    events: &[Event],
    keep: Keep,
) -> Result<World<'c>, TurnFault>
    requires few { nodes ≤ 16 }
    ensures shown { IfOk result (ShowsRun keep code.now nodes options.now events.now) }
    ensures fault { IfErr result (IsWornFault (IsWornBy code.now nodes options.now events.now)) }
{
    let world = World::new(alloc, code, nodes, options, keep)?;
    played(world, events)
}

// The world after these events, which it plays from the start of a program.
#[inline(never)]
fn played<'c>(mut world: World<'c>, events: &[Event]) -> Result<World<'c>, TurnFault>
    ensures shown { IfOk result (λ after. (keep : Keep) (program : Program) (nodes : ℕ)
        (options : OptionsRecord) → ShowsRun keep program nodes options [] world.entry
        → ShowsRun keep program nodes options events.now after) }
    ensures fault { IfErr result (λ fault. (keep : Keep) (program : Program) (nodes : ℕ)
        (options : OptionsRecord) → ShowsRun keep program nodes options [] world.entry
        → IsWornFault (IsWornBy program nodes options events.now) fault) }
{
    for event in events {
        world.play(*event)?;
    }
    Ok(world)
}

// The events before and those that follow.
fn all_of(alloc: Global, before: &[Event], more: Vec<Event>) -> Result<Vec<Event>, AllocError>
    ensures { IfOk result (λ all. all.items ≡ before.now ++ more.items) }
{
    if before.is_empty() {
        return Ok(more);
    }
    let mut all = Vec::from_slice(alloc, before)?;
    all.extend_from_slice(more.as_slice())?;
    Ok(all)
}

// The run of these events, which the world shows.
fn run_shown(
    alloc: Global,
    program: &Program,
    nodes: u8,
    keep: Keep,
    world: World<'_>,
    events: Vec<Event>,
) -> Result<Run, AllocError>
    requires nodes { AreNodes nodes }
    requires shown { (options : OptionsRecord)
        × ShowsRun keep program.now nodes options events.items world }
    ensures { IfOk result (λ run. (options : OptionsRecord)
        → ShowsRun keep program.now nodes options events.items world.entry
        → IsRunBy (λ played. played ≡ events.items) program.now nodes options keep run) }
{
    let run = run_after(alloc, program, nodes, keep, world, events)?;
    Ok(run)
}

// What came of these events, after which all stands so.
fn run_after(
    alloc: Global,
    program: &Program,
    nodes: u8,
    keep: Keep,
    world: World<'_>,
    events: Vec<Event>,
) -> Result<Run, AllocError>
    requires nodes { AreNodes nodes }
    requires acts { All (λ act. act.node < nodes) world.acts.items }
    requires traces { (nodes : ℕ) × AreTracesOf nodes (map (λ node. node.trace) world.nodes.items) }
    requires raceless { AreRacesOf (map (λ node. node.trace) world.nodes.items) []
        → IsRaceFree world.acts.items }
    ensures events { IfOk result (λ run. run.events ≡ events) }
    ensures turned { IfOk result (λ run. run.turned ≡ world.entry.turned) }
    ensures origins { IfOk result (λ run. AreOriginsOf keep program.now nodes
        (turns_of_logs run.report.logs.items) run.turned.items run.report.acts.items run.origins) }
    ensures over { IfOk result (λ run. (starts : Starts) (made : AnyRun)
        → Shows starts world.entry made
        → (run.is_over ≡ true) ↔ IsOver made) }
    ensures report { IfOk result (λ run. (starts : Starts) (made : AnyRun)
        → Shows starts world.entry made
        → IsKeptReport starts.keep run.report made) }
    ensures races { IfOk result (λ run.
        AreRacesOf (map (λ node. node.trace) world.entry.nodes.items) run.report.races.items) }
{
    let is_over = world.is_over();
    let (report, turned) = world.report()?;
    let origins = origins_of(
        alloc,
        keep,
        program,
        nodes,
        &report.logs,
        &turned,
        &report.acts,
    )?;
    Ok(Run {
        events,
        turned,
        origins,
        is_over,
        report,
    })
}
