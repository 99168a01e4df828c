// What is told of a run by what its nodes left.

ghost use Rattle.std.specs.Prelude.{◌≡◌, ◌<◌, ◌≤◌, ◌↔◌, ℕ, [], All, Any, Err, IfOk, IsTrue, MatchOption, OnOk, false, length};
ghost use Rattle.lrc_protocol.specs.Run.{turns_of_logs};
ghost use Rattle.lrc_trace.specs.Conflict.{IsFirstRace, IsRaceFree};
ghost use Rattle.lrc_judge.specs.declared.TheConstants.{NODES};
ghost use Rattle.lrc_race.specs.Races.{AreRacesOf, AreTracesOf};
ghost use Rattle.lrc_post.specs.Mailbox.{IsAllGiven};
ghost use Rattle.lrc_weave.specs.declared.fault.WeaveFault.TheVariants.{Mismatch};
ghost use Rattle.lrc_weave.specs.Logs.{AreLogs};
ghost use Rattle.lrc_weave.specs.Matched.{AreMatched};
ghost use Rattle.lrc_program.specs.declared.Program.{Program as AnyProgram};
ghost use Rattle.lrc_protocol.specs.Node.{OptionsRecord};
ghost use Rattle.lrc_world.specs.Ends.{ends_of};
ghost use Rattle.lrc_world.specs.Turned.{HaveLogs, turned_of, when_all};
ghost use Rattle.lrc_node.specs.Options.{options_of};
ghost use Rattle.lrc_run.specs.Run.{AreWhole, IsTold, IsUntold};

use lrc_log::Entry;
use lrc_node::End;
use lrc_post::Mailbox;
use lrc_program::Program;
use lrc_protocol::Event;
use lrc_race::races;
use lrc_setting::setting::{Nodes, Setting};
use lrc_threads::Parts;
use lrc_trace::act::Act;
use lrc_trace::race::Race;
use lrc_trace::trace::Trace;
use lrc_weave::{WeaveFault, WovenRun, weave_run};
use lrc_world::ends::ends;
use lrc_world::first::first_of;
use lrc_world::keep::Keep;
use lrc_world::origins::{Origins, origins_of};
use lrc_world::turned::{Turned, turned_events};
use std::alloc::{AllocError, Global};

/// What is reported of a run, except the turns of its nodes.
#[derive(Drop)]
pub(crate) struct ToldRun {
    pub events: Vec<Event>,
    pub turned: Vec<Turned>,
    pub origins: Origins,
    pub acts: Vec<Act>,
    pub ends: Vec<End>,
    pub races: Vec<Race>,
    pub first_race: Option<usize>,
}

// What is found in the acts of a run and in the traces of its nodes.
#[derive(Drop)]
struct Findings {
    ends: Vec<End>,
    races: Vec<Race>,
    first_race: Option<usize>,
}

/// Returns what is reported of the nodes' turns, and the events that make them; if all is kept, also their nodes, and
/// where the acts come from. No event is played again: the acts are those of the turns, and the races those of the
/// nodes' traces. It fails with `Mismatch` only if the mailboxes' histories do not agree with the turns, or something
/// was left to do or to give.
pub(crate) fn told(
    alloc: Global,
    program: &Program,
    setting: &Setting,
    keep: Keep,
    parts: &Parts,
    wires: &[Mailbox],
) -> Result<ToldRun, WeaveFault>
    requires turns { AreLogs program.now setting.now.nodes.count (options_of setting.now)
        (turns_of_logs parts.now.logs.items) }
    requires whole { AreWhole program.now setting.now.nodes.count (options_of setting.now)
        (turns_of_logs parts.now.logs.items) parts.now.traces.items
        parts.now.is_any_ready }
    requires wires { length wires.now ≡ setting.now.nodes.count }
    ensures told { IfOk result (IsTold program.now setting.now.nodes.count
        (options_of setting.now) keep
        (turns_of_logs parts.now.logs.items)) }
    ensures matched { OnOk result (AreMatched (turns_of_logs parts.now.logs.items)
        wires.now) }
    ensures taken { OnOk result (All IsAllGiven wires.now) }
    ensures mismatch { result ≡ Err Mismatch → IsUntold program.now setting.now.nodes.count
        (options_of setting.now)
        (turns_of_logs parts.now.logs.items) wires.now }
{
    let logs = parts.logs.as_slice();
    let run = weave_run(alloc, logs, wires)?;
    if parts.is_any_ready || run.in_flight > 0 || !are_all_given(wires) {
        return Err(WeaveFault::Mismatch);
    }
    let acts = run.acts.as_slice();
    let traces = parts.traces.as_slice();
    let found = findings_of(alloc, setting.nodes, acts, traces)?;
    let events = run.events.as_slice();
    let turned = turned_if(alloc, keep, logs, events)?;
    let nodes = setting.nodes.number();
    let origins = origins_of(alloc, keep, program, nodes, logs, &turned, acts)?;
    Ok(with_findings(run, turned, origins, found))
}

// The turns that the events of a run make, where all is kept of it.
fn turned_if(
    alloc: Global,
    keep: Keep,
    logs: &[Vec<Entry>],
    events: &[Event],
) -> Result<Vec<Turned>, AllocError>
    ensures { IfOk result (λ turned. (program : AnyProgram) (nodes : ℕ) (options : OptionsRecord)
        → nodes ≤ 256
        → HaveLogs program nodes options events.now (turns_of_logs logs.now)
        → turned.items ≡ when_all keep (turned_of program nodes options events.now)) }
{
    match keep {
        Keep::All => turned_events(alloc, logs, events),
        Keep::Newest | Keep::Turns => Ok(Vec::new(alloc)),
    }
}

// Whether nothing is in flight in any mailbox.
fn are_all_given(wires: &[Mailbox]) -> bool
    ensures all { IsTrue result ↔ All IsAllGiven wires.now }
    ensures left { result ≡ false → Any (λ mailbox. IsAllGiven mailbox → ⊥) wires.now }
{
    wires.iter().all(|mailbox| mailbox.is_empty())
}

// How the nodes ended, and the races.
fn findings_of(
    alloc: Global,
    nodes: Nodes,
    acts: &[Act],
    traces: &[Trace],
) -> Result<Findings, AllocError>
    requires acts { All (λ act. act.node < NODES) acts.now }
    requires traces { AreTracesOf nodes.count traces.now }
    requires raceless { AreRacesOf traces.now [] → IsRaceFree acts.now }
    ensures ends { IfOk result (λ found. found.ends.items ≡ ends_of nodes.count acts.now) }
    ensures races { IfOk result (λ found. AreRacesOf traces.now found.races.items) }
    ensures first { IfOk result (λ found. MatchOption found.first_race (IsRaceFree acts.now)
        (IsFirstRace acts.now)) }
{
    let ends = ends(alloc, nodes.number(), acts)?;
    let races = races(alloc, traces)?;
    let first_race = first_of(alloc, races.as_slice(), acts)?;
    Ok(Findings {
        ends,
        races,
        first_race,
    })
}

// A run with the turns that its events make, where its acts come from, and what is found in it.
fn with_findings(run: WovenRun, turned: Vec<Turned>, origins: Origins, found: Findings) -> ToldRun
    ensures events { result.events ≡ run.events }
    ensures turned { result.turned ≡ turned }
    ensures origins { result.origins ≡ origins }
    ensures acts { result.acts ≡ run.acts }
    ensures ends { result.ends ≡ found.ends }
    ensures races { result.races ≡ found.races }
    ensures first { result.first_race ≡ found.first_race }
{
    let WovenRun { events, acts, .. } = run;
    let Findings {
        ends,
        races,
        first_race,
    } = found;
    ToldRun {
        events,
        turned,
        origins,
        acts,
        ends,
        races,
        first_race,
    }
}
