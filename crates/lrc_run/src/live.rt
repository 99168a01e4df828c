// The run of a program whose nodes are on threads.

ghost use Rattle.std.specs.Prelude.{◌≡◌, IfErr, IfOk, length, true};
ghost use Rattle.lrc_protocol.specs.Run.{turns_of_logs};
ghost use Rattle.lrc_envelope.specs.declared.picker.Picker.{Picker as AnyPicker};
ghost use Rattle.lrc_post.specs.Post.{AreOf};
ghost use Rattle.lrc_threads.specs.Threads.{HaveNoFailure};
ghost use Rattle.lrc_weave.specs.Logs.{AreLogs};
ghost use Rattle.lrc_node.specs.Options.{options_of};
ghost use Rattle.lrc_run.specs.Halts.{AreLeft, IsHalt};
ghost use Rattle.lrc_run.specs.Run.{AreWhole, IsThreadedRun, Reports};

use crate::failure::halt_at;
use crate::halt::{Halt, Left};
use crate::told::{ToldRun, told};
use lrc_envelope::Picker;
use lrc_exec::code::Code;
use lrc_post::{Post, Wires};
use lrc_program::Program;
use lrc_setting::setting::Setting;
use lrc_threads::{Gate, Parts, first_failure, parts_of, pasts_of};
use lrc_weave::WeaveFault;
use lrc_world::keep::Keep;
use lrc_world::report::Report;
use lrc_world::run::Run;
use std::alloc::{AllocError, Global};
use std::sync::Wait;
use std::thread::Threads;

/// A run on threads.
#[derive(Drop)]
pub struct ThreadedRun {
    /// The run that the nodes made. Its events make their turns, put into one order by their stamps.
    pub made: Run,
    /// The mailboxes of the post between the nodes, with their histories.
    pub wires: Wires,
}

/// Runs a program with each node on a separate thread, and a post between them. `picker` chooses which of its messages
/// a node is given next. Before each of its turns a node passes the gate (tested, not proved). The run keeps all turns
/// of its nodes, and whatever else `keep` says.
///
/// If there is no report, the error tells why, and, unless memory ran out before or after the threads, it hands back
/// what is left of the nodes. The lowest node that failed wore out, as the turns tell, or had no memory. Or the turns do
/// not tell why it wore out. Or no node failed, and the turns and the mailboxes' histories are not one run to its end.
pub fn run_on_threads<G: Gate + Sync, R: Threads + Wait + Sync>(
    rt: &R,
    alloc: Global,
    program: &Program,
    setting: &Setting,
    picker: Picker,
    keep: Keep,
    gate: &G,
) -> Result<ThreadedRun, Halt>
    ensures run { IfOk result (λ run. IsThreadedRun program.now setting.now.nodes.count
        (options_of setting.now) picker keep run.made run.wires) }
    ensures halt { IfErr result (IsHalt program.now setting.now.nodes.count
        (options_of setting.now) picker) }
{
    let (parts, wires) = live(rt, alloc, program, setting, picker, gate)?;
    match first_failure(parts.stops.as_slice()) {
        None => finished(alloc, program, setting, keep, parts, wires),
        Some(failure) => Err(halt_at(alloc, program, setting, left_of(parts, wires), failure)),
    }
}

// The turns of all nodes, their traces, whether any of them would go on, and why their threads stopped; and what the post between them
// kept.
fn live<G: Gate + Sync, R: Threads + Wait + Sync>(
    rt: &R,
    alloc: Global,
    program: &Program,
    setting: &Setting,
    picker: Picker,
    gate: &G,
) -> Result<(Parts, Wires), AllocError>
    ensures left { IfOk result (λ lived. AreLeft program.now setting.now.nodes.count
        (options_of setting.now) picker
        (turns_of_logs lived.0.logs.items) lived.0.stops.items lived.1) }
    ensures whole { IfOk result (λ lived. HaveNoFailure lived.0.stops.items
        → AreWhole program.now setting.now.nodes.count (options_of setting.now)
        (turns_of_logs lived.0.logs.items) lived.0.traces.items lived.0.is_any_ready) }
{
    let post = Post::new(alloc, setting.nodes.number(), picker)?;
    let code = Code::new(alloc, program)?;
    let pasts = pasts_of(rt, alloc, program, setting, &code, &post, gate)?;
    let wires = post.into_wires();
    let parts = parts_of(alloc, pasts)?;
    Ok((parts, wires))
}

// The run of nodes none of whose threads failed, if what they left tells of one to its end.
fn finished(
    alloc: Global,
    program: &Program,
    setting: &Setting,
    keep: Keep,
    parts: Parts,
    wires: Wires,
) -> Result<ThreadedRun, Halt>
    requires turns { AreLogs program.now setting.now.nodes.count (options_of setting.now)
        (turns_of_logs parts.logs.items) }
    requires mailboxes { length wires ≡ setting.now.nodes.count }
    requires unfailed { HaveNoFailure parts.stops.items }
    requires whole { AreWhole program.now setting.now.nodes.count (options_of setting.now)
        (turns_of_logs parts.logs.items) parts.traces.items parts.is_any_ready }
    ensures run { (picker : AnyPicker) → AreOf picker wires
        → IfOk result (λ run. IsThreadedRun program.now setting.now.nodes.count
        (options_of setting.now) picker keep run.made run.wires) }
    ensures halt { (picker : AnyPicker) → AreLeft program.now setting.now.nodes.count
        (options_of setting.now) picker
        (turns_of_logs parts.logs.items) parts.stops.items wires
        → IfErr result (IsHalt program.now setting.now.nodes.count (options_of setting.now)
        picker) }
{
    let kept = keep.with_turns();
    match told(alloc, program, setting, kept, &parts, wires.mailboxes()) {
        Ok(told) => Ok(reported(parts, wires, told)),
        Err(WeaveFault::Mismatch) => Err(Halt::Mismatch(left_of(parts, wires))),
        Err(WeaveFault::NoMemory) => Err(Halt::NoMemory),
    }
}

// The run whose nodes left these turns, with what is told beside them.
fn reported(parts: Parts, wires: Wires, told: ToldRun) -> ThreadedRun
    ensures report { Reports (turns_of_logs parts.logs.items) told result.made.report }
    ensures events { result.made.events ≡ told.events }
    ensures turned { result.made.turned ≡ told.turned }
    ensures origins { result.made.origins ≡ told.origins }
    ensures over { result.made.is_over ≡ true }
    ensures wires { result.wires ≡ wires }
{
    let ToldRun {
        events,
        turned,
        origins,
        acts,
        ends,
        races,
        first_race,
    } = told;
    let report = Report {
        acts,
        ends,
        races,
        logs: parts.logs,
        first_race,
    };
    let made = Run {
        events,
        turned,
        origins,
        is_over: true,
        report,
    };
    ThreadedRun { made, wires }
}

// What is handed back of what the nodes left.
fn left_of(parts: Parts, wires: Wires) -> Left
    ensures logs { result.logs ≡ parts.logs }
    ensures stops { result.stops ≡ parts.stops }
    ensures wires { result.wires ≡ wires }
{
    let Parts { logs, stops, .. } = parts;
    Left { logs, stops, wires }
}
