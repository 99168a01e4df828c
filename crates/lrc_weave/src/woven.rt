// The weave of logs.

ghost use Rattle.std.specs.Prelude.{◌≡◌, ◌≤◌, ◌<◌, ◌+◌, ℕ, List, Err, IfOk, OnOk, length, map};
ghost use Rattle.lrc_program.specs.declared.Program.{Program};
ghost use Rattle.lrc_log.specs.Input.{seen_input};
ghost use Rattle.lrc_protocol.specs.Node.{OptionsRecord};
ghost use Rattle.lrc_protocol.specs.Run.{Flying, turns_of_logs};
ghost use Rattle.lrc_weave.specs.declared.fault.WeaveFault.TheVariants.{Mismatch};
ghost use Rattle.lrc_weave.specs.Events.{message_name, NotesTurn};
ghost use Rattle.lrc_weave.specs.Further.{AreWovenWith, AreWovenWithout};
ghost use Rattle.lrc_weave.specs.Logs.{AreLogs};
ghost use Rattle.lrc_weave.specs.Matched.{AreAlike, AreMatched};
ghost use Rattle.lrc_weave.specs.Sent.{AreTakesSent};
ghost use Rattle.lrc_weave.specs.Whole.{MakesRun};
ghost use Rattle.lrc_weave.specs.Woven.{AreWoven};

use crate::again::all_again;
use crate::compared::are_alike;
use crate::events::{MessageName, event_of, turn};
use crate::fault::WeaveFault;
use crate::order::{first_stamps, next_turn, stamp_at};
use crate::owner::are_all_own;
use lrc_log::{Entry, Input};
use lrc_post::Mailbox;
use lrc_protocol::Event;
use lrc_trace::act::Act;
use std::alloc::{AllocError, Global};

/// The run that logs make.
#[derive(Drop)]
pub struct WovenRun {
    /// Its events.
    pub events: Vec<Event>,
    /// Its acts, in order.
    pub acts: Vec<Act>,
    /// How many messages are in flight after it.
    pub in_flight: usize,
}

/// Returns the events that make all turns of the logs of a program's nodes, ordered by stamp, and among equal stamps by
/// node. The last take of a message is a delivery, and each take before it a repetition.
///
/// It fails with `Mismatch` exactly if, for some mailbox, the puts of a sender are not those of its log, or the takes
/// are not those of the owner's log, with their stamps and in their order. There is one mailbox for each node.
pub fn weave(
    alloc: Global,
    logs: &[Vec<Entry>],
    wires: &[Mailbox],
) -> Result<Vec<Event>, WeaveFault>
    requires few { length logs.now ≤ 16 }
    requires each { length wires.now ≡ length logs.now }
    ensures alike { IfOk result (λ events. AreAlike (turns_of_logs logs.now) wires.now) }
    ensures woven { IfOk result (λ events. (program : Program) (nodes : ℕ) (options : OptionsRecord)
        → AreLogs program nodes options (turns_of_logs logs.now)
        → (flight : List Flying) × AreWoven (turns_of_logs logs.now) events.items flight) }
    ensures mismatch { result ≡ Err Mismatch → AreAlike (turns_of_logs logs.now) wires.now
        → ⊥ }
{
    match woven_run(alloc, logs, wires) {
        Ok(run) => Ok(run.events),
        Err(fault) => Err(fault),
    }
}

/// Returns the run of the events that [`weave`] gives for these logs, read from the logs without playing an event. It
/// fails with `Mismatch` exactly if `weave` does, or if a mailbox does not hold its owner's takes and puts to itself in
/// the order in which its turns made them.
pub fn weave_run(
    alloc: Global,
    logs: &[Vec<Entry>],
    wires: &[Mailbox],
) -> Result<WovenRun, WeaveFault>
    requires few { length logs.now ≤ 16 }
    requires each { length wires.now ≡ length logs.now }
    ensures matched { IfOk result (λ run. AreMatched (turns_of_logs logs.now) wires.now) }
    ensures woven { IfOk result (λ run. (program : Program) (nodes : ℕ) (options : OptionsRecord)
        → AreLogs program nodes options (turns_of_logs logs.now)
        → (flight : List Flying) × AreWoven
        (turns_of_logs logs.now) run.events.items flight) }
    ensures makes { IfOk result (λ run. (program : Program) (nodes : ℕ) (options : OptionsRecord)
        → AreLogs program nodes options (turns_of_logs logs.now)
        → MakesRun program nodes options
        (turns_of_logs logs.now) run.events.items run.acts.items run.in_flight) }
    ensures mismatch { result ≡ Err Mismatch → AreMatched
        (turns_of_logs logs.now) wires.now → ⊥ }
{
    if !are_all_own(logs, wires) {
        return Err(WeaveFault::Mismatch);
    }
    woven_run(alloc, logs, wires)
}

// The same, however a node's takes stand among its puts to itself.
fn woven_run(alloc: Global, logs: &[Vec<Entry>], wires: &[Mailbox]) -> Result<WovenRun, WeaveFault>
    requires few { length logs.now ≤ 16 }
    requires each { length wires.now ≡ length logs.now }
    ensures alike { IfOk result (λ run. AreAlike (turns_of_logs logs.now) wires.now) }
    ensures woven { IfOk result (λ run. (program : Program) (nodes : ℕ) (options : OptionsRecord)
        → AreLogs program nodes options (turns_of_logs logs.now)
        → (flight : List Flying) × AreWoven
        (turns_of_logs logs.now) run.events.items flight) }
    ensures makes { IfOk result (λ run. (program : Program) (nodes : ℕ) (options : OptionsRecord)
        → AreLogs program nodes options (turns_of_logs logs.now)
        → MakesRun program nodes options
        (turns_of_logs logs.now) run.events.items run.acts.items run.in_flight) }
    ensures mismatch { result ≡ Err Mismatch → AreAlike (turns_of_logs logs.now) wires.now
        → ⊥ }
{
    if !are_alike(alloc, logs, wires)? {
        return Err(WeaveFault::Mismatch);
    }
    match run_of_logs(alloc, logs) {
        Ok(run) => Ok(whole(run)),
        // The logs match the mailboxes. Where they are those of a program's nodes, as they should be, each message was sent.
        Err(_fault) => Err(WeaveFault::NoMemory),
    }
}

/// Returns the events that make all turns of the logs of a program's nodes, in the order of [`weave`], if each message
/// that is taken was sent. It fails with `Mismatch` only if one was not: none of the logs sent it before.
pub fn events_of(alloc: Global, logs: &[Vec<Entry>]) -> Result<Vec<Event>, WeaveFault>
    requires few { length logs.now ≤ 16 }
    ensures woven { IfOk result (λ events. (program : Program) (nodes : ℕ) (options : OptionsRecord)
        → AreLogs program nodes options (turns_of_logs logs.now)
        → AreTakesSent (turns_of_logs logs.now)
        → (flight : List Flying) × AreWoven (turns_of_logs logs.now) events.items flight) }
    ensures mismatch { result ≡ Err Mismatch → (program : Program) (nodes : ℕ)
        (options : OptionsRecord)
        → AreLogs program nodes options (turns_of_logs logs.now)
        → AreTakesSent (turns_of_logs logs.now)
        → ⊥ }
{
    match run_of_logs(alloc, logs) {
        Ok(run) => Ok(run.events),
        Err(fault) => Err(fault),
    }
}

/// Returns the events that make all turns of the logs, as [`events_of`] does, followed by the event that makes one more
/// turn, from this input. If the input is a message, the event is its last delivery, and the turn is one of the
/// message's receiver, whatever `node` is. Otherwise this node goes on by itself. It fails with `Mismatch` only if a
/// message was taken that none of the logs sent before, or if the input is a message that is not in flight after all
/// turns.
pub fn events_with(
    alloc: Global,
    logs: &[Vec<Entry>],
    node: u8,
    input: &Input,
) -> Result<Vec<Event>, WeaveFault>
    requires few { length logs.now ≤ 16 }
    ensures woven { IfOk result (λ events. (program : Program) (nodes : ℕ) (options : OptionsRecord)
        → AreLogs program nodes options (turns_of_logs logs.now)
        → AreTakesSent (turns_of_logs logs.now)
        → AreWovenWith (turns_of_logs logs.now) node (seen_input input.now) events.items) }
    ensures mismatch { result ≡ Err Mismatch → (program : Program) (nodes : ℕ)
        (options : OptionsRecord)
        → AreLogs program nodes options (turns_of_logs logs.now)
        → AreTakesSent (turns_of_logs logs.now)
        → AreWovenWithout (turns_of_logs logs.now) (seen_input input.now) }
{
    let mut run = run_of_logs(alloc, logs)?;
    let event = event_of(&mut run.flight, node, input, false)?;
    run.events.push(event)?;
    Ok(run.events)
}

// The run that logs make, with what is in flight after it.
#[derive(Drop)]
struct LogRun {
    events: Vec<Event>,
    acts: Vec<Act>,
    flight: Vec<MessageName>,
}

// The run as others see it.
fn whole(run: LogRun) -> WovenRun
    ensures events { result.events ≡ run.events }
    ensures acts { result.acts ≡ run.acts }
    ensures flight { result.in_flight ≡ length run.flight.items }
{
    WovenRun {
        in_flight: run.flight.len(),
        events: run.events,
        acts: run.acts,
    }
}

// The run of these events.
fn run_of_logs(alloc: Global, logs: &[Vec<Entry>]) -> Result<LogRun, WeaveFault>
    requires few { length logs.now ≤ 16 }
    ensures woven { IfOk result (λ run. (program : Program) (nodes : ℕ) (options : OptionsRecord)
        → AreLogs program nodes options (turns_of_logs logs.now)
        → AreTakesSent (turns_of_logs logs.now)
        → (flight : List Flying) × AreWoven
        (turns_of_logs logs.now) run.events.items flight
        × (map (λ flying. message_name flying.envelope) flight ≡ run.flight.items)) }
    ensures makes { IfOk result (λ run. (program : Program) (nodes : ℕ) (options : OptionsRecord)
        → AreLogs program nodes options (turns_of_logs logs.now)
        → AreTakesSent (turns_of_logs logs.now)
        → MakesRun program nodes options
        (turns_of_logs logs.now) run.events.items run.acts.items
        (length run.flight.items)) }
    ensures mismatch { result ≡ Err Mismatch → (program : Program) (nodes : ℕ)
        (options : OptionsRecord)
        → AreLogs program nodes options (turns_of_logs logs.now)
        → AreTakesSent (turns_of_logs logs.now)
        → ⊥ }
{
    let again = all_again(alloc, logs)?;
    let mut come = vec![in alloc; 0usize; logs.len()]?;
    let mut stamps = first_stamps(alloc, logs)?;
    let mut flight = Vec::new(alloc);
    let mut events = Vec::new(alloc);
    let mut acts = Vec::new(alloc);
    while let Some(node) = next_turn(stamps.as_slice()) {
        let log = &logs[node];
        let place = come[node];
        let event = turn(&mut flight, node as u8, log, &again[node], place)?;
        events.push(event)?;
        note(&mut acts, log, place)?;
        let next = after(log, place);
        come[node] = next;
        stamps[node] = stamp_at(log, next);
    }
    Ok(LogRun {
        events,
        acts,
        flight,
    })
}

// Adds the act of the turn at a place of a log, if it made one.
fn note(acts: &mut Vec<Act>, log: &Vec<Entry>, place: usize) -> Result<(), AllocError>
    requires there { place < length log.now.items }
    ensures { OnOk result (NotesTurn log.now.items place acts.old.items acts.new.items) }
{
    match log[place].turn.act {
        Some(act) => acts.push(act)?,
        None => {}
    }
    Ok(())
}

// The place after one in a log.
fn after(log: &Vec<Entry>, place: usize) -> usize
    requires there { place < length log.now.items }
    ensures { result ≡ place + 1 }
{
    place + 1
}
