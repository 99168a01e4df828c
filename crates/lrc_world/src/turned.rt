// The turns that the events of a run make.

ghost use Rattle.std.specs.Prelude.{◌≡◌, ◌++◌, ◌≤◌, ℕ, [], List, Some, IfOk, OnOk, length, map, option_map, replicate};
ghost use Rattle.lrc_program.specs.declared.Program.{Program};
ghost use Rattle.lrc_log.specs.Input.{seen_input};
ghost use Rattle.lrc_protocol.specs.declared.event.Event.{Event as AnyEvent};
ghost use Rattle.lrc_protocol.specs.declared.event.Event.TheVariants as events;
ghost use Rattle.lrc_protocol.specs.Node.{OptionsRecord};
ghost use Rattle.lrc_protocol.specs.Run.{EntryRecord, World as Run, run_of, turns_of_logs};
ghost use Rattle.lrc_world.specs.declared.report.Report.{Report as AnyReport};
ghost use Rattle.lrc_world.specs.Report.{IsReportOf};
ghost use Rattle.lrc_world.specs.Turned.{AreAllTurned, HaveLogs, events_in, turned_by, turned_of};
ghost use Rattle.lrc_world.specs.Walk.{Leads, come_after, come_with, flight_with, is_run, flight_after, next_turner, receivers_of};
ghost use Rattle.lrc_protocol.specs.Follows.{next_entry};

use lrc_envelope::Envelope;
use lrc_log::{Entry, Input};
use lrc_protocol::Event;
use std::alloc::{AllocError, Global};
use std::collections::VecDeque;
use std::marker::Model;

/// An event of a run that was not skipped, with the node that made the turn.
#[derive(Clone, Copy, Debug, PartialEq, Eq)]
pub struct Turned {
    pub event: Event,
    pub node: u8,
}

/// Returns the events of a run that were not skipped, in order, each with the node that made the turn. `logs` must be
/// those of the run of these events: the turns of each node, from node 0 up.
pub fn turned_events(
    alloc: Global,
    logs: &[Vec<Entry>],
    events: &[Event],
) -> Result<Vec<Turned>, AllocError>
    ensures { IfOk result (λ turned. (program : Program) (nodes : ℕ) (options : OptionsRecord)
        → nodes ≤ 256
        → HaveLogs program nodes options events.now (turns_of_logs logs.now)
        → turned.items ≡ turned_of program nodes options events.now) }
{
    let mut walk = Walk::new(alloc, logs.len())?;
    let mut turned = Vec::new(alloc);
    for event in events {
        let node = walk.step(logs, *event)?;
        note(&mut turned, *event, node)?;
    }
    Ok(turned)
}

/// Skipped events may be left out: the other events of a run make the same run, with the same report, and none of them
/// is skipped.
pub fn skipped_events_may_be_left_out()
    ensures run { (program : Program) (nodes : ℕ) (options : OptionsRecord) (events : List AnyEvent)
        (run : Run)
        → run_of program nodes options events ≡ Some run
        → run_of program nodes options (events_in (turned_of program nodes options events))
        ≡ Some run }
    ensures report { (program : Program) (nodes : ℕ) (options : OptionsRecord)
        (events : List AnyEvent) (report : AnyReport)
        → IsReportOf program nodes options events report
        → IsReportOf program nodes options
        (events_in (turned_of program nodes options events)) report }
    ensures unskipped { (program : Program) (nodes : ℕ) (options : OptionsRecord)
        (events : List AnyEvent)
        → AreAllTurned program nodes options (events_in (turned_of program nodes options events)) }
{}

/// The turns of a run lead through its logs: the first turn of a node in the run is the first entry of its log, and so
/// on, up to the last entry of each log.
pub fn turns_lead_through_the_logs()
    ensures { (program : Program) (nodes : ℕ) (options : OptionsRecord) (events : List AnyEvent)
        (logs : List (List EntryRecord))
        → HaveLogs program nodes options events logs
        → Leads logs (replicate (length logs) 0) (turned_of program nodes options events) }
{}

// How far along the logs of a run a walk has come.
#[derive(Drop)]
struct Walk {
    // How many turns of each node have come.
    come: Vec<usize>,
    // The receivers of the messages in flight, oldest first.
    flight: VecDeque<u8>,
}

impl Walk {
    // Before any turn of so many nodes.
    fn new(alloc: Global, nodes: usize) -> Result<Walk, AllocError>
        ensures come { IfOk result (λ walk. walk.come.items ≡ replicate nodes 0) }
        ensures flight { IfOk result (λ walk. walk.flight.items ≡ []) }
    {
        Ok(Walk {
            come: vec![in alloc; 0usize; nodes]?,
            flight: VecDeque::new(alloc),
        })
    }

    // The node whose turn an event makes, past which the walk goes on; none where the event is skipped.
    fn step(&mut self, logs: &[Vec<Entry>], event: Event) -> Result<Option<u8>, AllocError>
        requires { length self.old.come.items ≡ length logs.now }
        ensures node { IfOk result (λ node. node
            ≡ next_turner (turns_of_logs logs.now) self.old.come.items
            self.old.flight.items event) }
        ensures come { IfOk result (λ node. self.new.come.items
            ≡ come_with (turns_of_logs logs.now) self.old.come.items node) }
        ensures flight { IfOk result (λ node. self.new.flight.items
            ≡ flight_with (turns_of_logs logs.now) self.old.come.items
            (flight_after self.old.flight.items event node) node) }
    {
        let turner = self.turner(logs, event);
        if let Some(node) = turner {
            self.pass(logs, usize::from(node))?;
        }
        Ok(turner)
    }

    // The node whose turn an event makes. What it takes is no more in flight, if it is not repeated.
    fn turner(&mut self, logs: &[Vec<Entry>], event: Event) -> Option<u8>
        requires { length self.old.come.items ≡ length logs.now }
        ensures node { result ≡ next_turner (turns_of_logs logs.now) self.old.come.items
            self.old.flight.items event }
        ensures come { self.new.come ≡ self.old.come }
        ensures flight { self.new.flight.items ≡ flight_after self.old.flight.items event result }
    {
        match event {
            Event::Run(node) => runner(logs, self.come.as_slice(), node),
            Event::Deliver(place) => self.flight.remove(place as usize),
            Event::Repeat(place) => self.flight.get(place as usize).copied(),
        }
    }

    // Goes on past the next turn of a node, if it has one.
    fn pass(&mut self, logs: &[Vec<Entry>], node: usize) -> Result<(), AllocError>
        requires { length self.old.come.items ≡ length logs.now }
        ensures come { OnOk result (self.new.come.items
            ≡ come_after self.old.come.items node
            (next_entry (turns_of_logs logs.now) self.old.come.items node)) }
        ensures flight { OnOk result (self.new.flight.items
            ≡ self.old.flight.items ++ receivers_of
            (next_entry (turns_of_logs logs.now) self.old.come.items node)) }
    {
        match pass_next(logs, &mut self.come, node)? {
            Some(entry) => send(&mut self.flight, entry.turn.out.as_slice()),
            None => Ok(()),
        }
    }
}

/// Goes on past the next turn of a node, if it has one, and returns that. `come` says how many turns of each node have
/// come.
pub(crate) fn pass_next<'l>(
    logs: &'l [Vec<Entry>],
    come: &mut Vec<usize>,
    node: usize,
) -> Result<Option<&'l Entry>, AllocError>
    requires { length come.old.items ≡ length logs.now }
    ensures entry { IfOk result (λ entry. option_map (λ entry. entry.now) entry
        ≡ next_entry (turns_of_logs logs.now) come.old.items node) }
    ensures come { OnOk result (come.new.items ≡ come_after come.old.items node
        (next_entry (turns_of_logs logs.now) come.old.items node)) }
{
    let Some(entry) = next_entry(logs, come.as_slice(), node) else {
        return Ok(None);
    };
    let Some(count) = come[node].checked_add(1) else {
        return Err(AllocError);
    };
    come[node] = count;
    Ok(Some(entry))
}

// Adds an event with the node whose turn it makes, if it makes one.
fn note(turned: &mut Vec<Turned>, event: Event, node: Option<u8>) -> Result<(), AllocError>
    ensures { OnOk result (turned.new.items ≡ turned.old.items ++ turned_by event node) }
{
    match node {
        Some(node) => turned.push(Turned { event, node })?,
        None => {}
    }
    Ok(())
}

// The next turn of a node, where so many of each node have come.
fn next_entry<'l>(logs: &'l [Vec<Entry>], come: &[usize], node: usize) -> Option<&'l Entry>
    requires { length come.now ≡ length logs.now }
    ensures { option_map (λ entry. entry.now) result
        ≡ next_entry (turns_of_logs logs.now) come.now node }
{
    if node < logs.len() {
        logs[node].get(come[node])
    } else {
        None
    }
}

// The node of this number, where its next turn is one that it makes by itself.
fn runner(logs: &[Vec<Entry>], come: &[usize], node: u32) -> Option<u8>
    requires { length come.now ≡ length logs.now }
    ensures { result ≡ next_turner (turns_of_logs logs.now) come.now [] (events.Run node) }
{
    let Ok(number) = u8::try_from(node) else {
        return None;
    };
    match next_entry(logs, come, node as usize) {
        Some(entry) if is_run(&entry.input) => Some(number),
        _ => None,
    }
}

// Whether an input names the node.
fn is_run(input: &Input) -> bool
    ensures { result ≡ is_run (seen_input input.now) }
{
    match input {
        Input::Run => true,
        Input::Taken(_) => false,
    }
}

// Puts messages in flight.
fn send(flight: &mut VecDeque<u8>, out: &[Envelope]) -> Result<(), AllocError>
    ensures { OnOk result (flight.new.items
        ≡ flight.old.items ++ map (λ envelope. envelope.to) out.now) }
{
    for envelope in out {
        flight.push_back(envelope.to)?;
    }
    Ok(())
}
