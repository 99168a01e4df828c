// The nodes of a run, and the messages in flight, played again event by event.

ghost use Rattle.std.specs.Prelude.{◌≡◌, ◌⊎◌, ◌<◌, ◌≤◌, ◌++◌, IfOk, OnOk, Some, false, length, option_map, remove, slice_get, true};
ghost use Rattle.lrc_node.specs.declared.fault.NodeFault.TheVariants.{NotReady, Unexpected};
ghost use Rattle.lrc_protocol.specs.Node.{Node as NodeRecord};
ghost use Rattle.lrc_protocol.specs.Run as log;
ghost use Rattle.lrc_protocol.specs.Run.{World, event_on, fresh_world};
ghost use Rattle.lrc_protocol.specs.Turn.{run_turn, take_turn};
ghost use Rattle.lrc_replay.specs.Replays.{Answers, AnswersAt, IsMade, IsReplay, TakesAt, left_behind, message_of, nodes_played, turner_of};

use lrc_envelope::Envelope;
use lrc_exec::code::Code;
use lrc_log::Turn;
use lrc_node::{Node, NodeFault, NodeState, Options};
use lrc_protocol::Event;
use std::alloc::{AllocError, Global};
use std::collections::VecDeque;

/// The nodes, and the messages in flight, oldest first.
#[derive(Drop)]
pub struct Replay<'c> {
    pub nodes: Vec<Node<'c>>,
    pub flight: VecDeque<Envelope>,
}

impl<'c> Replay<'c> {
    /// Creates all nodes at the start of a program, with no message in flight.
    pub fn start(
        alloc: Global,
        code: &'c Code<'_>,
        nodes: u8,
        options: &Options,
    ) -> Result<Replay<'c>, AllocError>
        requires few { nodes ≤ 16 }
        ensures { IfOk result (λ replay. IsReplay replay (fresh_world code.now nodes options.now)) }
    {
        let mut made = Vec::with_capacity(alloc, usize::from(nodes))?;
        for me in 0..nodes {
            // A `?` behind the call would have a copy of the node more on the stack.
            match Node::new(alloc, code, me, nodes, options) {
                Ok(node) => made.push(node)?,
                Err(fault) => return Err(fault),
            }
        }
        Ok(Replay {
            nodes: made,
            flight: VecDeque::new(alloc),
        })
    }

    /// Returns the state of a node, or none if it does not exist or has failed.
    pub fn state(&self, node: usize) -> Option<&NodeState<'c>>
        ensures { (world : World) → IsReplay self.now world
            → option_map (λ state. state.now) result
            ≡ option_map (λ l. l.node) (slice_get world.nodes node) }
    {
        if node < self.nodes.len() {
            self.nodes[node].state()
        } else {
            None
        }
    }

    /// Returns the message that an event names, or none if it is not in flight.
    pub fn message(&self, event: Event) -> Option<&Envelope>
        ensures { (world : World) → IsReplay self.now world
            → option_map (λ envelope. envelope.now) result ≡ message_of world event }
    {
        match event {
            Event::Run(_) => None,
            Event::Deliver(place) | Event::Repeat(place) => self.flight.get(place as usize),
        }
    }

    /// Returns the node that an event names, or the receiver of the message that it names.
    pub fn turner(&self, event: Event) -> Option<usize>
        ensures { (world : World) → IsReplay self.now world → result ≡ turner_of world event }
    {
        match event {
            Event::Run(node) => Some(node as usize),
            _ => Some(usize::from(self.message(event)?.to)),
        }
    }

    /// Makes the turn of an event and returns it, or none if the event makes none. What the turn sends is not in flight
    /// yet. It fails if memory runs out or a number would be too large; then the replay is of no further use.
    pub fn make(&mut self, event: Event) -> Result<Option<Turn>, AllocError>
        ensures { (world next : World) → IsReplay self.old world → event_on world event ≡ Some next
            → IfOk result (λ turn. IsMade world event next turn self.new) }
    {
        match event {
            Event::Run(node) => self.run(node as usize),
            Event::Deliver(place) => self.deliver(place as usize),
            Event::Repeat(place) => self.take(place as usize),
        }
    }

    /// Puts what a turn sends in flight. After an error the replay is of no further use.
    pub fn post(&mut self, out: Vec<Envelope>) -> Result<(), AllocError>
        ensures nodes { OnOk result (self.new.nodes ≡ self.old.nodes) }
        ensures flight { OnOk result (self.new.flight.items ≡ self.old.flight.items ++ out.items) }
    {
        for envelope in out {
            self.flight.push_back(envelope)?;
        }
        Ok(())
    }

    // The node goes on, if it is there and ready.
    fn run(&mut self, node: usize) -> Result<Option<Turn>, AllocError>
        ensures nodes { IfOk result (λ made. AnswersAt
            (nodes_played self.old.nodes.items) node log.run
            (slice_get (nodes_played self.old.nodes.items) node) made
            (nodes_played self.new.nodes.items)) }
        ensures flight { self.new.flight ≡ self.old.flight }
    {
        run_at(&mut self.nodes, node)
    }

    // The message at the place is taken, if it is there and expected. It is no more in flight then.
    fn deliver(&mut self, place: usize) -> Result<Option<Turn>, AllocError>
        ensures nodes { IfOk result (λ made. TakesAt (nodes_played self.old.nodes.items)
            (slice_get self.old.flight.items place)
            made (nodes_played self.new.nodes.items)) }
        ensures flight { IfOk result (λ made. self.new.flight.items
            ≡ left_behind self.old.flight.items place made) }
    {
        let turn = self.take(place)?;
        forget(&mut self.flight, place, turn.is_some());
        Ok(turn)
    }

    // The same, but the message stays in flight.
    fn take(&mut self, place: usize) -> Result<Option<Turn>, AllocError>
        ensures nodes { IfOk result (λ made. TakesAt (nodes_played self.old.nodes.items)
            (slice_get self.old.flight.items place)
            made (nodes_played self.new.nodes.items)) }
        ensures flight { self.new.flight ≡ self.old.flight }
    {
        match self.flight.get(place) {
            Some(envelope) => {
                let to = usize::from(envelope.to);
                take_at(&mut self.nodes, to, envelope)
            }
            None => Ok(None),
        }
    }
}

// A node goes on, if it is there and ready.
fn run_at(nodes: &mut Vec<Node<'_>>, node: usize) -> Result<Option<Turn>, AllocError>
    ensures { IfOk result (λ made. AnswersAt (nodes_played nodes.old.items) node log.run
        (slice_get (nodes_played nodes.old.items) node) made (nodes_played nodes.new.items)) }
{
    if node < nodes.len() {
        run_node(&mut nodes[node])
    } else {
        Ok(None)
    }
}

// The receiver of a message takes it, if it is there and expects it.
fn take_at(
    nodes: &mut Vec<Node<'_>>,
    to: usize,
    envelope: &Envelope,
) -> Result<Option<Turn>, AllocError>
    ensures { IfOk result (λ made. AnswersAt (nodes_played nodes.old.items) to
        (log.taken envelope.now)
        (slice_get (nodes_played nodes.old.items) to) made (nodes_played nodes.new.items)) }
{
    if to < nodes.len() {
        take_node(&mut nodes[to], envelope)
    } else {
        Ok(None)
    }
}

// A node goes on, if it is ready. One that fails has no memory, where the run was made before.
fn run_node(node: &mut Node<'_>) -> Result<Option<Turn>, AllocError>
    ensures { (was : NodeRecord) → node.old.node ≡ Some was
        → IfOk result (λ made. Answers (run_turn was) was made node.new.node) }
{
    match node.run() {
        Ok(turn) => Ok(Some(turn)),
        Err(fault) => {
            refused(fault)?;
            Ok(None)
        }
    }
}

// A node takes a message, if it expects it. One that fails has no memory, where the run was made before.
fn take_node(node: &mut Node<'_>, envelope: &Envelope) -> Result<Option<Turn>, AllocError>
    ensures { (was : NodeRecord) → node.old.node ≡ Some was
        → IfOk result (λ made. Answers (take_turn was envelope.now) was made node.new.node) }
{
    match node.take(envelope) {
        Ok(turn) => Ok(Some(turn)),
        Err(fault) => {
            refused(fault)?;
            Ok(None)
        }
    }
}

// A node that answers this has not failed.
fn refused(fault: NodeFault) -> Result<(), AllocError>
    ensures { OnOk result ((fault ≡ NotReady) ⊎ (fault ≡ Unexpected)) }
{
    match fault {
        NodeFault::NotReady | NodeFault::Unexpected => Ok(()),
        _ => Err(AllocError),
    }
}

// Takes the message at the place out of flight, if it was taken.
fn forget(flight: &mut VecDeque<Envelope>, place: usize, is_taken: bool)
    ensures kept { is_taken ≡ false → flight.new ≡ flight.old }
    ensures removed { is_taken ≡ true → place < length flight.old.items
        → flight.new.items ≡ remove flight.old.items place }
{
    if is_taken {
        let _taken = flight.remove(place);
    }
}
