// The nodes of a run that is played event by event, and where its acts have led them in the text.

ghost use Rattle.std.specs.Prelude.{◌≡◌, ◌↔◌, ◌∷◌, ◌++◌, ◌≤◌, ℕ, [], IfOk, IsTrue, List, MatchOption, OnOk, None, Some, length, option_map, position, if◌then◌else◌};
ghost use Rattle.std.specs.Option.{option_to_list};
ghost use Rattle.lrc_program.specs.declared.Program.{Program};
ghost use Rattle.lrc_trace.specs.declared.act.Act.{Act as AnyAct};
ghost use Rattle.lrc_lines.specs.Seen.{walks_of};
ghost use Rattle.lrc_lines.specs.Statements.{act_statements, numbers_of};
ghost use Rattle.lrc_lines.specs.Walks.{walks_behind};
ghost use Rattle.lrc_need.specs.Wait.{seen_wait};
ghost use Rattle.lrc_protocol.specs.declared.event.Event.TheVariants.{Deliver, Run};
ghost use Rattle.lrc_protocol.specs.Run.{World, event_on, fresh_world};
ghost use Rattle.lrc_along.specs.Along.{NoneDue};
ghost use Rattle.lrc_along.specs.Due.{IsAtTurn, IsDue, event_for, has_begun_at, is_depart, is_midway, is_ready_at, lets_go, may_come, needs_message};
ghost use Rattle.lrc_explore_events.specs.Player.{IsPlayer};

use crate::asked::is_asked;
use lrc_envelope::{Envelope, Message};
use lrc_exec::code::Code;
use lrc_lines::walks::Walks;
use lrc_log::Turn;
use lrc_need::Wait;
use lrc_node::Options;
use lrc_protocol::Event;
use lrc_replay::Replay;
use lrc_trace::act::{Act, Deed};
use std::alloc::{AllocError, Global};
use std::collections::VecDeque;

/// The nodes with the messages in flight, where the acts so far have led each node in the text, how many acts there
/// are, and the events.
#[derive(Drop)]
pub(crate) struct Player<'c> {
    replay: Replay<'c>,
    walks: Walks<'c>,
    acts: usize,
    pub(crate) events: Vec<Event>,
}

impl<'c> Player<'c> {
    /// Creates all nodes at the start of a program whose statements have these numbers, with no message in flight.
    pub(crate) fn start(
        alloc: Global,
        code: &'c Code<'_>,
        numbers: &'c [u32],
        nodes: u8,
        options: &Options,
    ) -> Result<Player<'c>, AllocError>
        requires few { nodes ≤ 16 }
        requires numbers { numbers.now ≡ numbers_of code.now }
        ensures player { IfOk result (λ player. IsPlayer code.now nodes player
            (fresh_world code.now nodes options.now)) }
        ensures events { IfOk result (λ player. player.events.items ≡ []) }
    {
        let replay = Replay::start(alloc, code, nodes, options)?;
        let walks = Walks::start(alloc, code, numbers, nodes)?;
        Ok(Player {
            replay,
            walks,
            acts: 0,
            events: Vec::new(alloc),
        })
    }

    /// Plays an event that makes a turn, and notes it. It fails if memory runs out, if the event makes no turn, or if a
    /// number would be too large. Then the player is of no further use.
    pub(crate) fn play(&mut self, event: Event) -> Result<(), AllocError>
        ensures played { (program : Program) (nodes : ℕ) (world next : World)
            → IsPlayer program nodes self.old world → event_on world event ≡ Some next
            → OnOk result (IsPlayer program nodes self.new next) }
        ensures events { OnOk result (self.new.events.items
            ≡ self.old.events.items ++ event ∷ []) }
    {
        let Some(turn) = self.replay.make(event)? else {
            return Err(AllocError);
        };
        let Turn { act, out } = turn;
        self.replay.post(out)?;
        self.follow(act)?;
        self.events.push(event)?;
        Ok(())
    }

    // The act of a turn is done, if it makes one.
    fn follow(&mut self, act: Option<Act>) -> Result<(), AllocError>
        ensures walks { (program : Program) (nodes : ℕ) (lines : List ℕ) (before : List AnyAct)
            → walks_of self.old.walks ≡ walks_behind program nodes lines before
            → OnOk result (walks_of self.new.walks
            ≡ walks_behind program nodes lines (before ++ option_to_list act)) }
        ensures end { self.new.walks.end ≡ self.old.walks.end }
        ensures acts { (before : List AnyAct) → self.old.acts ≡ length before
            → OnOk result (self.new.acts ≡ length (before ++ option_to_list act)) }
        ensures replay { self.new.replay ≡ self.old.replay }
        ensures events { self.new.events ≡ self.old.events }
    {
        let Some(act) = act else {
            return Ok(());
        };
        let Some(acts) = self.acts.checked_add(1) else {
            return Err(AllocError);
        };
        self.acts = acts;
        self.walks.follow(&act)
    }

    /// Returns the event that is due in a run along an order of acts with these statements, or none if none is.
    pub(crate) fn due(&self, order: &[Act], statements: &[u32]) -> Result<Option<Event>, AllocError>
        ensures { (program : Program) (nodes : ℕ) (world : World)
            → IsPlayer program nodes self.now world
            → statements.now ≡ act_statements program nodes order.now
            → IfOk result (λ event. MatchOption event (NoneDue program nodes order.now world)
            (IsDue program nodes order.now world)) }
    {
        match self.turn(order, statements) {
            Some(act) => self.event_for(act),
            None => Ok(None),
        }
    }

    // The next act of the order, if its node is at its turn.
    fn turn(&self, order: &[Act], statements: &[u32]) -> Option<Act>
        ensures { (program : Program) (nodes : ℕ) (world : World)
            → IsPlayer program nodes self.now world
            → statements.now ≡ act_statements program nodes order.now
            → MatchOption result
            ((act : AnyAct) → ¬ IsAtTurn program nodes order.now world.acts act)
            (IsAtTurn program nodes order.now world.acts) }
    {
        let act = order.get(self.acts)?;
        let statement = statements.get(self.acts)?;
        if self.walks.line(act.node) == *statement && is_asked(self.walks.ask(act.node), act.deed) {
            Some(*act)
        } else {
            None
        }
    }

    // The event for an act whose node is at its turn, or none if the node is not ready, or needs a message and none may
    // come.
    fn event_for(&self, act: Act) -> Result<Option<Event>, AllocError>
        ensures { (program : Program) (nodes : ℕ) (world : World)
            → IsPlayer program nodes self.now world
            → IfOk result (λ event. event ≡ event_for world act) }
    {
        if self.needs_message(act) {
            delivery(&self.replay.flight, act.node)
        } else {
            Ok(self.going_on(act.node))
        }
    }

    // The event at which a node goes on, if it is ready.
    fn going_on(&self, node: u8) -> Option<Event>
        ensures { (program : Program) (nodes : ℕ) (world : World)
            → IsPlayer program nodes self.now world
            → result ≡ (if is_ready_at world node then Some (Run node) else None) }
    {
        if self.is_ready(usize::from(node)) {
            Some(Event::Run(u32::from(node)))
        } else {
            None
        }
    }

    // Whether a node is ready.
    fn is_ready(&self, node: usize) -> bool
        ensures { (program : Program) (nodes : ℕ) (world : World)
            → IsPlayer program nodes self.now world
            → result ≡ is_ready_at world node }
    {
        node < self.replay.nodes.len() && self.replay.nodes[node].ready()
    }

    // Whether its node needs a message to make the act.
    fn needs_message(&self, act: Act) -> bool
        ensures { (program : Program) (nodes : ℕ) (world : World)
            → IsPlayer program nodes self.now world
            → result ≡ needs_message world act }
    {
        is_depart(act.deed) || self.has_begun(usize::from(act.node))
    }

    // Whether a node has begun its next act.
    fn has_begun(&self, node: usize) -> bool
        ensures { (program : Program) (nodes : ℕ) (world : World)
            → IsPlayer program nodes self.now world
            → result ≡ has_begun_at world node }
    {
        match self.replay.state(node) {
            Some(state) => is_midway(state.mail().wait()),
            None => false,
        }
    }

    /// Returns whether no message is in flight.
    pub(crate) fn is_quiet(&self) -> bool
        ensures { (program : Program) (nodes : ℕ) (world : World)
            → IsPlayer program nodes self.now world → IsTrue result ↔ (world.flight ≡ []) }
    {
        self.replay.flight.is_empty()
    }
}

// Whether a deed is a depart.
fn is_depart(deed: Deed) -> bool
    ensures { result ≡ is_depart deed }
{
    matches!(deed, Deed::Depart)
}

// Whether a node that waits for this has begun its next act.
fn is_midway(wait: &Wait) -> bool
    ensures { result ≡ is_midway (seen_wait wait.now) }
{
    matches!(wait, Wait::Grant(_) | Wait::Access(_))
}

// The delivery of the oldest message that may come while this node is to make its act, if there is one. A place that does
// not fit in 32 bits is one for which there is no memory.
fn delivery(flight: &VecDeque<Envelope>, node: u8) -> Result<Option<Event>, AllocError>
    ensures { IfOk result (λ event. event
        ≡ option_map Deliver (position (may_come node) flight.now.items)) }
{
    let Some(place) = place_of(flight, node) else {
        return Ok(None);
    };
    match u32::try_from(place) {
        Ok(place) => Ok(Some(Event::Deliver(place))),
        Err(_) => Err(AllocError),
    }
}

// The place of that message.
fn place_of(flight: &VecDeque<Envelope>, node: u8) -> Option<usize>
    ensures { result ≡ position (may_come node) flight.now.items }
{
    flight.iter().position(|envelope| may_come(node, envelope))
}

// Whether a message may be delivered while this node is to make its act.
fn may_come(node: u8, envelope: &Envelope) -> bool
    ensures { result ≡ may_come node envelope.now }
{
    envelope.to == node || !lets_go(&envelope.message)
}

// Whether a message lets its receiver go on from a barrier.
fn lets_go(message: &Message) -> bool
    ensures { result ≡ lets_go message.now }
{
    matches!(message, Message::Depart(_) | Message::Discard(_))
}
