// A run that is played again, and the lines of its turns.

ghost use Rattle.std.specs.Prelude.{◌≡◌, ◌+◌, ◌≤◌, ◌++◌, All, IfOk, List, None, OnOk, Some, ℕ, codes, length, map, slice_get};
ghost use Rattle.std.specs.BTreeMap.{Updates};
ghost use Rattle.std.specs.Ordering.{nat_cmp};
ghost use Rattle.lrc_private_names.specs.Ways.{IsOnWay};
ghost use Rattle.lrc_protocol.specs.Run.{Logged, World, event_on, fresh_world};
ghost use Rattle.lrc_protocol.specs.Turn.{is_repeat};
ghost use Rattle.lrc_replay.specs.Replays.{IsReplay, message_of, turner_of};
ghost use Rattle.lrc_replay.specs.Turns.{turn_by};
ghost use Rattle.lrc_replay.specs.Acts.{Plan as AnyPlan};
ghost use Rattle.lrc_replay.specs.Courses.{IsCourse, plan_of};
ghost use Rattle.lrc_state_text.specs.Intervals.{stored_in};
ghost use Rattle.lrc_state_text.specs.Place.{named_seen};
ghost use Rattle.lrc_states.specs.Members.{stands_member, taken_parts};
ghost use Rattle.lrc_states.specs.Names.{names_behind};
ghost use Rattle.lrc_states.specs.Players.{AreKnown, IsPlayer, LeavesTurn, TellsTurn, message_or_null, take_members, was_taken};
ghost use Rattle.lrc_states.specs.States.{event_members, known_of, made_members, state_behind};
ghost use Rattle.lrc_trace.specs.declared.act.Act.{Act};

use crate::members::{MessageParts, did_members, parts_of, push_stands};
use crate::names::names_set;
use crate::told::Telling;
use crate::{push_act, push_envelope, push_envelopes, truth};
use lrc_envelope::Envelope;
use lrc_events::push_event;
use lrc_log::Turn;
use lrc_node::{NodeState, Options};
use lrc_protocol::Event;
use lrc_replay::{Course, Plan, Replay};
use lrc_state_text::{Known, NamedValue, Place, push_next_state, push_state};
use lrc_text::push_number;
use std::alloc::{AllocError, Global};
use std::collections::BTreeMap;

/// A run that is replayed: its state, and how many turns were made.
#[derive(Drop)]
pub(crate) struct Player<'c> {
    pub(crate) alloc: Global,
    pub(crate) plan: Plan<'c>,
    pub(crate) replay: Replay<'c>,
    pub(crate) course: Course<'c>,
    pub(crate) turns: u64,
    // What the nodes store that were told since the last turn that was not told.
    pub(crate) shown: BTreeMap<usize, Known>,
}

impl<'c> Player<'c> {
    /// Starts a replay, before any turn.
    pub(crate) fn start(
        alloc: Global,
        plan: Plan<'c>,
        options: &Options,
    ) -> Result<Player<'c>, AllocError>
        requires few { plan.nodes ≤ 16 }
        ensures on { IfOk result (λ player. All IsOnWay player.course.ways.items) }
        ensures player { IfOk result (IsPlayer (plan_of plan.entry)
            (fresh_world plan.entry.code.now plan.entry.nodes options.now) 0) }
    {
        Ok(Player {
            alloc,
            plan,
            replay: Replay::start(alloc, plan.code, plan.nodes, options)?,
            course: Course::start(alloc, plan)?,
            turns: 0,
            shown: BTreeMap::new(alloc),
        })
    }

    /// Plays an event without telling its turn.
    pub(crate) fn pass(&mut self, event: Event) -> Result<(), AllocError>
        requires { All IsOnWay self.old.course.ways.items }
        ensures on { All IsOnWay self.new.course.ways.items }
        ensures player { (plan : AnyPlan) (world next : World) (turns : ℕ)
            → IsPlayer plan world turns self.old → event_on world event ≡ Some next
            → OnOk result (IsPlayer plan next (turns + length (turn_by world event)) self.new) }
    {
        self.shown.clear();
        match self.replay.make(event)? {
            Some(turn) => self.follow(turn),
            None => Ok(()),
        }
    }

    // The turn was made: its act is done, and what it sends is in flight.
    fn follow(&mut self, turn: Turn) -> Result<(), AllocError>
        requires { All IsOnWay self.old.course.ways.items }
        ensures on { All IsOnWay self.new.course.ways.items }
        ensures player { (plan : AnyPlan) (next : World) (acts : List Act) (turns : ℕ)
            → LeavesTurn plan acts turns next turn self.old
            → OnOk result (IsPlayer plan next (turns + 1) self.new) }
    {
        let Turn { act, out } = turn;
        self.course.follow(act)?;
        self.count()?;
        self.replay.post(out)
    }

    // One turn more was made.
    fn count(&mut self) -> Result<(), AllocError>
        ensures turns { OnOk result (self.new.turns ≡ self.old.turns + 1) }
        ensures plan { self.new.plan ≡ self.old.plan }
        ensures replay { self.new.replay ≡ self.old.replay }
        ensures course { self.new.course ≡ self.old.course }
        ensures shown { self.new.shown ≡ self.old.shown }
    {
        let Some(turns) = self.turns.checked_add(1) else {
            return Err(AllocError);
        };
        self.turns = turns;
        Ok(())
    }

    /// Plays an event, and returns the line of its turn, or none if it makes no turn.
    pub(crate) fn tell(
        &mut self,
        telling: Telling,
        event: Event,
    ) -> Result<Option<Vec<u8>>, AllocError>
        requires { All IsOnWay self.old.course.ways.items }
        ensures on { All IsOnWay self.new.course.ways.items }
        ensures player { (plan : AnyPlan) (world next : World) (turns : ℕ)
            → IsPlayer plan world turns self.old → event_on world event ≡ Some next
            → OnOk result (IsPlayer plan next (turns + length (turn_by world event)) self.new) }
        ensures told { (plan : AnyPlan) (world next : World) (turns : ℕ)
            → IsPlayer plan world turns self.old → event_on world event ≡ Some next
            → IfOk result (TellsTurn plan telling world turns (turn_by world event)) }
    {
        let place = self.place_of(event);
        let mut known = self.take_known(place)?;
        let mut line = Vec::new(self.alloc);
        self.push_head(&mut line, event, place)?;
        let taken = self.taken(event);
        let Some(turn) = self.replay.make(event)? else {
            return Ok(None);
        };
        let Ok(node) = u8::try_from(place) else {
            return Err(AllocError);
        };
        self.push_turn(&mut line, node, &turn)?;
        let did = did_members(self.alloc, telling, event, taken, &turn)?;
        self.follow(turn)?;
        self.push_end(&mut line, telling, node, &mut known, &did)?;
        self.shown.insert(place, known)?;
        Ok(Some(line))
    }

    // The node that an event names, or the receiver of the message that it names; 0, where it names none.
    fn place_of(&self, event: Event) -> usize
        ensures { (world : World) (node : ℕ) → IsReplay self.now.replay world
            → turner_of world event ≡ Some node → result ≡ node }
    {
        match self.replay.turner(event) {
            Some(place) => place,
            None => 0,
        }
    }

    // What is stored at a node, which is kept no longer where it was.
    fn take_known(&mut self, node: usize) -> Result<Known, AllocError>
        ensures known { (world : World) → IsReplay self.old.replay world
            → AreKnown self.old.shown world
            → IfOk result (λ known. known ≡ known_of (slice_get world.nodes node)) }
        ensures shown { Updates nat_cmp self.old.shown self.new.shown node None }
        ensures plan { self.new.plan ≡ self.old.plan }
        ensures replay { self.new.replay ≡ self.old.replay }
        ensures course { self.new.course ≡ self.old.course }
        ensures turns { self.new.turns ≡ self.old.turns }
    {
        match self.shown.remove(&node) {
            Some(known) => Ok(known),
            None => self.known(node),
        }
    }

    // What is stored at a node; nothing, where it is not there.
    fn known(&self, node: usize) -> Result<Known, AllocError>
        ensures { (world : World) → IsReplay self.now.replay world
            → IfOk result (λ known. known ≡ known_of (slice_get world.nodes node)) }
    {
        match self.replay.state(node) {
            Some(state) => Known::of(self.alloc, state),
            None => Ok(Known::none(self.alloc)),
        }
    }

    // Adds the state of a node behind its turn, the members about what it did, and the end of the line. What the node
    // stores is known then.
    fn push_end(
        &self,
        line: &mut Vec<u8>,
        telling: Telling,
        node: u8,
        known: &mut Known,
        did: &[u8],
    ) -> Result<(), AllocError>
        ensures line { (plan : AnyPlan) (world : World) (turns : ℕ) (l : Logged)
            → IsPlayer plan world turns self.now → slice_get world.nodes node ≡ Some l
            → OnOk result (line.new.items
            ≡ line.old.items ++ (codes ",\"state\":"
            ++ state_behind plan world.acts node known.old l.node
            ++ (did.now ++ stands_member telling l.node) ++ codes "}\n")) }
        ensures known { (world : World) (l : Logged)
            → IsReplay self.now.replay world → slice_get world.nodes node ≡ Some l
            → OnOk result (known.new ≡ stored_in l.node.memory) }
    {
        line.extend_from_slice(b",\"state\":")?;
        self.push_next_state(line, node, known)?;
        line.extend_from_slice(did)?;
        let state = self.state_of(usize::from(node))?;
        push_stands(line, telling, state)?;
        line.extend_from_slice(b"}\n")
    }

    // Adds what is known of a turn before it is made.
    fn push_head(&self, line: &mut Vec<u8>, event: Event, node: usize) -> Result<(), AllocError>
        ensures { (world : World) → IsReplay self.now.replay world
            → OnOk result (line.new.items ≡ line.old.items
            ++ (event_members self.now.turns event node
            ++ take_members (message_of world event)
            (was_taken (slice_get world.nodes node) (message_of world event)))) }
    {
        push_which(line, self.turns, event, node)?;
        self.push_take(line, event, node)
    }

    // Adds the message that an event names, and whether it was taken before.
    fn push_take(&self, line: &mut Vec<u8>, event: Event, node: usize) -> Result<(), AllocError>
        ensures { (world : World) → IsReplay self.now.replay world
            → OnOk result (line.new.items ≡ line.old.items
            ++ take_members (message_of world event)
            (was_taken (slice_get world.nodes node) (message_of world event))) }
    {
        line.extend_from_slice(b",\"take\":")?;
        self.push_taken(line, event)?;
        line.extend_from_slice(b",\"again\":")?;
        line.extend_from_slice(truth(self.is_again(event, node)))
    }

    // The parts of the message that an event names.
    fn taken(&self, event: Event) -> Option<MessageParts>
        ensures { (world : World) → IsReplay self.now.replay world
            → result ≡ taken_parts (message_of world event) }
    {
        match self.replay.message(event) {
            Some(envelope) => Some(parts_of(&envelope.message)),
            None => None,
        }
    }

    // Adds the message that an event names.
    fn push_taken(&self, line: &mut Vec<u8>, event: Event) -> Result<(), AllocError>
        ensures { (world : World) → IsReplay self.now.replay world
            → OnOk result (line.new.items
            ≡ line.old.items ++ message_or_null (message_of world event)) }
    {
        match self.replay.message(event) {
            Some(envelope) => push_envelope(self.alloc, line, envelope),
            None => line.extend_from_slice(b"null"),
        }
    }

    // Whether the node took the message before that an event names.
    fn is_again(&self, event: Event, node: usize) -> bool
        ensures { (world : World) → IsReplay self.now.replay world
            → result ≡ was_taken (slice_get world.nodes node) (message_of world event) }
    {
        match self.replay.message(event) {
            Some(envelope) => self.was_taken(envelope, node),
            None => false,
        }
    }

    // Whether the node took a message before.
    fn was_taken(&self, envelope: &Envelope, node: usize) -> bool
        ensures { (world : World) → IsReplay self.now.replay world
            → result ≡ was_taken (slice_get world.nodes node) (Some envelope.now) }
    {
        match self.replay.state(node) {
            Some(state) => has_taken(state, envelope),
            None => false,
        }
    }

    // Adds the act of a turn, and what it sends.
    fn push_turn(&self, line: &mut Vec<u8>, node: u8, turn: &Turn) -> Result<(), AllocError>
        ensures { (plan : AnyPlan) (acts : List Act) → IsCourse plan acts self.now.course
            → OnOk result (line.new.items
            ≡ line.old.items ++ made_members plan acts node turn.now) }
    {
        line.extend_from_slice(b",\"act\":")?;
        push_act(line, self.course.spot(node), turn.act)?;
        line.extend_from_slice(b",\"sends\":[")?;
        push_envelopes(self.alloc, line, &turn.out)?;
        line.extend_from_slice(b"]")
    }

    /// Returns the state of the node at this place, which is there.
    pub(crate) fn state_of(&self, place: usize) -> Result<&NodeState<'c>, AllocError>
        ensures { (world : World) (l : Logged) → IsReplay self.now.replay world
            → slice_get world.nodes place ≡ Some l → IfOk result (λ state. state.now ≡ l.node) }
    {
        match self.replay.state(place) {
            Some(state) => Ok(state),
            None => Err(AllocError),
        }
    }

    // The private names of a node whose value is not 0.
    fn names_of(&self, node: u8) -> Result<Vec<NamedValue<'c>>, AllocError>
        ensures { (plan : AnyPlan) (acts : List Act) → plan_of self.now.plan ≡ plan
            → IsCourse plan acts self.now.course
            → IfOk result (λ names. map named_seen names.items ≡ names_behind plan acts node) }
    {
        match self.course.privates(node) {
            Some(values) => names_set(self.alloc, self.plan.names, values),
            None => Err(AllocError),
        }
    }

    /// Adds the state of a node whose intervals in `known` were told before.
    pub(crate) fn push_state(
        &self,
        line: &mut Vec<u8>,
        node: u8,
        known: &Known,
    ) -> Result<(), AllocError>
        ensures { (plan : AnyPlan) (world : World) (turns : ℕ) (l : Logged)
            → IsPlayer plan world turns self.now → slice_get world.nodes node ≡ Some l
            → OnOk result (line.new.items
            ≡ line.old.items ++ state_behind plan world.acts node known.now l.node) }
    {
        let state = self.state_of(usize::from(node))?;
        let names = self.names_of(node)?;
        let place = Place {
            at: self.course.spot(node).line,
            names: &names,
        };
        push_state(line, state, &place, known)
    }

    // Does the same, after which all that the node stores is known.
    fn push_next_state(
        &self,
        line: &mut Vec<u8>,
        node: u8,
        known: &mut Known,
    ) -> Result<(), AllocError>
        ensures line { (plan : AnyPlan) (world : World) (turns : ℕ) (l : Logged)
            → IsPlayer plan world turns self.now → slice_get world.nodes node ≡ Some l
            → OnOk result (line.new.items
            ≡ line.old.items ++ state_behind plan world.acts node known.old l.node) }
        ensures known { (world : World) (l : Logged)
            → IsReplay self.now.replay world → slice_get world.nodes node ≡ Some l
            → OnOk result (known.new ≡ stored_in l.node.memory) }
    {
        let state = self.state_of(usize::from(node))?;
        let names = self.names_of(node)?;
        let place = Place {
            at: self.course.spot(node).line,
            names: &names,
        };
        push_next_state(line, state, &place, known)
    }
}

// Adds the number of a turn, its event and its node.
#[tactic(auto, unfolding(crate::specs::States::event_members))]
fn push_which(line: &mut Vec<u8>, number: u64, event: Event, node: usize) -> Result<(), AllocError>
    ensures { OnOk result (line.new.items ≡ line.old.items ++ event_members number event node) }
{
    push_number(line, b"{\"turn\":", number)?;
    line.extend_from_slice(b",\"event\":\"")?;
    push_event(line, event)?;
    push_number(line, b"\",\"node\":", node as u64)
}

// Whether a node took a message before.
fn has_taken(state: &NodeState<'_>, envelope: &Envelope) -> bool
    ensures { result ≡ is_repeat state.now envelope.now }
{
    let mail = state.mail();
    envelope.from < state.nodes() && mail.was_taken(envelope.from, envelope.number)
}
