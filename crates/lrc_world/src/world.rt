// All nodes of a run, the messages in flight, and what events do to them.

ghost use Rattle.lrc_race.specs.Races.{AreRacesOf, AreTracesOf};
ghost use Rattle.std.specs.Prelude.{◌≡◌, ℕ, ◌≤◌, ◌<◌, ◌^◌, ◌++◌, [], ◌∷◌, ◌↔◌, All, IfOk, IfErr, OnOk, IsOk, Ok, true, false};
ghost use Rattle.std.specs.Prelude.{List, Some, filter, length, map, remove, slice_get, slice_set};
ghost use Rattle.std.specs.List.{list_any, range_with_len};
ghost use Rattle.std.specs.Option.{option_to_list};
ghost use Rattle.lrc_protocol.specs.Run.{turns_of_logs};
ghost use Rattle.lrc_judge.specs.declared.TheConstants.{NODES};
ghost use Rattle.lrc_wire.specs.Reading.{envelope_of};
ghost use Rattle.lrc_protocol.specs.Run.{World as Run, Flying as Sent, fresh_world, event_on, with_mark, EntryRecord};
ghost use Rattle.lrc_protocol.specs.declared.event.Event.TheVariants as events;
ghost use Rattle.lrc_protocol.specs.Run as log;
ghost use Rattle.lrc_protocol.specs.Turn.{is_ready};
ghost use Rattle.lrc_world.specs.Report.{IsKeptReport, IsOver, end_of_logged};
ghost use Rattle.lrc_world.specs.Random.{drawn_event, picked};
ghost use Rattle.lrc_world.specs.Rounds.{delivery_of, is_delivered, newest_place, ready_at};
ghost use Rattle.lrc_world.specs.Turned.{when_all, taker, turner};
ghost use Rattle.lrc_world.specs.World.{Starts, starts_of, Shows, PlaysTo, AddsTo, NodeLogsLast, NotesTurn, ReceivesTo, TurnsTo, turn_made, IsSendFault, trimmed};
ghost use Rattle.lrc_world.specs.World.{fresh_one, seen_flying, seen_sent, shown_new, is_long};
ghost use Rattle.lrc_node.specs.Logged.{TracedLog, sound};
ghost use Rattle.lrc_trace.specs.Conflict.{IsRaceFree};

use crate::first::first_of;
use crate::flying::Flying;
use crate::keep::Keep;
use crate::report::{Report, TurnFault};
use crate::turned::Turned;
use lrc_envelope::{Envelope, Picker};
use lrc_exec::code::Code;
use lrc_log::Entry;
use lrc_node::{End, Logged, Node, NodeFault, Options};
use lrc_protocol::Event;
use lrc_race::races;
use lrc_trace::act::Act;
use lrc_trace::trace::Trace;
use lrc_wire::{EncodeFault, WireFault, decode, spell_over};
use std::alloc::{AllocError, Global};
use std::collections::VecDeque;

/// All nodes with the turns kept of their logs, the messages in flight (oldest first), and the acts so far. If all is
/// kept, also the events that made turns.
#[derive(Drop)]
pub(crate) struct World<'c> {
    alloc: Global,
    keep: Keep,
    nodes: Vec<Logged<'c>>,
    flight: VecDeque<Flying>,
    acts: Vec<Act>,
    turned: Vec<Turned>,
    // The bytes of messages that were delivered, whose memory later ones take.
    spare: Vec<Vec<u8>>,
}

impl<'c> World<'c> {
    /// Creates all nodes at the start of a program, with no message in flight.
    pub(crate) fn new(
        alloc: Global,
        code: &'c Code<'_>,
        nodes: u8,
        options: &Options,
        keep: Keep,
    ) -> Result<World<'c>, AllocError>
        requires few { nodes ≤ 16 }
        ensures shows { IfOk result (λ world. Shows (starts_of code.now nodes options.now keep)
            world (fresh_world code.now nodes options.now)) }
        ensures turned { IfOk result (λ world. world.turned.items ≡ []) }
    {
        let mut made = Vec::with_capacity(alloc, nodes as usize)?;
        for me in 0..nodes {
            add_node(alloc, &mut made, code, me, nodes, options)?;
        }
        Ok(World {
            alloc,
            keep,
            nodes: made,
            flight: VecDeque::new(alloc),
            acts: Vec::new(alloc),
            turned: Vec::new(alloc),
            spare: Vec::new(alloc),
        })
    }

    /// Plays an event. It is skipped if it names no ready node and no message that its receiver takes.
    #[inline(always)]
    pub(crate) fn play(&mut self, event: Event) -> Result<(), TurnFault>
        ensures plays { (starts : Starts) (run : Run) → Shows starts self.old run
            → PlaysTo starts self.new (event_on run event) result }
        ensures turned { (starts : Starts) (run : Run) → Shows starts self.old run
            → OnOk result (NotesTurn self.old self.new event (turner run event)) }
    {
        match event {
            Event::Run(node) => self.go_on(node),
            Event::Deliver(place) => self.deliver(place),
            Event::Repeat(place) => self.repeat(place),
        }
    }

    /// Returns whether the node exists and is ready.
    pub(crate) fn is_ready(&self, node: usize) -> bool
        ensures { (starts : Starts) (run : Run) → Shows starts self.now run
            → result ≡ ready_at run node }
    {
        match self.nodes.get(node) {
            Some(logged) => logged.ready(),
            None => false,
        }
    }

    /// Returns how many messages are in flight.
    pub(crate) fn in_flight(&self) -> usize
        ensures { result ≡ length self.now.flight.items }
    {
        self.flight.len()
    }

    /// Returns whether nothing is left to do: no node is ready, and no message is in flight.
    pub(crate) fn is_over(&self) -> bool
        ensures { (starts : Starts) (run : Run) → Shows starts self.now run → (result ≡ true)
            ↔ IsOver run }
    {
        self.flight.is_empty() && !is_any_ready(&self.nodes)
    }

    /// Returns the delivery that the picker chooses next.
    pub(crate) fn next_delivery(&self, picker: Picker) -> Event
        ensures { (starts : Starts) (run : Run) → Shows starts self.now run
            → result ≡ delivery_of picker run.flight }
    {
        match picker {
            Picker::Oldest => Event::Deliver(0),
            Picker::Newest => Event::Deliver(newest_place(self.flight.len())),
            Picker::Twice => {
                if self.is_oldest_delivered() {
                    Event::Deliver(0)
                } else {
                    Event::Repeat(0)
                }
            }
        }
    }

    /// Returns the event that a random number chooses among all that can happen next, or none if nothing can happen.
    pub(crate) fn choice(&self, nodes: u8, number: u64) -> Result<Option<Event>, AllocError>
        ensures { (starts : Starts) (run : Run) → Shows starts self.now run
            → IfOk result (λ event. event ≡ drawn_event nodes number run) }
    {
        let ready = self.ready_nodes(nodes)?;
        let deliveries = self.flight.len().min(1 << 32);
        Ok(event_at(&ready, deliveries, number))
    }

    // The numbers of the ready nodes, ascending.
    fn ready_nodes(&self, nodes: u8) -> Result<Vec<u32>, AllocError>
        ensures few { IfOk result (λ ready. length ready.items ≤ nodes) }
        ensures ready { (starts : Starts) (run : Run) → Shows starts self.now run
            → IfOk result (λ ready. ready.items ≡ filter (ready_at run) (range_with_len 0 nodes)) }
    {
        let mut ready = Vec::with_capacity(self.alloc, nodes as usize)?;
        for node in 0..nodes {
            if self.is_ready(node as usize) {
                ready.push(u32::from(node))?;
            }
        }
        Ok(ready)
    }

    // Whether the oldest message was delivered already.
    fn is_oldest_delivered(&self) -> bool
        ensures { (starts : Starts) (run : Run) → Shows starts self.now run
            → result ≡ is_delivered (slice_get run.flight 0) }
    {
        match self.flight.get(0) {
            Some(flying) => flying.delivered,
            None => false,
        }
    }

    // The node goes on, if it is there and ready.
    #[inline(always)]
    fn go_on(&mut self, node: u32) -> Result<(), TurnFault>
        ensures plays { (starts : Starts) (run : Run) → Shows starts self.old run
            → PlaysTo starts self.new (event_on run (events.Run node)) result }
        ensures turned { (starts : Starts) (run : Run) → Shows starts self.old run
            → OnOk result (NotesTurn self.old self.new (events.Run node)
            (turner run (events.Run node))) }
    {
        // There are no more nodes than a byte can number.
        let Ok(number) = u8::try_from(node) else {
            return Ok(());
        };
        let outcome = run_at(&mut self.nodes, node as usize);
        if is_made(outcome)? {
            let event = Event::Run(node);
            self.follow(Turned {
                event,
                node: number,
            })
        } else {
            Ok(())
        }
    }

    // The message at the place is delivered, if it is there and its receiver takes it.
    #[inline(never)]
    fn deliver(&mut self, place: u32) -> Result<(), TurnFault>
        ensures plays { (starts : Starts) (run : Run) → Shows starts self.old run
            → PlaysTo starts self.new (event_on run (events.Deliver place)) result }
        ensures turned { (starts : Starts) (run : Run) → Shows starts self.old run
            → OnOk result (NotesTurn self.old self.new (events.Deliver place)
            (turner run (events.Deliver place))) }
    {
        match self.receive(place as usize)? {
            Some(node) => {
                forget(&mut self.flight, &mut self.spare, place as usize);
                let event = Event::Deliver(place);
                self.follow(Turned { event, node })
            }
            None => Ok(()),
        }
    }

    // The same, but the message stays in flight.
    #[inline(never)]
    fn repeat(&mut self, place: u32) -> Result<(), TurnFault>
        ensures plays { (starts : Starts) (run : Run) → Shows starts self.old run
            → PlaysTo starts self.new (event_on run (events.Repeat place)) result }
        ensures turned { (starts : Starts) (run : Run) → Shows starts self.old run
            → OnOk result (NotesTurn self.old self.new (events.Repeat place)
            (turner run (events.Repeat place))) }
    {
        match self.receive(place as usize)? {
            Some(node) => {
                mark(&mut self.flight, place as usize);
                let event = Event::Repeat(place);
                self.follow(Turned { event, node })
            }
            None => Ok(()),
        }
    }

    // The receiver of the message at the place takes it, if both are there and the receiver expects it. Which node that was.
    fn receive(&mut self, place: usize) -> Result<Option<u8>, TurnFault>
        ensures receives { (starts : Starts) (run : Run) → Shows starts self.old run
            → ReceivesTo starts self.old self.new run place result }
        ensures taker { (starts : Starts) (run : Run) → Shows starts self.old run
            → IfOk result (λ node. node ≡ taker run (slice_get run.flight place)) }
        ensures turned { self.new.turned ≡ self.old.turned }
    {
        let Some(flying) = self.flight.get(place) else {
            return Ok(None);
        };
        let envelope = envelope_in(self.alloc, &flying.bytes)?;
        let to = envelope.to;
        let outcome = take_at(&mut self.nodes, to as usize, envelope, flying.stamp);
        if is_made(outcome)? {
            Ok(Some(to))
        } else {
            Ok(None)
        }
    }

    /// Returns the report of the run, with the kept part of the logs, and the kept turns. The races come from the traces
    /// that the nodes keep. The first race is searched only if there are any.
    pub(crate) fn report(self) -> Result<(Report, Vec<Turned>), AllocError>
        requires acts { All (λ act. act.node < NODES) self.acts.items }
        requires traces { (nodes : ℕ) × AreTracesOf nodes
            (map (λ node. node.trace) self.nodes.items) }
        requires raceless { AreRacesOf (map (λ node. node.trace) self.nodes.items) []
            → IsRaceFree self.acts.items }
        ensures report { (starts : Starts) (run : Run) → Shows starts self.entry run
            → IfOk result (λ told. IsKeptReport starts.keep told.0 run) }
        ensures acts { IfOk result (λ told. told.0.acts ≡ self.entry.acts) }
        ensures races { IfOk result (λ told. AreRacesOf
            (map (λ node. node.trace) self.entry.nodes.items) told.0.races.items) }
        ensures turned { IfOk result (λ told. told.1 ≡ self.entry.turned) }
    {
        let World {
            alloc,
            keep: _,
            nodes,
            flight: _,
            acts,
            turned,
            spare: _,
        } = self;
        let ends = ends_of(alloc, &nodes)?;
        let (logs, traces) = parts_of(alloc, nodes)?;
        let races = races(alloc, &traces)?;
        let first_race = first_of(alloc, &races, &acts)?;
        let report = Report {
            acts,
            ends,
            races,
            logs,
            first_race,
        };
        Ok((report, turned))
    }

    // Adds the node's newest turn, with the event that made it, and what it did: its act, and its messages in flight. Of the
    // node's log is left what is to be kept.
    #[inline(always)]
    fn follow(&mut self, turn: Turned) -> Result<(), TurnFault>
        ensures adds { (entry : EntryRecord) → NodeLogsLast self.old turn.node entry
            → AddsTo self.old self.new turn.node entry result }
        ensures turned { OnOk result (NotesTurn self.old self.new turn.event (Some turn.node)) }
    {
        note_turn(self.keep, &mut self.turned, turn)?;
        self.add_newest(usize::from(turn.node))
    }

    // Adds what the node's newest turn did, and leaves of its log what is to be kept.
    #[inline(never)]
    fn add_newest(&mut self, node: usize) -> Result<(), TurnFault>
        ensures adds { (entry : EntryRecord) → NodeLogsLast self.old node entry
            → AddsTo self.old self.new node entry result }
        ensures keep { self.new.keep ≡ self.old.keep }
        ensures turned { self.new.turned ≡ self.old.turned }
    {
        let Some(logged) = self.nodes.get(node) else {
            return Ok(());
        };
        let Some(entry) = logged.log().last() else {
            return Ok(());
        };
        send(
            &mut self.spare,
            &entry.turn.out,
            entry.stamp,
            &mut self.flight,
        )?;
        note(&mut self.acts, entry.turn.act)?;
        trim(self.keep, &mut self.nodes, node);
        Ok(())
    }
}

// The event that a number says, of the turns of these nodes and so many deliveries.
fn event_at(ready: &[u32], deliveries: usize, number: u64) -> Option<Event>
    requires ready { length ready.now ≤ 255 }
    requires deliveries { deliveries ≤ 2 ^ 32 }
    ensures { result ≡ picked number (map events.Run ready.now
        ++ map events.Deliver (range_with_len 0 deliveries)) }
{
    let count = ready.len() + deliveries;
    if count == 0 {
        return None;
    }
    let place = (number % count as u64) as usize;
    match ready.get(place) {
        Some(node) => Some(Event::Run(*node)),
        None => Some(Event::Deliver((place - ready.len()) as u32)),
    }
}

// The place of the newest of so many messages, as far as an event can name it.
fn newest_place(count: usize) -> u32
    ensures { result ≡ newest_place count }
{
    u32::try_from(count.saturating_sub(1)).unwrap_or(u32::MAX)
}

// Adds a node at the start of a program. It has a frame of its own: what a node takes on the stack while it is made is
// then nowhere else. A `?` would have a copy of the node more there.
#[inline(never)]
fn add_node<'c>(
    alloc: Global,
    made: &mut Vec<Logged<'c>>,
    code: &'c Code<'_>,
    me: u8,
    nodes: u8,
    options: &Options,
) -> Result<(), AllocError>
    requires here { me < nodes }
    requires few { nodes ≤ 16 }
    ensures { OnOk result (made.new.items ≡ made.old.items
        ++ fresh_one code.now nodes options.now me ∷ []) }
{
    match Node::new(alloc, code, me, nodes, options) {
        Ok(node) => {
            made.push(Logged::new(alloc, node))?;
            Ok(())
        }
        Err(fault) => Err(fault),
    }
}

// Adds an act, if one was made.
fn note(acts: &mut Vec<Act>, act: Option<Act>) -> Result<(), AllocError>
    ensures { OnOk result (acts.new.items ≡ acts.old.items ++ option_to_list act) }
{
    match act {
        Some(act) => acts.push(act)?,
        None => {}
    }
    Ok(())
}

// Adds a turn with its event, if all is kept.
#[inline(always)]
fn note_turn(keep: Keep, turned: &mut Vec<Turned>, turn: Turned) -> Result<(), AllocError>
    ensures { OnOk result (turned.new.items ≡ turned.old.items ++ when_all keep (turn ∷ [])) }
{
    match keep {
        Keep::All => add_turn(turned, turn),
        Keep::Newest | Keep::Turns => Ok(()),
    }
}

// Adds a turn with its event.
#[inline(never)]
fn add_turn(turned: &mut Vec<Turned>, turn: Turned) -> Result<(), AllocError>
    ensures { OnOk result (turned.new.items ≡ turned.old.items ++ turn ∷ []) }
{
    turned.push(turn)?;
    Ok(())
}

// Puts messages of one turn in flight, in place of spare bytes where there are any. Most turns send none.
#[inline(always)]
fn send(
    spare: &mut Vec<Vec<u8>>,
    out: &[Envelope],
    stamp: u64,
    flight: &mut VecDeque<Flying>,
) -> Result<(), TurnFault>
    ensures flight { OnOk result (map seen_flying flight.new.items
        ≡ map seen_flying flight.old.items ++ map (shown_new stamp) out.now) }
    ensures short { OnOk result (list_any is_long out.now ≡ false) }
    ensures err { IfErr result (IsSendFault out.now) }
{
    if out.is_empty() {
        return Ok(());
    }
    send_each(spare, out, stamp, flight)
}

// Puts each of these messages in flight.
#[inline(never)]
fn send_each(
    spare: &mut Vec<Vec<u8>>,
    out: &[Envelope],
    stamp: u64,
    flight: &mut VecDeque<Flying>,
) -> Result<(), TurnFault>
    ensures flight { OnOk result (map seen_flying flight.new.items
        ≡ map seen_flying flight.old.items ++ map (shown_new stamp) out.now) }
    ensures short { OnOk result (list_any is_long out.now ≡ false) }
    ensures err { IfErr result (IsSendFault out.now) }
{
    for envelope in out {
        let bytes = bytes_of(spare, envelope)?;
        flight.push_back(Flying {
            bytes,
            stamp,
            delivered: false,
        })?;
    }
    Ok(())
}

// The bytes of a message, in place of spare ones where there are any.
fn bytes_of(spare: &mut Vec<Vec<u8>>, envelope: &Envelope) -> Result<Vec<u8>, TurnFault>
    ensures written { IfOk result (λ bytes. envelope_of bytes.items ≡ Ok envelope.now) }
    ensures short { OnOk result (is_long envelope.now ≡ false) }
    ensures err { IfErr result (IsSendFault (envelope.now ∷ [])) }
{
    let spent = match spare.pop() {
        Some(bytes) => bytes,
        None => Vec::new(*spare.allocator()),
    };
    match spell_over(spent, envelope) {
        Ok(bytes) => Ok(bytes),
        Err(EncodeFault::TooLong) => Err(TurnFault::Worn),
        Err(EncodeFault::NoMemory) => Err(TurnFault::NoMemory),
    }
}

// The message that bytes spell.
fn envelope_in(alloc: Global, bytes: &[u8]) -> Result<Envelope, TurnFault>
    requires { IsOk (envelope_of bytes.now) }
    ensures read { IfOk result (λ envelope. envelope_of bytes.now ≡ Ok envelope) }
    ensures err { IfErr result (λ fault. fault ≡ TurnFault.NoMemory) }
{
    match decode(alloc, bytes) {
        Ok(envelope) => Ok(envelope),
        Err(WireFault::NoMemory) => Err(TurnFault::NoMemory),
        Err(_) => unreachable!(),
    }
}

// Whether a node made a turn; a node that has none left has no memory, or has used up its numbers.
fn is_made(outcome: Result<(), NodeFault>) -> Result<bool, TurnFault>
    ensures { result ≡ turn_made outcome }
{
    match outcome {
        Ok(()) => Ok(true),
        Err(NodeFault::NotReady | NodeFault::Unexpected) => Ok(false),
        Err(NodeFault::Worn) => Err(TurnFault::Worn),
        Err(NodeFault::Failed | NodeFault::NoMemory) => Err(TurnFault::NoMemory),
    }
}

// A node goes on, if it is there.
fn run_at(nodes: &mut Vec<Logged<'_>>, node: usize) -> Result<(), NodeFault>
    ensures { TurnsTo nodes.old.items nodes.new.items node log.run 0 result }
{
    if node < nodes.len() {
        nodes[node].run()
    } else {
        Err(NodeFault::NotReady)
    }
}

// A node takes a message, if it is there.
fn take_at(
    nodes: &mut Vec<Logged<'_>>,
    node: usize,
    envelope: Envelope,
    stamp: u64,
) -> Result<(), NodeFault>
    ensures { TurnsTo nodes.old.items nodes.new.items node (log.taken envelope) stamp result }
{
    if node < nodes.len() {
        nodes[node].take(envelope, stamp)
    } else {
        Err(NodeFault::NotReady)
    }
}

// The node at the place forgets what is not kept of its log, if it is there.
fn trim(keep: Keep, nodes: &mut Vec<Logged<'_>>, node: usize)
    ensures { (l : TracedLog) → slice_get nodes.old.items node ≡ Some l
        → nodes.new.items ≡ slice_set nodes.old.items node (trimmed keep l) }
{
    match keep {
        Keep::All | Keep::Turns => {}
        Keep::Newest => {
            if node < nodes.len() {
                nodes[node].forget();
            }
        }
    }
}

// Marks the message at the place as delivered, if it is there.
fn mark(flight: &mut VecDeque<Flying>, place: usize)
    ensures { (sent : List Sent) → map seen_flying flight.old.items ≡ map seen_sent sent
        → map seen_flying flight.new.items ≡ map seen_sent (with_mark sent place) }
{
    if place < flight.len() {
        flight[place].delivered = true;
    }
}

// Takes the message at the place out of flight, if it is there. Its bytes are spare then.
fn forget(flight: &mut VecDeque<Flying>, spare: &mut Vec<Vec<u8>>, place: usize)
    ensures { place < length flight.old.items → flight.new.items ≡ remove flight.old.items place }
{
    if let Some(flying) = flight.remove(place) {
        // Without memory for them the bytes are given up.
        let _given_up = spare.push(flying.bytes);
    }
}

// Whether one of the nodes is ready.
fn is_any_ready(nodes: &[Logged<'_>]) -> bool
    ensures { (all : List log.Logged) → map (λ node. node.logged) nodes.now ≡ map sound all
        → result ≡ list_any (λ l. is_ready l.node) all }
{
    for node in nodes {
        if node.ready() {
            return true;
        }
    }
    false
}

// How each node ended.
fn ends_of(alloc: Global, nodes: &[Logged<'_>]) -> Result<Vec<End>, AllocError>
    ensures { (all : List log.Logged) → map (λ node. node.logged) nodes.now ≡ map sound all
        → IfOk result (λ ends. ends.items ≡ map end_of_logged all) }
{
    let mut ends = Vec::with_capacity(alloc, nodes.len())?;
    for node in nodes {
        ends.push(node.end())?;
    }
    Ok(ends)
}

// The turns of each node, and its trace.
fn parts_of(
    alloc: Global,
    nodes: Vec<Logged<'_>>,
) -> Result<(Vec<Vec<Entry>>, Vec<Trace>), AllocError>
    ensures logs { IfOk result (λ parts. turns_of_logs parts.0.items
        ≡ map (λ node. node.logged.log) nodes.entry.items) }
    ensures traces { IfOk result (λ parts. parts.1.items
        ≡ map (λ node. node.trace) nodes.entry.items) }
{
    let mut logs = Vec::with_capacity(alloc, nodes.len())?;
    let mut traces = Vec::with_capacity(alloc, nodes.len())?;
    for node in nodes {
        let (log, trace) = node.into_parts();
        logs.push(log)?;
        traces.push(trace)?;
    }
    Ok((logs, traces))
}
