// A run in rounds, or in a random order.

ghost use Rattle.std.specs.Prelude.{◌≡◌, ◌⊎◌, ℕ, ◌+◌, ◌<◌, ◌≤◌, [], OnOk, length};
ghost use Rattle.lrc_world.specs.Driven.{DrivesTo, IsAsleep, IsDrivenBy, IsFull, IsRunOver, IsStill, NoneReady, PlaysOne, schedule_of};
ghost use Rattle.lrc_world.specs.Random.{wandering};
ghost use Rattle.lrc_world.specs.Rounds.{at_node, delivering, schedule_of_rounds};
ghost use Rattle.lrc_envelope.specs.declared.picker.Picker.{Picker as AnyPicker};

use crate::lead::Lead;
use crate::random::Random;
use crate::report::{MOST_EVENTS, TurnFault};
use crate::world::World;
use lrc_envelope::Picker;
use lrc_protocol::Event;
use std::alloc::Global;

/// The world (all nodes and the messages in flight), and the events so far.
#[derive(Drop)]
pub(crate) struct Driver<'c> {
    pub(crate) world: World<'c>,
    pub(crate) events: Vec<Event>,
}

impl<'c> Driver<'c> {
    /// Creates a driver for this world, before any event.
    pub(crate) fn new(alloc: Global, world: World<'c>) -> Driver<'c>
        ensures world { result.world ≡ world.entry }
        ensures events { result.events.items ≡ [] }
    {
        Driver {
            world,
            events: Vec::new(alloc),
        }
    }

    /// Goes on in this order, until nothing is left to do or the limit of [`MOST_EVENTS`] is reached.
    pub(crate) fn lead(&mut self, nodes: u8, lead: Lead) -> Result<(), TurnFault>
        requires { self.old.events.items ≡ [] }
        ensures goes { IsDrivenBy (schedule_of nodes lead) self.old self.new result }
        ensures over { OnOk result (length self.new.events.items < MOST_EVENTS
            → IsRunOver nodes self.new.world) }
    {
        match lead {
            Lead::Rounds(picker) => self.drive(nodes, picker),
            Lead::Random(seed) => self.wander(nodes, seed),
        }
    }

    // Goes on round by round, until one has no event or there are as many events as there may be.
    fn drive(&mut self, nodes: u8, picker: Picker) -> Result<(), TurnFault>
        requires { length self.old.events.items ≤ MOST_EVENTS }
        ensures goes { DrivesTo (schedule_of_rounds picker nodes) (at_node 0)
            (at_node 0) self.old self.new result }
        ensures over { OnOk result (length self.new.events.items < MOST_EVENTS
            → NoneReady nodes self.new.world × (self.new.world.flight.items ≡ [])) }
    {
        'rounds: loop {
            let before = self.events.len();
            self.round(nodes, picker)?;
            if self.events.len() <= before {
                return Ok(());
            }
        }
    }

    // Goes on event by event, each of them the one that the next random number says, until nothing is left to do or there are as
    // many events as there may be.
    fn wander(&mut self, nodes: u8, seed: u64) -> Result<(), TurnFault>
        requires { self.old.events.items ≡ [] }
        ensures goes { IsDrivenBy (wandering nodes seed) self.old self.new result }
        ensures over { OnOk result (length self.new.events.items < MOST_EVENTS
            → IsRunOver nodes self.new.world) }
    {
        let mut random = Random::new(seed);
        for _event in 0..MOST_EVENTS {
            let Some(event) = self.world.choice(nodes, random.next())? else {
                return Ok(());
            };
            self.play(event)?;
        }
        Ok(())
    }

    // Each ready node goes on, and then as many messages are delivered as are in flight.
    fn round(&mut self, nodes: u8, picker: Picker) -> Result<(), TurnFault>
        ensures goes { DrivesTo (schedule_of_rounds picker nodes) (at_node 0)
            (at_node 0) self.old self.new result }
        ensures over { OnOk result (IsStill self.old self.new
            → NoneReady nodes self.new.world × (self.new.world.flight.items ≡ [])) }
    {
        self.run_each(nodes)?;
        self.deliver_each(picker)
    }

    // Each ready node goes on once, from node 0 up, as far as there is room for events.
    fn run_each(&mut self, nodes: u8) -> Result<(), TurnFault>
        ensures goes { (picker : AnyPicker) → DrivesTo (schedule_of_rounds picker nodes) (at_node 0)
            (at_node nodes) self.old self.new result }
        ensures still { OnOk result (IsStill self.old self.new
            → (self.new.world ≡ self.old.world) × NoneReady nodes self.old.world) }
    {
        for node in 0..nodes {
            self.run_if_ready(node)?;
        }
        Ok(())
    }

    // The node goes on, if it is ready and there is room for an event.
    fn run_if_ready(&mut self, node: u8) -> Result<(), TurnFault>
        ensures goes { (picker : AnyPicker) (nodes : ℕ) → node < nodes
            → DrivesTo (schedule_of_rounds picker nodes) (at_node node)
            (at_node (node + 1)) self.old self.new result }
        ensures still { OnOk result (IsStill self.old self.new
            → (self.new.world ≡ self.old.world) × IsAsleep node self.old.world) }
    {
        if !self.world.is_ready(node as usize) {
            return Ok(());
        }
        self.play(Event::Run(u32::from(node)))
    }

    // As many messages are delivered as are in flight, each of them the one that the picker says, as far as there is room for
    // events.
    fn deliver_each(&mut self, picker: Picker) -> Result<(), TurnFault>
        ensures goes { (nodes : ℕ) → DrivesTo (schedule_of_rounds picker nodes) (at_node nodes)
            (delivering 0) self.old self.new result }
        ensures still { OnOk result (IsStill self.old self.new
            → (self.new.world ≡ self.old.world) × (self.old.world.flight.items ≡ [])) }
    {
        let count = self.world.in_flight();
        for _message in 0..count {
            let event = self.world.next_delivery(picker);
            self.play(event)?;
        }
        Ok(())
    }

    // Plays an event, if there is room for it.
    #[inline(always)]
    fn play(&mut self, event: Event) -> Result<(), TurnFault>
        ensures { PlaysOne self.old self.new event result ⊎ IsFull self.old self.new result }
    {
        if self.events.len() >= MOST_EVENTS {
            return Ok(());
        }
        self.events.push(event)?;
        self.world.play(event)
    }
}
