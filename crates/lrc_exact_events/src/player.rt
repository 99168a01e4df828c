// The nodes of a run that is played event by event.

ghost use Rattle.std.specs.Prelude.{◌≡◌, ◌↔◌, ◌∷◌, ◌++◌, ◌≤◌, [], IfOk, IsTrue, List, OnOk, Some, false, length, slice_get, true};
ghost use Rattle.std.specs.Option.{option_to_list};
ghost use Rattle.lrc_trace.specs.declared.act.Act.{Act as AnyAct};
ghost use Rattle.lrc_protocol.specs.Run.{World, event_on, fresh_world};
ghost use Rattle.lrc_exact_events.specs.Drained.{GoesOn, IsNext, event_due};
ghost use Rattle.lrc_exact_events.specs.Playing.{AddsNext, IsPlayer};

use lrc_exec::code::Code;
use lrc_log::Turn;
use lrc_node::Options;
use lrc_protocol::Event;
use lrc_replay::Replay;
use lrc_trace::act::Act;
use std::alloc::{AllocError, Global};

/// The nodes with the messages in flight, how many acts there are so far, and the events.
#[derive(Drop)]
pub(crate) struct Player<'c> {
    replay: Replay<'c>,
    acts: usize,
    pub(crate) events: Vec<Event>,
}

impl<'c> Player<'c> {
    /// Creates all nodes at the start of a program, with no message in flight.
    pub(crate) fn start(
        alloc: Global,
        code: &'c Code<'_>,
        nodes: u8,
        options: &Options,
    ) -> Result<Player<'c>, AllocError>
        requires few { nodes ≤ 16 }
        ensures player { IfOk result (λ player. IsPlayer player
            (fresh_world code.now nodes options.now)) }
        ensures events { IfOk result (λ player. player.events.items ≡ []) }
    {
        let replay = Replay::start(alloc, code, nodes, options)?;
        Ok(Player {
            replay,
            acts: 0,
            events: Vec::new(alloc),
        })
    }

    /// Returns the event that is due: the oldest message is delivered, if one is in flight; else the node of the order's
    /// next act goes on, if there is one.
    pub(crate) fn due(&self, order: &[Act]) -> Option<Event>
        ensures { (world : World) → IsPlayer self.now world → result ≡ event_due order.now world }
    {
        if !self.is_quiet() {
            return Some(Event::Deliver(0));
        }
        let act = order.get(self.acts)?;
        Some(Event::Run(u32::from(act.node)))
    }

    // Whether no message is in flight.
    fn is_quiet(&self) -> bool
        ensures { (world : World) → IsPlayer self.now world → IsTrue result ↔ (world.flight ≡ []) }
    {
        self.replay.flight.is_empty()
    }

    /// Plays an event, and notes it, if it makes a turn whose act, if it makes one, is the next of the order. Returns
    /// whether it does; else, and after an error, the player is of no further use. It fails if memory runs out, or if a
    /// number would be too large.
    pub(crate) fn play(&mut self, order: &[Act], event: Event) -> Result<bool, AllocError>
        ensures played { (world next : World) → IsPlayer self.old world
            → event_on world event ≡ Some next
            → IfOk result (λ on. on ≡ true → IsPlayer self.new next × AddsNext order.now world next) }
        ensures astray { (world next : World) → IsPlayer self.old world
            → event_on world event ≡ Some next
            → IfOk result (λ on. on ≡ false → ¬ GoesOn order.now world event) }
        ensures events { IfOk result (λ on. on ≡ true
            → self.new.events.items ≡ self.old.events.items ++ event ∷ []) }
        ensures same { IfOk result (λ on. on ≡ false → self.new.events ≡ self.old.events) }
    {
        let Some(turn) = self.replay.make(event)? else {
            return Ok(false);
        };
        let Turn { act, out } = turn;
        if !is_next(order, self.acts, act) {
            return Ok(false);
        }
        self.replay.post(out)?;
        self.count(act)?;
        self.events.push(event)?;
        Ok(true)
    }

    // The act of a turn is made, if it makes one.
    fn count(&mut self, act: Option<Act>) -> Result<(), AllocError>
        ensures acts { (before : List AnyAct) → self.old.acts ≡ length before
            → OnOk result (self.new.acts ≡ length (before ++ option_to_list act)) }
        ensures replay { self.new.replay ≡ self.old.replay }
        ensures events { self.new.events ≡ self.old.events }
    {
        if act.is_none() {
            return Ok(());
        }
        match self.acts.checked_add(1) {
            Some(acts) => {
                self.acts = acts;
                Ok(())
            }
            None => Err(AllocError),
        }
    }
}

// Whether an act, if there is one, is that of the order at a place.
fn is_next(order: &[Act], place: usize, act: Option<Act>) -> bool
    ensures { IsTrue result ↔ IsNext order.now place act }
{
    match act {
        Some(act) => is_at(order, place, act),
        None => true,
    }
}

// Whether an act is that of the order at a place.
fn is_at(order: &[Act], place: usize, act: Act) -> bool
    ensures { IsTrue result ↔ (slice_get order.now place ≡ Some act) }
{
    match order.get(place) {
        Some(next) => is_same(*next, act),
        None => false,
    }
}

// Whether two acts are the same.
fn is_same(one: Act, other: Act) -> bool
    ensures { IsTrue result ↔ (one ≡ other) }
{
    one == other
}
