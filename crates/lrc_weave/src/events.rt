// The events that make the turns of logs.

ghost use Rattle.std.specs.Prelude.{◌≡◌, ◌<◌, ◌≤◌, ◌++◌, Err, IfOk, OnOk, length, map, position};
ghost use Rattle.lrc_log.specs.Input.{seen_input};
ghost use Rattle.lrc_protocol.specs.Run.{taken};
ghost use Rattle.lrc_weave.specs.declared.fault.WeaveFault.TheVariants.{Mismatch};
ghost use Rattle.lrc_weave.specs.Again.{AreAgain};
ghost use Rattle.lrc_weave.specs.Events.{has_name, message_name, IsMadeByEvent, IsTakenFrom, IsTurnOf, IsUnsent, LacksMessage};

use crate::fault::WeaveFault;
use lrc_envelope::Envelope;
use lrc_log::{Entry, Input};
use lrc_protocol::Event;
use std::alloc::AllocError;

/// A message in flight, by its sender, receiver and number.
#[derive(Clone, Copy)]
pub(crate) struct MessageName {
    /// Its sender.
    pub from: u8,
    /// Its receiver.
    pub to: u8,
    /// Its number among the messages from this sender to this receiver.
    pub number: u32,
}

/// Returns the event that makes the turn at a place of a node's log, and updates the messages in flight. `again` says
/// for each turn of the log whether a later turn takes the same message. It fails with `Mismatch` if the turn takes a
/// message that is not in flight.
pub(crate) fn turn(
    flight: &mut Vec<MessageName>,
    node: u8,
    log: &Vec<Entry>,
    again: &Vec<bool>,
    place: usize,
) -> Result<Event, WeaveFault>
    requires there { place < length log.now.items }
    requires bits { AreAgain log.now.items again.now.items }
    ensures turn { IfOk result (λ event. IsTurnOf node log.now.items place flight.old.items
        flight.new.items event) }
    ensures unsent { result ≡ Err Mismatch → IsUnsent log.now.items place flight.old.items }
{
    let entry = &log[place];
    let event = event_of(flight, node, &entry.input, again[place])?;
    send(flight, entry.turn.out.as_slice())?;
    Ok(event)
}

/// Returns the event of an input, and updates the messages in flight. It fails with `Mismatch` if the input is a
/// message that is not in flight.
pub(crate) fn event_of(
    flight: &mut Vec<MessageName>,
    node: u8,
    input: &Input,
    again: bool,
) -> Result<Event, WeaveFault>
    ensures made { IfOk result (λ event. IsMadeByEvent node again flight.old.items
        (seen_input input.now) flight.new.items event) }
    ensures unsent { result ≡ Err Mismatch → LacksMessage flight.old.items (seen_input input.now) }
{
    match input {
        Input::Run => Ok(Event::Run(u32::from(node))),
        Input::Taken(envelope) => take(flight, envelope, again),
    }
}

// Takes a message from flight; it stays there if it is taken again. An event names none that is further on than a number can say.
fn take(
    flight: &mut Vec<MessageName>,
    envelope: &Envelope,
    again: bool,
) -> Result<Event, WeaveFault>
    ensures takes { IfOk result (λ event. IsTakenFrom flight.old.items envelope.now again
        flight.new.items event) }
    ensures unsent { result ≡ Err Mismatch → LacksMessage flight.old.items (taken envelope.now) }
{
    let Some(place) = place_in(flight.as_slice(), envelope) else {
        return Err(WeaveFault::Mismatch);
    };
    let Ok(number) = u32::try_from(place) else {
        return Err(WeaveFault::NoMemory);
    };
    if again {
        return Ok(Event::Repeat(number));
    }
    flight.remove(place);
    Ok(Event::Deliver(number))
}

// The first place in flight of a message.
fn place_in(flight: &[MessageName], envelope: &Envelope) -> Option<usize>
    ensures { result ≡ position (has_name envelope.now) flight.now }
{
    flight.iter().position(|name| has_name(envelope, *name))
}

// Whether a message is known by this.
fn has_name(envelope: &Envelope, name: MessageName) -> bool
    ensures { result ≡ has_name envelope.now name }
{
    name.from == envelope.from && name.to == envelope.to && name.number == envelope.number
}

// Puts messages in flight.
fn send(flight: &mut Vec<MessageName>, out: &[Envelope]) -> Result<(), AllocError>
    ensures { OnOk result (flight.new.items ≡ flight.old.items ++ map message_name out.now) }
{
    for envelope in out {
        flight.push(MessageName {
            from: envelope.from,
            to: envelope.to,
            number: envelope.number,
        })?;
    }
    Ok(())
}
