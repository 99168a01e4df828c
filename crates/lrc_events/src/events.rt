// The text of a list of events.

ghost use Rattle.std.specs.Prelude.{◌≡◌, ◌≤◌, ℕ, IfErr, IfOk, MatchOption, Err, Ok, length};
ghost use Rattle.lrc_text.specs.Digits.{IsNumber};
ghost use Rattle.lrc_text.specs.Lines.{lines_of};
ghost use Rattle.lrc_protocol.specs.declared.event.Event.{Event};
ghost use Rattle.lrc_events.specs.EventsText.{NamesEvent, NamesSome, ReadsEvents, most_events_bytes};
ghost use Rattle.lrc_events.specs.declared.events.EventsFault.TheVariants.{NoMemory};

use lrc_protocol::Event;
use lrc_text::read_number;
use std::alloc::{AllocFailed, Global};

/// The length of the longest text of events, in bytes.
pub const MOST_BYTES: usize = 16_777_216;

const GREATEST_PLACE: u64 = 4_294_967_295;

/// Why a text was not read as events.
#[derive(Clone, Copy, Debug, PartialEq, Eq)]
pub enum EventsFault {
    /// The line with this number, counted from 1, is not an event.
    BadEvent(u32),
    /// Memory ran out.
    NoMemory,
}

impl<T: Drop> From<AllocFailed<T>> for EventsFault {
    ghost from_gives = { λ _ fault. fault ≡ NoMemory };

    fn from(_error: AllocFailed<T>) -> EventsFault {
        EventsFault::NoMemory
    }
}

/// Reads the events of a text, one on each line: `run N`, `deliver N` or `repeat N`, with a number of up to 4294967295
/// in decimal digits. Empty lines are skipped. A text of more than 16,777,216 bytes is wrong in its first line. Memory
/// can run out only if there is an event to keep.
pub fn events_of(alloc: Global, text: &[u8]) -> Result<Vec<Event>, EventsFault>
    ensures ok { IfOk result (λ events. ReadsEvents text.now (Ok events.items)) }
    ensures err { IfErr result (λ fault. ReadsEvents text.now (Err fault)) }
    ensures memory { IfErr result (λ fault. fault ≡ NoMemory
        → (length text.now ≤ most_events_bytes) × NamesSome (lines_of text.now)) }
{
    if text.len() > MOST_BYTES {
        return Err(EventsFault::BadEvent(1));
    }
    let mut events = Vec::new(alloc);
    let mut number = 0;
    for line in text.split(|byte| *byte == b'\n') {
        number += 1;
        if line.is_empty() {
            continue;
        }
        match event_on(line) {
            Some(event) => events.push(event)?,
            None => return Err(EventsFault::BadEvent(number)),
        }
    }
    Ok(events)
}

fn event_on(line: &[u8]) -> Option<Event>
    ensures { MatchOption result ((event : Event) → ¬ NamesEvent line.now event)
        (λ event. NamesEvent line.now event) }
{
    if let Some(digits) = line.strip_prefix(b"run ") {
        return Some(Event::Run(place_in(digits)?));
    }
    if let Some(digits) = line.strip_prefix(b"deliver ") {
        return Some(Event::Deliver(place_in(digits)?));
    }
    let digits = line.strip_prefix(b"repeat ")?;
    Some(Event::Repeat(place_in(digits)?))
}

fn place_in(digits: &[u8]) -> Option<u32>
    ensures { MatchOption result ((place : ℕ) → ¬ IsNumber digits.now 4294967295 place)
        (λ place. IsNumber digits.now 4294967295 place) }
{
    Some(read_number(digits, GREATEST_PLACE)? as u32)
}
