// Events in words.

ghost use Rattle.std.specs.Prelude.{◌≡◌, ◌++◌, IfOk, OnOk};
ghost use Rattle.lrc_events.specs.Writing.{event_text, events_text};

use lrc_protocol::Event;
use lrc_text::push_number;
use std::alloc::{AllocError, Global};

/// Returns a line for each event, in order. `events_of` reads the same events from it.
pub fn events_part(alloc: Global, events: &[Event]) -> Result<Vec<u8>, AllocError>
    ensures { IfOk result (λ part. part.items ≡ events_text events.now) }
{
    let mut text = Vec::new(alloc);
    for event in events {
        push_event(&mut text, *event)?;
        text.extend_from_slice(b"\n")?;
    }
    Ok(text)
}

/// Adds an event as text, without a line end.
pub fn push_event(text: &mut Vec<u8>, event: Event) -> Result<(), AllocError>
    ensures { OnOk result (text.new.items ≡ text.old.items ++ event_text event) }
{
    match event {
        Event::Run(node) => push_number(text, b"run ", u64::from(node)),
        Event::Deliver(place) => push_number(text, b"deliver ", u64::from(place)),
        Event::Repeat(place) => push_number(text, b"repeat ", u64::from(place)),
    }
}
