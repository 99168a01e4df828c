// Events as they are written, and as they are read.

use lrc_events::events::events_of;
use lrc_events::events_part;
use lrc_protocol::Event;
use std::alloc::Global;

const EVENTS: &[Event] = &[Event::Run(1), Event::Deliver(20), Event::Repeat(u32::MAX)];

const TEXT: &[u8] = b"run 1\ndeliver 20\nrepeat 4294967295\n";

// Whether this is written of the events.
fn is_written(alloc: Global, events: &[Event], text: &[u8]) -> bool {
    match events_part(alloc, events) {
        Ok(part) => part.as_slice() == text,
        Err(_) => false,
    }
}

// Whether the text is read as the events.
fn is_read(alloc: Global, text: &[u8], events: &[Event]) -> bool {
    match events_of(alloc, text) {
        Ok(read) => read.as_slice() == events,
        Err(_) => false,
    }
}

#[test]
fn an_event_stands_on_each_line(rt: HostRuntime) {
    assert!(rt; is_written(rt.alloc(), EVENTS, TEXT));
}

#[test]
fn what_is_written_is_read(rt: HostRuntime) {
    assert!(rt; is_read(rt.alloc(), TEXT, EVENTS));
}
