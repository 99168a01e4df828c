// Which threads turn for ever.

use lrc_exec::code::Code;
use lrc_exec::spot::{Flat, Spot};
use lrc_lang::parse;
use lrc_orders_settling::turning::{Course, course_of};
use std::alloc::{AllocError, Global};

/// What comes of the beginning of a program, of which so many acts are looked at.
fn course_at_start(alloc: Global, text: &[u8], most: u64) -> Result<Course, AllocError> {
    let program = parse(alloc, text).map_err(|_fault| AllocError)?;
    let code = Code::new(alloc, &program)?;
    let (flat, place) = Flat::of(&code, 2);
    let spot = Spot {
        me: 0,
        place,
        privates: [0; 32],
        held: [false; 64],
        arrived: false,
        stopped: false,
    };
    Ok(course_of(&flat, &spot, most))
}

#[test]
fn threads_turn_that_come_round(rt: HostRuntime) {
    let alloc = rt.alloc();
    for text in [
        b"words 1; locks 0; while 1 { print 1; }".as_slice(),
        b"words 1; locks 0; while 1 { }".as_slice(),
        b"words 1; locks 0; x = 9; while x { x = x - 1; } while 1 { x = 5 - x; print x; }".as_slice(),
    ] {
        assert!(rt; course_at_start(alloc, text, 1000) == Ok(Course::Turns));
    }
}

#[test]
fn threads_stop_that_come_to_another_act(rt: HostRuntime) {
    let alloc = rt.alloc();
    for text in [
        b"words 1; locks 0; ".as_slice(),
        b"words 1; locks 0; while 1 { barrier; }".as_slice(),
        b"words 1; locks 1; while 1 { acquire 0; release 0; }".as_slice(),
        b"words 1; locks 0; x = 9; while x { x = x - 1; print x; } x = [0];".as_slice(),
    ] {
        assert!(rt; course_at_start(alloc, text, 1000) == Ok(Course::Stops));
    }
}

#[test]
fn a_thread_that_computes_for_long_is_left_open(rt: HostRuntime) {
    let text = b"words 1; locks 0; while x + 1 { x = x + 1; }";
    assert!(rt; course_at_start(rt.alloc(), text, 1000) == Ok(Course::Open));
}
