// What threads do by themselves, where they come to, and the numbers of these.

ghost use Rattle.std.specs.Prelude.{◌≡◌};

use lrc_exec::code::Code;
use lrc_exec::spot::{Flat, Spot};
use lrc_lang::parse;
use lrc_orders_settling::settling::{Settling, settle_thread};
use lrc_orders_settling::table::SettledThreads;
use lrc_trace::act::{Cause, Deed};
use std::alloc::{AllocError, Global};

/// Where a thread comes to by itself.
#[derive(Clone, Copy, PartialEq, Eq)]
enum Place {
    /// An act that is not free.
    Contended,
    /// A barrier.
    Barrier,
    /// Its end, or a trap.
    Over,
    /// Where it turns for ever.
    Turning,
    /// Not known.
    Open,
}

/// A program, how many acts are looked at, and what its beginning does by itself; it holds locks 0 and 1 there.
#[derive(Clone, Copy)]
struct Row<'a> {
    text: &'a [u8],
    most: u64,
    deeds: &'a [Deed],
    place: Place,
}

fn place_of(settling: &Settling) -> Place {
    match settling {
        Settling::Waits(spot, _) => {
            if spot.stopped {
                Place::Over
            } else if spot.arrived {
                Place::Barrier
            } else {
                Place::Contended
            }
        }
        Settling::Turns(..) => Place::Turning,
        Settling::Open => Place::Open,
    }
}

/// A thread of node 0 at a place, with locks 0 and 1.
fn spot_at(place: usize) -> Spot
    ensures { result.place ≡ place }
{
    let mut held = [false; 64];
    held[0] = true;
    held[1] = true;
    Spot {
        me: 0,
        place,
        privates: [0; 32],
        held,
        arrived: false,
        stopped: false,
    }
}

/// Whether the beginning of a program settles as its row says.
fn settles_so(alloc: Global, row: Row) -> Result<bool, AllocError> {
    let program = parse(alloc, row.text).map_err(|_fault| AllocError)?;
    let code = Code::new(alloc, &program)?;
    let (flat, place) = Flat::of(&code, 2);
    let settling = settle_thread(alloc, &flat, &spot_at(place), row.most)?;
    let same = match &settling {
        Settling::Waits(_, made) | Settling::Turns(_, made) => made.as_slice() == row.deeds,
        Settling::Open => row.deeds.is_empty(),
    };
    Ok(same && place_of(&settling) == row.place)
}

/// The numbers that threads at these places get, one after another.
fn numbers_of(alloc: Global, places: &[usize]) -> Result<Vec<usize>, AllocError> {
    let mut threads = SettledThreads::new(alloc);
    let mut numbers = Vec::new(alloc);
    for place in places {
        numbers.push(threads.number(&spot_at(*place))?)?;
    }
    Ok(numbers)
}

#[test]
fn threads_settle_where_an_act_is_not_free(rt: HostRuntime) {
    let alloc = rt.alloc();
    let rows = [
        Row {
            text: b"words 1; locks 2; x = [0];",
            most: 100,
            deeds: &[],
            place: Place::Contended,
        },
        Row {
            text: b"words 1; locks 2; x = 3; print x; release 1; release 0; [0] = 1;",
            most: 100,
            deeds: &[
                Deed::Quiet,
                Deed::Print(3),
                Deed::Release(1),
                Deed::Release(0),
            ],
            place: Place::Contended,
        },
        Row {
            text: b"words 1; locks 2; release 1; acquire 1; print 1;",
            most: 100,
            deeds: &[Deed::Release(1)],
            place: Place::Contended,
        },
        Row {
            text: b"words 1; locks 2; print 1; barrier; print 2;",
            most: 100,
            deeds: &[Deed::Print(1), Deed::Arrive],
            place: Place::Barrier,
        },
        Row {
            text: b"words 1; locks 2; print 1;",
            most: 100,
            deeds: &[Deed::Print(1), Deed::End],
            place: Place::Over,
        },
        Row {
            text: b"words 1; locks 2; x = 1 / 0; print 1;",
            most: 100,
            deeds: &[Deed::Trap(Cause::DivisionByZero)],
            place: Place::Over,
        },
        Row {
            text: b"words 1; locks 2; release 0; release 0;",
            most: 100,
            deeds: &[Deed::Release(0), Deed::Trap(Cause::LockNotHeld)],
            place: Place::Over,
        },
    ];
    for row in rows {
        assert!(rt; settles_so(alloc, row) == Ok(true));
    }
}

#[test]
fn threads_settle_where_they_turn_for_ever(rt: HostRuntime) {
    let alloc = rt.alloc();
    let rows = [
        Row {
            text: b"words 1; locks 2; print 1; while 1 { print 2; }",
            most: 100,
            deeds: &[],
            place: Place::Turning,
        },
        Row {
            text: b"words 1; locks 2; print 1; release 0; print 2; while 1 { }",
            most: 100,
            deeds: &[Deed::Print(1), Deed::Release(0)],
            place: Place::Turning,
        },
        Row {
            text: b"words 1; locks 2; while x < 2 { x = x + 1; } release x - 1; print 2;",
            most: 100,
            deeds: &[
                Deed::Quiet,
                Deed::Quiet,
                Deed::Quiet,
                Deed::Quiet,
                Deed::Quiet,
                Deed::Release(1),
                Deed::Print(2),
                Deed::End,
            ],
            place: Place::Over,
        },
    ];
    for row in rows {
        assert!(rt; settles_so(alloc, row) == Ok(true));
    }
}

#[test]
fn threads_are_left_open_after_as_many_acts_as_are_looked_at(rt: HostRuntime) {
    let alloc = rt.alloc();
    let rows = [
        Row {
            text: b"words 1; locks 2; while x + 1 { x = x + 1; }",
            most: 1000,
            deeds: &[],
            place: Place::Open,
        },
        Row {
            text: b"words 1; locks 2; print 1; print 2; x = [0];",
            most: 2,
            deeds: &[],
            place: Place::Open,
        },
        Row {
            text: b"words 1; locks 2; print 1; print 2; x = [0];",
            most: 3,
            deeds: &[Deed::Print(1), Deed::Print(2)],
            place: Place::Contended,
        },
        Row {
            text: b"words 1; locks 2; release 0; release 1; print 1;",
            most: 3,
            deeds: &[],
            place: Place::Open,
        },
    ];
    for row in rows {
        assert!(rt; settles_so(alloc, row) == Ok(true));
    }
}

#[test]
fn a_thread_has_one_number(rt: HostRuntime) -> Result<(), AllocError> {
    let numbers = numbers_of(rt.alloc(), &[5, 3, 5, 0, 3, 7, 0])?;
    assert!(rt; numbers.as_slice() == [0, 1, 0, 2, 1, 3, 2].as_slice());
    Ok(())
}
