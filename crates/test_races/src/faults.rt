// The first event of a trace that no program would give.

use lrc_races_detector::fault_finder::FaultFinder;
use lrc_races_trace::event::Operation::{
    Acquire, Arrive, Depart, Fork, Idle, Join, Post, Read, Release, Wait, Write,
};
use lrc_races_trace::event::{Event, Operation};
use lrc_races_trace::fault::{Fault, Reason};
use std::alloc::{AllocError, Global};

// A trace, its events with their threads, the first on line 1; and the line of the first fault, with its reason.
struct Case {
    name: &'static str,
    events: &'static [(u32, Operation)],
    fault: Option<(u64, Reason)>,
}

const CASES: &[Case] = &[
    Case {
        name: "a lock is held by another thread since the acquire by which it came to hold it",
        events: &[
            (0, Acquire(0)),
            (0, Release(0)),
            (0, Acquire(0)),
            (0, Acquire(0)),
            (0, Release(0)),
            (1, Acquire(0)),
        ],
        fault: Some((
            6,
            Reason::Held {
                lock: 0,
                thread: 0,
                line: 3,
            },
        )),
    },
    Case {
        name: "a lock that its thread holds may be acquired again",
        events: &[
            (0, Acquire(0)),
            (0, Acquire(0)),
            (0, Write(0)),
            (0, Release(0)),
            (0, Release(0)),
            (1, Acquire(0)),
            (1, Write(0)),
            (1, Release(0)),
        ],
        fault: None,
    },
    Case {
        name: "a release too many",
        events: &[
            (0, Acquire(0)),
            (0, Acquire(0)),
            (0, Release(0)),
            (0, Release(0)),
            (0, Release(0)),
        ],
        fault: Some((5, Reason::NotHeld { lock: 0 })),
    },
    Case {
        name: "a release of a lock that another thread holds",
        events: &[(0, Acquire(0)), (1, Release(0)), (0, Release(0))],
        fault: Some((2, Reason::NotHeld { lock: 0 })),
    },
    Case {
        name: "post and wait hold nothing",
        events: &[
            (0, Acquire(0)),
            (1, Post(0)),
            (1, Wait(0)),
            (0, Post(0)),
            (0, Release(0)),
            (1, Post(0)),
        ],
        fault: None,
    },
    Case {
        name: "the first fault alone is told",
        events: &[
            (0, Write(0)),
            (0, Release(0)),
            (1, Release(1)),
            (1, Write(0)),
        ],
        fault: Some((2, Reason::NotHeld { lock: 0 })),
    },
    Case {
        name: "an event of a thread that was joined, twice",
        events: &[
            (0, Fork(1)),
            (1, Write(0)),
            (0, Join(1)),
            (2, Join(1)),
            (1, Write(0)),
        ],
        fault: Some((5, Reason::Joined { line: 3 })),
    },
    Case {
        name: "an event that does nothing, of a thread that was joined",
        events: &[(0, Fork(1)), (0, Join(1)), (1, Idle)],
        fault: Some((3, Reason::Joined { line: 2 })),
    },
    Case {
        name: "a thread may join itself, and then does nothing more",
        events: &[(0, Join(0)), (1, Write(0)), (0, Write(0))],
        fault: Some((3, Reason::Joined { line: 1 })),
    },
    Case {
        name: "a thread was joined, and the lock that it acquires is held",
        events: &[
            (0, Acquire(0)),
            (0, Join(1)),
            (1, Acquire(0)),
            (1, Arrive(0)),
        ],
        fault: Some((3, Reason::Joined { line: 2 })),
    },
    Case {
        name: "a thread is forked twice",
        events: &[(0, Fork(2)), (1, Write(0)), (1, Fork(2))],
        fault: Some((3, Reason::Known { thread: 2, line: 1 })),
    },
    Case {
        name: "a thread is forked that has an event",
        events: &[(2, Idle), (2, Read(0)), (0, Fork(2))],
        fault: Some((3, Reason::Known { thread: 2, line: 1 })),
    },
    Case {
        name: "a thread forks itself",
        events: &[(0, Fork(0))],
        fault: Some((1, Reason::Known { thread: 0, line: 1 })),
    },
    Case {
        name: "a join makes no thread known",
        events: &[(0, Join(1)), (0, Fork(1)), (1, Read(0))],
        fault: Some((3, Reason::Joined { line: 1 })),
    },
    Case {
        name: "a depart without an arrive",
        events: &[
            (0, Arrive(0)),
            (1, Arrive(0)),
            (1, Depart(0)),
            (1, Depart(0)),
        ],
        fault: Some((4, Reason::NotArrived { barrier: 0 })),
    },
    Case {
        name: "the depart from another barrier",
        events: &[(0, Arrive(0)), (0, Depart(1))],
        fault: Some((
            2,
            Reason::Waits {
                barrier: 0,
                line: 1,
            },
        )),
    },
    Case {
        name: "the arrive at another barrier",
        events: &[(0, Arrive(0)), (0, Arrive(1)), (0, Depart(0))],
        fault: Some((
            2,
            Reason::Waits {
                barrier: 0,
                line: 1,
            },
        )),
    },
    Case {
        name: "a second arrive at one barrier",
        events: &[
            (0, Arrive(3)),
            (0, Depart(3)),
            (0, Arrive(3)),
            (1, Write(0)),
            (0, Arrive(3)),
        ],
        fault: Some((
            5,
            Reason::Waits {
                barrier: 3,
                line: 3,
            },
        )),
    },
];

fn take_all(
    finder: &mut FaultFinder,
    events: &[(u32, Operation)],
) -> Result<Option<Fault>, AllocError> {
    let mut line: u64 = 0;
    for (thread, operation) in events {
        line = line.saturating_add(1);
        let event = Event {
            thread: *thread,
            operation: *operation,
            line,
            location: None,
        };
        finder.take(event)?;
    }
    Ok(finder.fault())
}

fn is_same(found: Result<Option<Fault>, AllocError>, wanted: &Option<(u64, Reason)>) -> bool {
    match (found, wanted) {
        (Ok(Some(found)), Some((line, reason))) => {
            found.event.line == *line && found.reason == *reason
        }
        (Ok(None), None) => true,
        _ => false,
    }
}

fn plays(alloc: Global, case: &Case) -> bool {
    let mut finder = FaultFinder::new(alloc);
    is_same(take_all(&mut finder, case.events), &case.fault)
}

#[test]
fn the_first_fault_is_found(rt: HostRuntime) {
    for case in CASES {
        assert!(rt; plays(rt.alloc(), case), "{}", case.name);
    }
}
