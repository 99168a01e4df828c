// Groups of the pairs that are told.

use lrc_races_detector::detector::Detector;
use lrc_races_detector::groups::Groups;
use lrc_races_trace::event::Operation::{Read, Release, Write};
use lrc_races_trace::event::{Event, Operation};
use lrc_races_trace::group::Group;
use std::alloc::{AllocError, Global};

// A trace, its events with their threads and locations, the first on line 1; and of each group the lines of the first pair, and
// how many pairs it has.
struct Case {
    name: &'static str,
    events: &'static [(u32, Operation, Option<u32>)],
    groups: &'static [(u64, u64, u64)],
}

const CASES: &[Case] = &[
    Case {
        name: "by locations and kinds, in the order in which they are first told",
        events: &[
            (0, Write(0), Some(0)),
            (1, Read(0), Some(1)),
            (1, Read(0), Some(1)),
            (0, Write(1), Some(0)),
            (1, Write(1), Some(1)),
            (1, Read(1), Some(1)),
            (2, Read(0), Some(1)),
            (2, Read(0), Some(2)),
        ],
        groups: &[(1, 2, 4), (4, 5, 1), (1, 8, 1)],
    },
    Case {
        name: "a location on either side, and none",
        events: &[
            (0, Write(0), Some(0)),
            (1, Write(0), Some(1)),
            (0, Write(0), Some(0)),
            (1, Read(0), None),
            (0, Write(0), None),
            (1, Read(0), Some(2)),
        ],
        groups: &[(1, 2, 1), (2, 3, 1), (3, 4, 1), (4, 5, 1), (5, 6, 1)],
    },
    Case {
        name: "no locations",
        events: &[(0, Write(1), None), (1, Read(1), None), (2, Write(1), None)],
        groups: &[(1, 2, 1), (1, 3, 1), (2, 3, 1)],
    },
    Case {
        name: "lines of a program",
        events: &[
            (0, Write(0), Some(0)),
            (1, Read(0), Some(1)),
            (2, Read(0), Some(1)),
            (1, Read(0), Some(2)),
            (1, Write(0), Some(0)),
            (2, Write(1), Some(0)),
            (0, Write(1), None),
        ],
        groups: &[(1, 2, 2), (1, 4, 1), (1, 5, 1), (3, 5, 1), (6, 7, 1)],
    },
    Case {
        name: "no pairs",
        events: &[(0, Release(0), Some(0))],
        groups: &[],
    },
];

fn take_all(
    alloc: Global,
    detector: &mut Detector,
    groups: &mut Groups,
    events: &[(u32, Operation, Option<u32>)],
) -> Result<(), AllocError> {
    let mut told = Vec::new(alloc);
    let mut line: u64 = 0;
    for (thread, operation, location) in events {
        line = line.saturating_add(1);
        let event = Event {
            thread: *thread,
            operation: *operation,
            line,
            location: *location,
        };
        if detector.position < 1000 {
            detector.take(event, &mut told)?;
            groups.take(told.as_slice())?;
        }
    }
    Ok(())
}

fn are_same(found: &[Group], wanted: &[(u64, u64, u64)]) -> bool {
    found.len() == wanted.len()
        && found.iter().zip(wanted).all(|(group, (earlier, later, count))| {
            group.first.earlier.event.line == *earlier
                && group.first.later.event.line == *later
                && group.count == *count
        })
}

fn plays(alloc: Global, case: &Case) -> bool {
    let mut detector = Detector::new(alloc);
    let mut groups = Groups::new(alloc);
    match take_all(alloc, &mut detector, &mut groups, case.events) {
        Ok(()) => are_same(groups.list(), case.groups),
        Err(_) => false,
    }
}

#[test]
fn pairs_are_grouped_by_locations_and_kinds(rt: HostRuntime) {
    for case in CASES {
        assert!(rt; plays(rt.alloc(), case), "{}", case.name);
    }
}
