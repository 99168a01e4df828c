// Runs, and their texts.

use lrc_acts_text::{acts_part, json_part, rapid_part};
use lrc_labels::label::Label;
use lrc_labels::read_labels;
use lrc_time::Time;
use lrc_timeline::timeline::Timeline;
use lrc_trace::act::{Act, Deed};
use std::alloc::{AllocError, Global};

// Whether this is the text of the acts, of which each is of a line.
fn says_acts(alloc: Global, acts: &[Act], lines: &[u32], text: &[u8]) -> bool {
    if lines.len() != acts.len() {
        return false;
    }
    match acts_part(alloc, acts, lines) {
        Ok(part) => part.as_slice() == text,
        Err(_) => false,
    }
}

// Whether this is the trace of the acts of a program with so many locks on so many nodes.
fn says_rapid(
    alloc: Global,
    acts: &[Act],
    lines: &[u32],
    locks: u8,
    nodes: u8,
    text: &[u8],
) -> bool {
    if lines.len() != acts.len() {
        return false;
    }
    match rapid_part(alloc, acts, lines, locks, nodes) {
        Ok(part) => part.as_slice() == text,
        Err(_) => false,
    }
}

// One node writes a word under a lock and another outside it, and then the other node reads both under the lock.
const PASSED_ON: &[Act] = &[
    Act {
        node: 0,
        deed: Deed::Quiet,
    },
    Act {
        node: 0,
        deed: Deed::Acquire(0),
    },
    Act {
        node: 0,
        deed: Deed::Write(0, 1),
    },
    Act {
        node: 0,
        deed: Deed::Release(0),
    },
    Act {
        node: 0,
        deed: Deed::Write(1, 2),
    },
    Act {
        node: 1,
        deed: Deed::Quiet,
    },
    Act {
        node: 1,
        deed: Deed::Acquire(0),
    },
    Act {
        node: 1,
        deed: Deed::Read(0, 1),
    },
    Act {
        node: 1,
        deed: Deed::Read(1, 0),
    },
    Act {
        node: 1,
        deed: Deed::Release(0),
    },
    Act {
        node: 1,
        deed: Deed::Print(1),
    },
    Act {
        node: 1,
        deed: Deed::Print(0),
    },
    Act {
        node: 1,
        deed: Deed::End,
    },
    Act {
        node: 0,
        deed: Deed::End,
    },
];

const LINES: &[u32] = &[3, 4, 5, 6, 7, 3, 9, 10, 11, 12, 13, 14, 16, 16];

const ACTS_TEXT: &[u8] =
    b"0 quiet # line 3\n0 acquire 0 # line 4\n0 write 0 1 # line 5\n0 release 0 # line 6\n0 write 1 2 # line 7
1 quiet # line 3\n1 acquire 0 # line 9\n1 read 0 1 # line 10\n1 read 1 0 # line 11\n1 release 0 # line 12
1 print 1 # line 13\n1 print 0 # line 14\n1 end # line 16\n0 end # line 16\n";

#[test]
fn a_line_for_each_act(rt: HostRuntime) {
    assert!(rt; says_acts(rt.alloc(), PASSED_ON, LINES, ACTS_TEXT));
}

// The time of one of two nodes that knows so many intervals of each.
fn time(first: u32, second: u32) -> Time {
    let mut time = Time::new(2);
    if first > 0 {
        time.raise(0, first);
    }
    if second > 0 {
        time.raise(1, second);
    }
    time
}

// The nodes' times just after the first acts.
fn times() -> [Time; 8] {
    [
        time(0, 0),
        time(1, 0),
        time(1, 0),
        time(2, 0),
        time(2, 0),
        time(0, 0),
        time(2, 1),
        time(2, 1),
    ]
}

// The timeline of acts of two nodes with these times.
fn timeline(alloc: Global, acts: &[Act], times: &[Time]) -> Result<Timeline, AllocError> {
    let mut line = Timeline::none(alloc);
    for (act, time) in acts.iter().zip(times.iter()) {
        line.push(act.node % 2, time)?;
    }
    Ok(line)
}

// How many times are kept of the first acts.
fn times_kept(alloc: Global) -> usize {
    match timeline(alloc, &PASSED_ON[..8], &times()) {
        Ok(line) => line.kept(),
        Err(_) => 0,
    }
}

#[test]
fn a_time_is_kept_once(rt: HostRuntime) {
    assert!(rt; times_kept(rt.alloc()) == 5);
}

// Whether this is what the acts are as JSON.
fn says_json(
    alloc: Global,
    labels: &[Label<'_>],
    acts: &[Act],
    lines: &[u32],
    times: &[Time],
    text: &[u8],
) -> bool {
    let Ok(times) = timeline(alloc, acts, times) else {
        return false;
    };
    if lines.len() != acts.len() || times.len() != acts.len() {
        return false;
    }
    match json_part(alloc, labels, acts, lines, &times) {
        Ok(part) => part.as_slice() == text,
        Err(_) => false,
    }
}

const JSON_TEXT: &[u8] =
    b"{\"act\":0,\"node\":0,\"deed\":\"quiet\",\"line\":3,\"interval\":1,\"time\":[0,0]}
{\"act\":1,\"node\":0,\"deed\":\"acquire\",\"lock\":0,\"line\":4,\"interval\":1,\"time\":[1,0]}
{\"act\":2,\"node\":0,\"deed\":\"write\",\"word\":0,\"value\":1,\"line\":5,\"interval\":2,\"time\":[1,0]}
{\"act\":3,\"node\":0,\"deed\":\"release\",\"lock\":0,\"line\":6,\"interval\":2,\"time\":[2,0]}
{\"act\":4,\"node\":0,\"deed\":\"write\",\"word\":1,\"value\":2,\"line\":7,\"interval\":3,\"time\":[2,0]}
{\"act\":5,\"node\":1,\"deed\":\"quiet\",\"line\":3,\"interval\":1,\"time\":[0,0]}
{\"act\":6,\"node\":1,\"deed\":\"acquire\",\"lock\":0,\"line\":9,\"interval\":1,\"time\":[2,1]}
{\"act\":7,\"node\":1,\"deed\":\"read\",\"word\":0,\"value\":1,\"line\":10,\"interval\":2,\"time\":[2,1]}\n";

#[test]
fn an_object_for_each_act(rt: HostRuntime) {
    assert!(rt;
        says_json(
            rt.alloc(),
            &[],
            &PASSED_ON[..8],
            &LINES[..8],
            &times(),
            JSON_TEXT
        )
    );
}

const LABELLED: &[u8] = b"#: word 0 count\n#: words 1 3 buffer\n#: lock 0 mutex\n";

const LABELLED_ACTS: &[Act] = &[
    Act {
        node: 0,
        deed: Deed::Acquire(0),
    },
    Act {
        node: 0,
        deed: Deed::Read(0, 4),
    },
    Act {
        node: 0,
        deed: Deed::Write(3, 4),
    },
    Act {
        node: 0,
        deed: Deed::Write(4, 4),
    },
    Act {
        node: 0,
        deed: Deed::Release(0),
    },
    Act {
        node: 0,
        deed: Deed::Acquire(1),
    },
];

const LABELLED_TEXT: &[u8] =
    b"{\"act\":0,\"node\":0,\"deed\":\"acquire\",\"lock\":0,\"label\":\"mutex\",\"line\":2,\"interval\":1,\"time\":[1]}
{\"act\":1,\"node\":0,\"deed\":\"read\",\"word\":0,\"label\":\"count\",\"value\":4,\"line\":2,\"interval\":2,\"time\":[1]}
{\"act\":2,\"node\":0,\"deed\":\"write\",\"word\":3,\"label\":\"buffer[2]\",\"value\":4,\"line\":2,\"interval\":2,\"time\":[1]}
{\"act\":3,\"node\":0,\"deed\":\"write\",\"word\":4,\"value\":4,\"line\":2,\"interval\":2,\"time\":[1]}
{\"act\":4,\"node\":0,\"deed\":\"release\",\"lock\":0,\"label\":\"mutex\",\"line\":2,\"interval\":2,\"time\":[2]}
{\"act\":5,\"node\":0,\"deed\":\"acquire\",\"lock\":1,\"line\":2,\"interval\":3,\"time\":[3]}\n";

// The time of one node that knows so many intervals of its own.
fn alone(known: u32) -> Time {
    let mut time = Time::new(1);
    if known > 0 {
        time.raise(0, known);
    }
    time
}

fn says_labelled(alloc: Global) -> bool {
    let times = [alone(1), alone(1), alone(1), alone(1), alone(2), alone(3)];
    match read_labels(alloc, LABELLED, 5, 2) {
        Ok(labels) => says_json(
            alloc,
            &labels.said,
            LABELLED_ACTS,
            &[2; 6],
            &times,
            LABELLED_TEXT,
        ),
        Err(_) => false,
    }
}

#[test]
fn labels_behind_words_and_locks(rt: HostRuntime) {
    assert!(rt; says_labelled(rt.alloc()));
}

const RAPID_TEXT: &[u8] = b"T0|acq(L0)|4\nT0|w(V0)|5\nT0|rel(L0)|6\nT0|w(V1)|7\nT1|acq(L0)|9
T1|r(V0)|10\nT1|r(V1)|11\nT1|rel(L0)|12\n";

#[test]
fn accesses_and_locks_as_a_trace(rt: HostRuntime) {
    assert!(rt; says_rapid(rt.alloc(), PASSED_ON, LINES, 1, 2, RAPID_TEXT));
}

// Two nodes come to a barrier and go on, one of them comes to a second one, and the other gets the third lock.
const MET: &[Act] = &[
    Act {
        node: 0,
        deed: Deed::Arrive,
    },
    Act {
        node: 1,
        deed: Deed::Arrive,
    },
    Act {
        node: 1,
        deed: Deed::Depart,
    },
    Act {
        node: 1,
        deed: Deed::Arrive,
    },
    Act {
        node: 0,
        deed: Deed::Depart,
    },
    Act {
        node: 0,
        deed: Deed::Acquire(2),
    },
];

const MET_LINES: &[u32] = &[4, 4, 4, 5, 4, 9];

const MET_TEXT: &[u8] = b"T0|acq(L3)|4\nT0|rel(L3)|4\nT1|acq(L4)|4\nT1|rel(L4)|4
T1|acq(L3)|4\nT1|rel(L3)|4\nT1|acq(L4)|4\nT1|rel(L4)|4\nT1|acq(L6)|5\nT1|rel(L6)|5
T0|acq(L3)|4\nT0|rel(L3)|4\nT0|acq(L4)|4\nT0|rel(L4)|4\nT0|acq(L2)|9\n";

#[test]
fn barriers_are_locks_past_those_of_the_program(rt: HostRuntime) {
    assert!(rt; says_rapid(rt.alloc(), MET, MET_LINES, 3, 2, MET_TEXT));
}
