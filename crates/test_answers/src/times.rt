// The times of acts.

use lrc_clock::times::times_of_acts;
use lrc_time::Time;
use lrc_trace::act::{Act, Deed};
use std::alloc::Global;

// Node 1 arrives at a barrier; node 0 gets a lock, gives it back and arrives; both depart; and node 1 gets the lock.
const ACTS: &[Act] = &[
    Act {
        node: 1,
        deed: Deed::Arrive,
    },
    Act {
        node: 0,
        deed: Deed::Acquire(1),
    },
    Act {
        node: 0,
        deed: Deed::Release(1),
    },
    Act {
        node: 0,
        deed: Deed::Arrive,
    },
    Act {
        node: 0,
        deed: Deed::Depart,
    },
    Act {
        node: 1,
        deed: Deed::Depart,
    },
    Act {
        node: 1,
        deed: Deed::Acquire(1),
    },
];

const TIMES: &[[u32; 2]] = &[[0, 1], [1, 0], [2, 0], [3, 0], [3, 1], [3, 1], [3, 2]];

/// Whether a time of two nodes is this one.
fn is_time(time: &Time, wanted: [u32; 2]) -> bool {
    time.nodes() == 2 && [time.at(0), time.at(1)] == wanted
}

fn are_times(times: &[Time], wanted: &[[u32; 2]]) -> bool {
    times.len() == wanted.len()
        && times
            .iter()
            .zip(wanted)
            .all(|(time, wanted)| is_time(time, *wanted))
}

fn are_timed(alloc: Global, acts: &[Act], wanted: &[[u32; 2]]) -> bool {
    if !acts.iter().all(|act| act.node < 2) {
        return false;
    }
    match times_of_acts(alloc, acts, 2) {
        Ok(times) => are_times(&times, wanted),
        Err(_) => false,
    }
}

#[test]
fn locks_and_barriers_hand_times_on(rt: HostRuntime) {
    assert!(rt; are_timed(rt.alloc(), ACTS, TIMES));
}
