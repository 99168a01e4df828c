// Traces, beside the lines of the pairs that are told of them.
use lrc_races_trace::event::Operation;
use lrc_races_trace::event::Operation::{
    Acquire, Arrive, Depart, Fork, Idle, Join, Post, Read, Release, Wait, Write,
};

/// A trace, its events with their lines and threads, and the lines of the pairs that are told of it.
pub struct Case {
    pub events: &'static [(u64, u32, Operation)],
    pub told: &'static [(u64, u64)],
}

/// Barriers.
pub const BARRIERS: &[Case] = &[
    // barrier-arrive-twice
    Case {
        events: &[
            (1, 0, Arrive(0)),
            (2, 1, Arrive(0)),
            (3, 1, Write(0)),
            (4, 1, Arrive(0)),
            (5, 0, Depart(0)),
            (6, 0, Read(0)),
            (7, 1, Write(1)),
            (8, 1, Arrive(0)),
            (9, 1, Depart(0)),
            (10, 0, Read(1)),
        ],
        told: &[(7, 10)],
    },
    // barrier-between
    Case {
        events: &[
            (1, 0, Arrive(0)),
            (2, 0, Write(0)),
            (3, 1, Arrive(0)),
            (4, 1, Depart(0)),
            (5, 1, Read(0)),
            (6, 0, Depart(0)),
        ],
        told: &[(2, 5)],
    },
    // barrier-cycles
    Case {
        events: &[
            (1, 0, Arrive(0)),
            (2, 1, Arrive(0)),
            (3, 0, Depart(0)),
            (4, 0, Write(0)),
            (5, 0, Arrive(0)),
            (6, 1, Depart(0)),
            (7, 1, Write(1)),
            (8, 1, Read(0)),
            (9, 1, Arrive(0)),
            (10, 2, Write(2)),
            (11, 2, Arrive(0)),
            (12, 2, Depart(0)),
            (13, 2, Read(0)),
            (14, 0, Depart(0)),
            (15, 0, Read(1)),
            (16, 0, Read(2)),
            (17, 1, Depart(0)),
            (18, 1, Read(2)),
        ],
        told: &[(4, 8)],
    },
    // barrier-depart-of-none
    Case {
        events: &[
            (1, 0, Write(0)),
            (2, 0, Arrive(0)),
            (3, 1, Depart(0)),
            (4, 2, Write(1)),
            (5, 2, Arrive(0)),
            (6, 0, Depart(0)),
            (7, 0, Read(1)),
            (8, 1, Read(0)),
        ],
        told: &[(1, 8)],
    },
    // barrier-depart-twice
    Case {
        events: &[
            (1, 0, Arrive(0)),
            (2, 0, Depart(0)),
            (3, 1, Write(0)),
            (4, 1, Arrive(0)),
            (5, 0, Depart(0)),
            (6, 0, Read(0)),
            (7, 1, Depart(0)),
        ],
        told: &[(3, 6)],
    },
    // barrier-late
    Case {
        events: &[
            (1, 0, Arrive(0)),
            (2, 1, Arrive(0)),
            (3, 0, Depart(0)),
            (4, 2, Write(0)),
            (5, 2, Arrive(0)),
            (6, 1, Depart(0)),
            (7, 1, Read(0)),
            (8, 2, Depart(0)),
        ],
        told: &[(4, 7)],
    },
    // barrier-missing
    Case {
        events: &[
            (1, 0, Write(0)),
            (2, 0, Arrive(0)),
            (3, 1, Arrive(1)),
            (4, 1, Depart(1)),
            (5, 0, Depart(0)),
            (6, 1, Read(0)),
            (7, 2, Read(0)),
        ],
        told: &[(1, 6), (1, 7)],
    },
    // barrier-some
    Case {
        events: &[
            (1, 0, Write(0)),
            (2, 0, Arrive(0)),
            (3, 1, Arrive(0)),
            (4, 1, Depart(0)),
            (5, 0, Depart(0)),
            (6, 1, Read(0)),
            (7, 1, Arrive(0)),
            (8, 2, Arrive(0)),
            (9, 2, Depart(0)),
            (10, 2, Write(0)),
            (11, 1, Depart(0)),
            (12, 1, Read(0)),
        ],
        told: &[(10, 12)],
    },
    // barrier
    Case {
        events: &[
            (1, 0, Write(0)),
            (2, 1, Write(1)),
            (3, 0, Arrive(0)),
            (4, 1, Arrive(0)),
            (5, 1, Depart(0)),
            (6, 1, Read(0)),
            (7, 0, Depart(0)),
            (8, 0, Read(1)),
        ],
        told: &[],
    },
];

/// Locks.
pub const LOCKS: &[Case] = &[
    // lock-after-release
    Case {
        events: &[
            (1, 0, Acquire(0)),
            (2, 0, Release(0)),
            (3, 0, Write(0)),
            (4, 1, Acquire(0)),
            (5, 1, Write(0)),
            (6, 1, Release(0)),
        ],
        told: &[(3, 5)],
    },
    // lock-back
    Case {
        events: &[
            (1, 0, Acquire(0)),
            (2, 0, Release(0)),
            (3, 1, Write(0)),
            (4, 1, Acquire(0)),
            (5, 1, Release(0)),
            (6, 0, Read(0)),
        ],
        told: &[(3, 6)],
    },
    // lock-missing
    Case {
        events: &[
            (1, 0, Acquire(0)),
            (2, 0, Write(0)),
            (3, 0, Release(0)),
            (4, 1, Write(0)),
        ],
        told: &[(2, 4)],
    },
    // lock-older-release
    Case {
        events: &[
            (1, 0, Write(0)),
            (2, 0, Release(0)),
            (3, 1, Release(0)),
            (4, 2, Acquire(0)),
            (5, 2, Write(0)),
        ],
        told: &[],
    },
    // lock-other
    Case {
        events: &[
            (1, 0, Acquire(0)),
            (2, 0, Write(0)),
            (3, 0, Release(0)),
            (4, 1, Acquire(1)),
            (5, 1, Write(0)),
            (6, 1, Release(1)),
        ],
        told: &[(2, 5)],
    },
    // lock
    Case {
        events: &[
            (1, 0, Acquire(0)),
            (2, 0, Write(0)),
            (3, 0, Release(0)),
            (4, 1, Acquire(0)),
            (5, 1, Write(0)),
            (6, 1, Release(0)),
        ],
        told: &[],
    },
    // post-all
    Case {
        events: &[
            (1, 0, Write(0)),
            (2, 0, Post(0)),
            (3, 1, Write(1)),
            (4, 1, Post(0)),
            (5, 2, Acquire(0)),
            (6, 2, Write(2)),
            (7, 2, Release(0)),
            (8, 3, Wait(0)),
            (9, 3, Read(0)),
            (10, 3, Read(1)),
            (11, 3, Read(2)),
            (12, 4, Acquire(0)),
            (13, 4, Read(0)),
        ],
        told: &[],
    },
    // post-wait
    Case {
        events: &[
            (1, 0, Wait(0)),
            (2, 1, Write(0)),
            (3, 1, Post(0)),
            (4, 0, Read(0)),
            (5, 0, Wait(0)),
            (6, 0, Write(0)),
            (7, 2, Wait(0)),
            (8, 2, Read(0)),
        ],
        told: &[(2, 4), (6, 8)],
    },
    // chain
    Case {
        events: &[
            (1, 0, Write(0)),
            (2, 0, Acquire(0)),
            (3, 0, Release(0)),
            (4, 1, Acquire(1)),
            (5, 1, Release(1)),
            (6, 1, Acquire(0)),
            (7, 1, Release(0)),
            (8, 2, Acquire(1)),
            (9, 2, Release(1)),
            (10, 2, Read(0)),
            (11, 1, Acquire(1)),
            (12, 1, Release(1)),
            (13, 2, Acquire(1)),
            (14, 2, Release(1)),
            (15, 2, Read(0)),
        ],
        told: &[(1, 10)],
    },
];

/// Forks.
pub const FORKS: &[Case] = &[
    // fork-after
    Case {
        events: &[(1, 0, Fork(1)), (2, 0, Write(0)), (3, 1, Write(0))],
        told: &[(2, 3)],
    },
    // fork-join-alone
    Case {
        events: &[
            (1, 0, Write(0)),
            (2, 0, Fork(1)),
            (3, 2, Join(1)),
            (4, 2, Write(0)),
        ],
        told: &[],
    },
    // fork-join-two
    Case {
        events: &[
            (1, 0, Write(0)),
            (2, 0, Fork(1)),
            (3, 2, Join(3)),
            (4, 2, Write(0)),
        ],
        told: &[(1, 4)],
    },
    // fork-late
    Case {
        events: &[
            (1, 0, Write(0)),
            (2, 1, Write(1)),
            (3, 1, Fork(0)),
            (4, 0, Read(1)),
            (5, 1, Read(0)),
        ],
        told: &[(1, 5)],
    },
    // fork-self
    Case {
        events: &[(1, 0, Fork(0)), (2, 0, Write(0)), (3, 1, Read(0))],
        told: &[(2, 3)],
    },
    // fork
    Case {
        events: &[(1, 0, Write(0)), (2, 0, Fork(1)), (3, 1, Write(0))],
        told: &[],
    },
    // join-goes-on-first
    Case {
        events: &[
            (1, 0, Idle),
            (2, 1, Write(0)),
            (3, 0, Join(1)),
            (4, 0, Join(1)),
            (5, 1, Write(0)),
            (6, 0, Read(0)),
        ],
        told: &[(5, 6)],
    },
    // join-missing
    Case {
        events: &[(1, 0, Fork(1)), (2, 1, Write(0)), (3, 0, Write(0))],
        told: &[(2, 3)],
    },
    // join-not-back
    Case {
        events: &[(1, 0, Write(0)), (2, 0, Join(1)), (3, 1, Read(0))],
        told: &[(1, 3)],
    },
    // join-self-last
    Case {
        events: &[(1, 0, Write(0)), (2, 0, Join(0))],
        told: &[],
    },
    // join-self
    Case {
        events: &[(1, 0, Join(0)), (2, 0, Write(0)), (3, 1, Write(0))],
        told: &[(2, 3)],
    },
    // join-then-goes-on
    Case {
        events: &[
            (1, 0, Write(0)),
            (2, 1, Join(0)),
            (3, 0, Write(0)),
            (4, 1, Read(0)),
        ],
        told: &[(3, 4)],
    },
    // join-twice
    Case {
        events: &[
            (1, 0, Write(0)),
            (2, 1, Join(0)),
            (3, 2, Join(0)),
            (4, 1, Read(0)),
            (5, 2, Read(0)),
            (6, 0, Idle),
        ],
        told: &[],
    },
    // join
    Case {
        events: &[
            (1, 0, Fork(1)),
            (2, 1, Write(0)),
            (3, 0, Join(1)),
            (4, 0, Write(0)),
        ],
        told: &[],
    },
];

/// Races.
pub const RACES: &[Case] = &[
    // threads come in another order than that of their numbers
    Case {
        events: &[
            (1, 5, Write(0)),
            (2, 1, Read(0)),
            (3, 3, Write(0)),
            (4, 1, Read(0)),
            (5, 0, Write(0)),
        ],
        told: &[
            (1, 2),
            (2, 3),
            (1, 3),
            (3, 4),
            (1, 4),
            (4, 5),
            (3, 5),
            (1, 5),
        ],
    },
    // after-a-race
    Case {
        events: &[
            (1, 0, Write(0)),
            (2, 1, Write(0)),
            (3, 2, Join(0)),
            (4, 2, Read(0)),
            (5, 2, Join(1)),
            (6, 2, Write(0)),
            (7, 3, Read(0)),
        ],
        told: &[(1, 2), (2, 4), (1, 7), (2, 7), (6, 7)],
    },
    // last-of-thread
    Case {
        events: &[
            (1, 0, Write(0)),
            (2, 0, Write(0)),
            (3, 0, Read(0)),
            (4, 1, Read(0)),
            (5, 1, Write(0)),
            (6, 0, Write(0)),
            (7, 1, Write(0)),
        ],
        told: &[(2, 4), (3, 5), (5, 6), (6, 7)],
    },
    // last-some-ordered
    Case {
        events: &[
            (1, 0, Write(0)),
            (2, 0, Acquire(0)),
            (3, 0, Release(0)),
            (4, 0, Read(0)),
            (5, 1, Acquire(0)),
            (6, 1, Read(0)),
            (7, 1, Write(0)),
            (8, 1, Release(0)),
        ],
        told: &[(4, 7)],
    },
    // one-thread
    Case {
        events: &[(1, 0, Write(0)), (2, 0, Read(0)), (3, 0, Write(0))],
        told: &[],
    },
    // read-read
    Case {
        events: &[(1, 0, Read(0)), (2, 1, Read(0)), (3, 2, Read(0))],
        told: &[],
    },
    // read-write
    Case {
        events: &[
            (1, 0, Read(0)),
            (2, 1, Write(0)),
            (3, 1, Write(1)),
            (4, 0, Write(1)),
        ],
        told: &[(1, 2), (3, 4)],
    },
    // readers-one-known
    Case {
        events: &[
            (1, 0, Write(0)),
            (2, 0, Post(0)),
            (3, 1, Wait(0)),
            (4, 2, Wait(0)),
            (5, 1, Read(0)),
            (6, 1, Post(1)),
            (7, 2, Read(0)),
            (8, 3, Wait(1)),
            (9, 3, Write(0)),
            (10, 2, Post(2)),
            (11, 3, Wait(2)),
            (12, 3, Write(0)),
            (13, 2, Read(0)),
        ],
        told: &[(7, 9), (12, 13)],
    },
    // readers-writers
    Case {
        events: &[
            (1, 0, Acquire(0)),
            (2, 0, Wait(1)),
            (3, 0, Write(0)),
            (4, 0, Release(0)),
            (5, 1, Wait(0)),
            (6, 2, Wait(0)),
            (7, 1, Read(0)),
            (8, 1, Write(1)),
            (9, 2, Write(1)),
            (10, 2, Read(0)),
            (11, 1, Post(1)),
            (12, 2, Post(1)),
            (13, 0, Acquire(0)),
            (14, 0, Wait(1)),
            (15, 0, Write(0)),
            (16, 0, Read(1)),
            (17, 0, Release(0)),
        ],
        told: &[(8, 9)],
    },
    // told-order
    Case {
        events: &[
            (1, 0, Fork(1)),
            (2, 0, Fork(2)),
            (3, 0, Fork(3)),
            (4, 2, Write(0)),
            (5, 3, Write(0)),
            (6, 1, Read(0)),
            (7, 0, Write(0)),
        ],
        told: &[(4, 5), (4, 6), (5, 6), (6, 7), (4, 7), (5, 7)],
    },
    // unordered-reads
    Case {
        events: &[
            (1, 0, Read(0)),
            (2, 1, Read(0)),
            (3, 2, Write(0)),
            (4, 0, Read(0)),
            (5, 2, Write(0)),
        ],
        told: &[(1, 3), (2, 3), (3, 4), (4, 5), (2, 5)],
    },
    // write-read
    Case {
        events: &[(1, 0, Write(0)), (2, 1, Read(0))],
        told: &[(1, 2)],
    },
    // idle
    Case {
        events: &[
            (1, 0, Idle),
            (2, 0, Write(0)),
            (3, 0, Idle),
            (4, 0, Idle),
            (5, 0, Idle),
            (6, 0, Idle),
            (7, 0, Idle),
            (8, 1, Idle),
            (9, 1, Idle),
            (10, 1, Read(0)),
        ],
        told: &[(2, 10)],
    },
    // chain-of-all
    Case {
        events: &[
            (1, 0, Write(0)),
            (2, 0, Fork(1)),
            (3, 1, Acquire(0)),
            (4, 1, Release(0)),
            (5, 2, Acquire(0)),
            (6, 2, Release(0)),
            (7, 2, Arrive(0)),
            (8, 3, Arrive(0)),
            (9, 3, Depart(0)),
            (10, 3, Post(1)),
            (11, 4, Wait(1)),
            (12, 5, Join(4)),
            (13, 5, Write(0)),
            (14, 2, Depart(0)),
            (15, 2, Read(0)),
        ],
        told: &[(13, 15)],
    },
];
