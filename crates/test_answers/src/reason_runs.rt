// Runs of a few acts.

use lrc_trace::act::{Act, Deed};

/// Three nodes write a word: the first is in order with one of the others.
pub const CROSSED_TWICE: &[Act] = &[
    Act {
        node: 0,
        deed: Deed::Write(0, 1),
    },
    Act {
        node: 0,
        deed: Deed::Release(1),
    },
    Act {
        node: 1,
        deed: Deed::Acquire(1),
    },
    Act {
        node: 1,
        deed: Deed::Write(0, 2),
    },
    Act {
        node: 2,
        deed: Deed::Write(0, 3),
    },
    Act {
        node: 0,
        deed: Deed::Arrive,
    },
    Act {
        node: 1,
        deed: Deed::Arrive,
    },
    Act {
        node: 2,
        deed: Deed::Arrive,
    },
    Act {
        node: 0,
        deed: Deed::Depart,
    },
    Act {
        node: 1,
        deed: Deed::Depart,
    },
    Act {
        node: 1,
        deed: Deed::Read(0, 2),
    },
];

/// Two nodes write a word, and come to a barrier.
pub const UNFOLLOWED_BOTH: &[Act] = &[
    Act {
        node: 0,
        deed: Deed::Write(0, 1),
    },
    Act {
        node: 1,
        deed: Deed::Write(0, 2),
    },
    Act {
        node: 0,
        deed: Deed::Arrive,
    },
    Act {
        node: 1,
        deed: Deed::Arrive,
    },
    Act {
        node: 0,
        deed: Deed::Depart,
    },
    Act {
        node: 1,
        deed: Deed::Depart,
    },
    Act {
        node: 0,
        deed: Deed::Read(0, 3),
    },
];

/// One node writes a word many times, another between them.
pub const MANY_VALUES: &[Act] = &[
    Act {
        node: 0,
        deed: Deed::Write(0, 9),
    },
    Act {
        node: 1,
        deed: Deed::Write(0, 8),
    },
    Act {
        node: 0,
        deed: Deed::Write(0, 1),
    },
    Act {
        node: 0,
        deed: Deed::Write(0, 2),
    },
    Act {
        node: 0,
        deed: Deed::Write(0, 3),
    },
    Act {
        node: 0,
        deed: Deed::Write(0, 4),
    },
    Act {
        node: 0,
        deed: Deed::Write(0, 5),
    },
    Act {
        node: 0,
        deed: Deed::Arrive,
    },
    Act {
        node: 1,
        deed: Deed::Write(0, 6),
    },
    Act {
        node: 1,
        deed: Deed::Arrive,
    },
    Act {
        node: 1,
        deed: Deed::Depart,
    },
    Act {
        node: 1,
        deed: Deed::Read(0, 9),
    },
];

/// Two readers see two writes in different orders.
pub const DISAGREEING: &[Act] = &[
    Act {
        node: 0,
        deed: Deed::Write(0, 1),
    },
    Act {
        node: 1,
        deed: Deed::Write(1, 1),
    },
    Act {
        node: 2,
        deed: Deed::Read(0, 1),
    },
    Act {
        node: 2,
        deed: Deed::Read(1, 0),
    },
    Act {
        node: 3,
        deed: Deed::Read(1, 1),
    },
    Act {
        node: 3,
        deed: Deed::Read(0, 0),
    },
];

/// One node writes a word twice.
pub const ONE_NODE: &[Act] = &[
    Act {
        node: 0,
        deed: Deed::Write(0, 1),
    },
    Act {
        node: 0,
        deed: Deed::Write(0, 2),
    },
    Act {
        node: 0,
        deed: Deed::Read(0, 1),
    },
];

/// Two nodes write a word, and behind a barrier a third one does.
pub const THIRD_AFTER_TWO: &[Act] = &[
    Act {
        node: 0,
        deed: Deed::Quiet,
    },
    Act {
        node: 1,
        deed: Deed::Quiet,
    },
    Act {
        node: 2,
        deed: Deed::Quiet,
    },
    Act {
        node: 0,
        deed: Deed::Write(0, 1),
    },
    Act {
        node: 1,
        deed: Deed::Quiet,
    },
    Act {
        node: 2,
        deed: Deed::Quiet,
    },
    Act {
        node: 0,
        deed: Deed::Quiet,
    },
    Act {
        node: 1,
        deed: Deed::Write(0, 2),
    },
    Act {
        node: 2,
        deed: Deed::Arrive,
    },
    Act {
        node: 0,
        deed: Deed::Arrive,
    },
    Act {
        node: 1,
        deed: Deed::Arrive,
    },
    Act {
        node: 0,
        deed: Deed::Depart,
    },
    Act {
        node: 1,
        deed: Deed::Depart,
    },
    Act {
        node: 2,
        deed: Deed::Depart,
    },
    Act {
        node: 0,
        deed: Deed::Quiet,
    },
    Act {
        node: 1,
        deed: Deed::Quiet,
    },
    Act {
        node: 2,
        deed: Deed::Quiet,
    },
    Act {
        node: 0,
        deed: Deed::Arrive,
    },
    Act {
        node: 1,
        deed: Deed::Arrive,
    },
    Act {
        node: 2,
        deed: Deed::Write(0, 3),
    },
    Act {
        node: 2,
        deed: Deed::Arrive,
    },
    Act {
        node: 0,
        deed: Deed::Depart,
    },
    Act {
        node: 1,
        deed: Deed::Depart,
    },
    Act {
        node: 2,
        deed: Deed::Depart,
    },
    Act {
        node: 2,
        deed: Deed::Read(0, 3),
    },
    Act {
        node: 2,
        deed: Deed::End,
    },
    Act {
        node: 0,
        deed: Deed::Read(0, 3),
    },
    Act {
        node: 1,
        deed: Deed::Read(0, 3),
    },
    Act {
        node: 0,
        deed: Deed::End,
    },
    Act {
        node: 1,
        deed: Deed::End,
    },
];

/// A node writes a word under a lock, and again after it.
pub const OLDER_VALUE: &[Act] = &[
    Act {
        node: 0,
        deed: Deed::Quiet,
    },
    Act {
        node: 0,
        deed: Deed::Acquire(0),
    },
    Act {
        node: 0,
        deed: Deed::Write(0, 1),
    },
    Act {
        node: 0,
        deed: Deed::Release(0),
    },
    Act {
        node: 0,
        deed: Deed::Write(0, 2),
    },
    Act {
        node: 1,
        deed: Deed::Quiet,
    },
    Act {
        node: 1,
        deed: Deed::Acquire(0),
    },
    Act {
        node: 1,
        deed: Deed::Read(0, 1),
    },
];

/// A node writes a word under a lock, and another word after it.
pub const LATE_WRITE: &[Act] = &[
    Act {
        node: 0,
        deed: Deed::Quiet,
    },
    Act {
        node: 0,
        deed: Deed::Acquire(0),
    },
    Act {
        node: 0,
        deed: Deed::Write(0, 1),
    },
    Act {
        node: 0,
        deed: Deed::Release(0),
    },
    Act {
        node: 0,
        deed: Deed::Write(1, 2),
    },
    Act {
        node: 1,
        deed: Deed::Quiet,
    },
    Act {
        node: 1,
        deed: Deed::Acquire(0),
    },
    Act {
        node: 1,
        deed: Deed::Read(0, 1),
    },
    Act {
        node: 1,
        deed: Deed::Read(1, 0),
    },
    Act {
        node: 1,
        deed: Deed::Release(0),
    },
    Act {
        node: 1,
        deed: Deed::Print(1),
    },
    Act {
        node: 1,
        deed: Deed::Print(0),
    },
];

/// Each node writes under locks of its own.
pub const OTHER_LOCKS: &[Act] = &[
    Act {
        node: 0,
        deed: Deed::Quiet,
    },
    Act {
        node: 1,
        deed: Deed::Quiet,
    },
    Act {
        node: 0,
        deed: Deed::Acquire(0),
    },
    Act {
        node: 1,
        deed: Deed::Acquire(1),
    },
    Act {
        node: 0,
        deed: Deed::Acquire(2),
    },
    Act {
        node: 1,
        deed: Deed::Write(0, 2),
    },
    Act {
        node: 0,
        deed: Deed::Write(0, 1),
    },
    Act {
        node: 1,
        deed: Deed::Release(1),
    },
    Act {
        node: 0,
        deed: Deed::End,
    },
    Act {
        node: 1,
        deed: Deed::End,
    },
];

/// Accesses between two barriers.
pub const TWO_BARRIERS: &[Act] = &[
    Act {
        node: 0,
        deed: Deed::Write(0, 0),
    },
    Act {
        node: 1,
        deed: Deed::Write(1, 1),
    },
    Act {
        node: 0,
        deed: Deed::Arrive,
    },
    Act {
        node: 1,
        deed: Deed::Arrive,
    },
    Act {
        node: 0,
        deed: Deed::Depart,
    },
    Act {
        node: 1,
        deed: Deed::Depart,
    },
    Act {
        node: 0,
        deed: Deed::Read(1, 1),
    },
    Act {
        node: 1,
        deed: Deed::Read(0, 0),
    },
    Act {
        node: 0,
        deed: Deed::Write(0, 8),
    },
    Act {
        node: 1,
        deed: Deed::Write(1, 7),
    },
    Act {
        node: 0,
        deed: Deed::Arrive,
    },
    Act {
        node: 1,
        deed: Deed::Arrive,
    },
    Act {
        node: 0,
        deed: Deed::Depart,
    },
    Act {
        node: 1,
        deed: Deed::Depart,
    },
    Act {
        node: 0,
        deed: Deed::End,
    },
    Act {
        node: 1,
        deed: Deed::End,
    },
];

/// A node departs before another arrives.
pub const EARLY_DEPART: &[Act] = &[
    Act {
        node: 0,
        deed: Deed::Arrive,
    },
    Act {
        node: 0,
        deed: Deed::Depart,
    },
    Act {
        node: 1,
        deed: Deed::Arrive,
    },
    Act {
        node: 1,
        deed: Deed::Depart,
    },
];

/// A depart without an arrive.
pub const NO_ARRIVE: &[Act] = &[
    Act {
        node: 0,
        deed: Deed::Depart,
    },
    Act {
        node: 0,
        deed: Deed::Write(0, 1),
    },
    Act {
        node: 1,
        deed: Deed::Write(0, 2),
    },
];
