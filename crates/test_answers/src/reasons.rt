// The reasons of acts.

use crate::checks::passes;
use crate::reason_runs::LATE_WRITE;
use lrc_judge::order::happens_before;
use lrc_judge::{are_in_range, intervals_of};
use lrc_trace::act::Act;
use lrc_why::reasons::{Forward, News, Opponent, Reasons, Relation};
use lrc_why::whole::{reasons, relation};
use std::alloc::Global;

/// An act of a run of two nodes, and what is told of it: its time, the words of the interval that it closes, the acts of the other node that
/// race with it and the last of that node that it knows with the first act that does, and from where on that node can learn of it.
struct Row {
    name: &'static str,
    acts: &'static [Act],
    position: usize,
    time: &'static [usize],
    words: &'static [u32],
    racing: &'static [usize],
    known: Option<usize>,
    since: Option<usize>,
    from: Option<usize>,
}

fn are_racing(opponents: &[Option<Opponent>], other: usize, wanted: &[usize]) -> bool {
    if other >= opponents.len() {
        return false;
    }
    match &opponents[other] {
        Some(opponent) => opponent.racing.as_slice() == wanted,
        None => wanted.is_empty(),
    }
}

fn is_known(
    news: &[Option<News>],
    other: usize,
    known: Option<usize>,
    since: Option<usize>,
) -> bool {
    if other >= news.len() {
        return false;
    }
    match &news[other] {
        Some(news) => known == Some(news.last) && since == Some(news.since.first),
        None => known.is_none() && since.is_none(),
    }
}

fn is_from(forward: &Forward, wanted: Option<usize>) -> bool {
    match forward {
        Forward::Unsaid | Forward::Nobody => wanted.is_none(),
        Forward::Others(spread) => wanted == Some(spread.from),
    }
}

fn are_told(told: &Reasons, other: usize, row: &Row) -> bool {
    told.time.as_slice() == row.time
        && told.words.as_slice() == row.words
        && are_racing(&told.opponents, other, row.racing)
        && is_known(&told.news, other, row.known, row.since)
        && is_from(&told.forward, row.from)
}

fn is_met(alloc: Global, row: &Row) -> bool {
    if !are_in_range(row.acts) || row.position >= row.acts.len() {
        return false;
    }
    let (Ok(order), Ok(intervals)) = (
        happens_before(alloc, row.acts),
        intervals_of(alloc, row.acts),
    ) else {
        return false;
    };
    let other = 1 - usize::from(row.acts[row.position].node.min(1));
    match reasons(alloc, row.acts, &order, &intervals, 2, row.position) {
        Ok(told) => are_told(&told, other, row),
        Err(_) => false,
    }
}

fn first_wrong(alloc: Global, rows: &'static [Row]) -> Option<&'static str> {
    for row in rows {
        if !is_met(alloc, row) {
            return Some(row.name);
        }
    }
    None
}

const ROWS: &[Row] = &[
    Row {
        name: "a stale read",
        acts: LATE_WRITE,
        position: 8,
        time: &[2, 1],
        words: &[],
        racing: &[4],
        known: Some(3),
        since: Some(6),
        from: None,
    },
    Row {
        name: "a write of which nobody can learn",
        acts: LATE_WRITE,
        position: 4,
        time: &[2, 0],
        words: &[],
        racing: &[8],
        known: None,
        since: None,
        from: None,
    },
    Row {
        name: "a release, with the words of its interval",
        acts: LATE_WRITE,
        position: 3,
        time: &[2, 0],
        words: &[0],
        racing: &[],
        known: None,
        since: None,
        from: Some(3),
    },
    Row {
        name: "a write that is told by the release after it",
        acts: LATE_WRITE,
        position: 2,
        time: &[1, 0],
        words: &[],
        racing: &[],
        known: None,
        since: None,
        from: Some(3),
    },
    Row {
        name: "an acquire that learns",
        acts: LATE_WRITE,
        position: 6,
        time: &[2, 1],
        words: &[],
        racing: &[],
        known: Some(3),
        since: Some(6),
        from: None,
    },
];

/// Two acts of the run above, and the chain between them; none where they are not in order.
struct Two {
    name: &'static str,
    earlier: usize,
    later: usize,
    chain: Option<&'static [usize]>,
}

const TWO: &[Two] = &[
    Two {
        name: "a write and the read that knows it",
        earlier: 2,
        later: 7,
        chain: Some(&[2, 3, 6, 7]),
    },
    Two {
        name: "one step",
        earlier: 3,
        later: 6,
        chain: Some(&[3, 6]),
    },
    Two {
        name: "a race",
        earlier: 4,
        later: 8,
        chain: None,
    },
];

fn is_chain(told: &Relation, wanted: Option<&[usize]>) -> bool {
    match (told, wanted) {
        (Relation::Before(chain), Some(wanted)) => chain.as_slice() == wanted,
        (Relation::Race(..) | Relation::Apart(_), None) => true,
        _ => false,
    }
}

fn is_ordered(alloc: Global, row: &Two) -> bool {
    if row.earlier >= row.later || row.later >= LATE_WRITE.len() {
        return false;
    }
    let Ok(order) = happens_before(alloc, LATE_WRITE) else {
        return false;
    };
    match relation(alloc, LATE_WRITE, &order, row.earlier, row.later) {
        Ok(told) => is_chain(&told, row.chain),
        Err(_) => false,
    }
}

fn first_unordered(alloc: Global, rows: &'static [Two]) -> Option<&'static str> {
    for row in rows {
        if !is_ordered(alloc, row) {
            return Some(row.name);
        }
    }
    None
}

#[test]
fn reasons_of_acts(rt: HostRuntime) {
    passes(&rt, first_wrong(rt.alloc(), ROWS));
}

#[test]
fn how_acts_are_ordered(rt: HostRuntime) {
    passes(&rt, first_unordered(rt.alloc(), TWO));
}
