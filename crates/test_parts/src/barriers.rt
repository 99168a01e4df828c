// Barriers.

ghost use Rattle.std.specs.Prelude.{◌≡◌, ◌≤◌, ◌<◌, All, IfOk, length};
ghost use Rattle.lrc_barrier.specs.Barrier.{IsArrival};

use crate::checks::holds;
use crate::times::of;
use lrc_barrier::{Arrival, BarrierFault, Departure, Departures, Manager};
use lrc_page::Pages;
use lrc_store::{Interval, Intervals};
use lrc_time::Time;
use std::alloc::{AllocError, Global};

/// The node and the index of an interval, and how many pages it wrote.
type Told = (u8, u32, usize);

/// What departures say: whether a collection follows, the time of all, and to each node which intervals it lacks.
#[derive(Clone, Copy)]
struct Says<'a> {
    collect: bool,
    time: &'a [u32],
    told: &'a [&'a [Told]],
}

/// What is wanted of an arrival.
#[derive(Clone, Copy)]
enum Wanted<'a> {
    /// It waits for others.
    Waits,
    /// It is refused, and the manager knows what it knew.
    Refused(BarrierFault),
    /// It is the last, it asks for a collection where one is to follow, and the departures say this.
    Departs(Says<'a>),
    /// It is the last of sixteen, it asks for a collection, and each is told of the intervals of all others.
    AllDepart,
}

/// What is done with a manager, or what is wanted of it.
#[derive(Clone, Copy)]
enum Step<'a> {
    /// A node arrives at an episode, at a time.
    Arrives(u8, u32, &'a [u32], Wanted<'a>),
    /// A node's Clean for an episode gets this answer.
    Clean(u8, u32, Result<Option<u32>, BarrierFault>),
    /// So many intervals of a node are known.
    Last(u8, u32),
}

/// Page 0, or no page.
fn pages_of(alloc: Global, named: bool) -> Result<Pages, AllocError> {
    let mut pages = Pages::empty(alloc);
    if named {
        pages.push(0)?;
    }
    Ok(pages)
}

/// The newest interval of a node at this time, if it has closed one.
fn newest(alloc: Global, from: u8, time: &Time, writes: bool) -> Result<Intervals, AllocError>
    requires { from < length time.now }
    ensures own { IfOk result (λ intervals. All (λ interval. interval.node ≡ from) intervals) }
    ensures stamps { IfOk result (λ intervals.
        All (λ interval. length interval.stamp ≡ length time.now) intervals) }
{
    let mut intervals = Intervals::empty(alloc);
    if time.at(from) >= 1 {
        intervals.push(Interval::new(from, time.copy(), pages_of(alloc, writes)?))?;
    }
    Ok(intervals)
}

/// Arrives, a second time where memory was refused and the manager is as it was.
fn enter(
    manager: &mut Manager,
    from: u8,
    arrival: &Arrival,
) -> Result<Option<Departures>, BarrierFault>
    requires from { from < length manager.old.last }
    requires own { IsArrival (length manager.old.last) from arrival.now }
    ensures { length manager.new.last ≡ length manager.old.last }
{
    let last = manager.last(from);
    match manager.arrive(from, arrival) {
        Err(BarrierFault::NoMemory) if manager.last(from) == last => manager.arrive(from, arrival),
        answer => answer,
    }
}

/// Whether these are the intervals with these nodes, indices and numbers of pages.
fn are(intervals: &Intervals, wanted: &[Told]) -> bool {
    for (interval, want) in intervals.as_slice().iter().zip(wanted) {
        if (interval.node, interval.index(), interval.pages.len()) != *want {
            return false;
        }
    }
    intervals.len() == wanted.len()
}

/// Whether there is a departure for each node, from this episode, with these intervals.
fn tell(departures: &[Departure], episode: u32, wanted: &[&[Told]]) -> bool {
    let mut to: u8 = 0;
    for (departure, told) in departures.iter().zip(wanted) {
        if departure.to != to || departure.episode != episode || !are(&departure.intervals, told) {
            return false;
        }
        to = to.wrapping_add(1);
    }
    departures.len() == wanted.len()
}

/// Whether each departure says this time, and whether a collection follows.
fn agree(departures: &[Departure], time: &Time, collect: bool) -> bool {
    for departure in departures {
        if departure.time != *time || departure.collect != collect {
            return false;
        }
    }
    true
}

/// Whether these departures tell each of sixteen nodes of all others, and that a collection follows.
fn tell_of_fifteen(told: &[Departure]) -> bool {
    for departure in told {
        if !departure.collect
            || departure.intervals.len() != 15
            || departure.time.weight() != 68_719_476_720
        {
            return false;
        }
    }
    told.len() == 16
}

/// Whether the departures of the last arrival at an episode say this.
fn say(departures: &[Departure], nodes: u8, episode: u32, says: &Says) -> bool
    requires some { 1 ≤ nodes }
    requires few { nodes ≤ 16 }
{
    tell(departures, episode, says.told) && agree(departures, &of(nodes, says.time), says.collect)
}

/// Whether an arrival at an episode gets the answer that is wanted.
fn is_wanted(
    answer: &Result<Option<Departures>, BarrierFault>,
    nodes: u8,
    episode: u32,
    wanted: &Wanted,
) -> bool
    requires some { 1 ≤ nodes }
    requires few { nodes ≤ 16 }
{
    match (answer, wanted) {
        (Ok(None), Wanted::Waits) => true,
        (Err(fault), Wanted::Refused(want)) => *fault == *want,
        (Ok(Some(all)), Wanted::Departs(says)) => say(all.as_slice(), nodes, episode, says),
        (Ok(Some(all)), Wanted::AllDepart) => tell_of_fifteen(all.as_slice()),
        _ => false,
    }
}

fn asks(wanted: &Wanted) -> bool {
    match wanted {
        Wanted::Departs(says) => says.collect,
        Wanted::AllDepart => true,
        Wanted::Waits | Wanted::Refused(_) => false,
    }
}

/// Whether an arrival gets the answer that is wanted, and the manager knows the node's intervals, or what it knew.
fn is_answered(
    manager: &mut Manager,
    nodes: u8,
    from: u8,
    arrival: &Arrival,
    wanted: &Wanted,
) -> bool
    requires some { 1 ≤ nodes }
    requires few { nodes ≤ 16 }
    requires from { from < length manager.old.last }
    requires own { IsArrival (length manager.old.last) from arrival.now }
    ensures { length manager.new.last ≡ length manager.old.last }
{
    let last = if matches!(wanted, Wanted::Refused(_)) {
        manager.last(from)
    } else {
        arrival.time.at(from)
    };
    let answer = enter(manager, from, arrival);
    is_wanted(&answer, nodes, arrival.episode, wanted) && manager.last(from) == last
}

/// One of so many nodes arrives with the newest interval that it has closed, if any, and gets the answer that is wanted. Of a
/// few nodes only node 0 wrote a page, of sixteen each.
fn arrives(
    alloc: Global,
    manager: &mut Manager,
    nodes: u8,
    from: u8,
    episode: u32,
    time: &[u32],
    wanted: &Wanted,
) -> Result<bool, AllocError>
    requires some { 1 ≤ nodes }
    requires few { nodes ≤ 16 }
    requires nodes { length manager.old.last ≡ nodes }
    ensures { length manager.new.last ≡ nodes }
{
    if from >= nodes {
        return Ok(false);
    }
    let time = of(nodes, time);
    let intervals = newest(alloc, from, &time, from == 0 || nodes == 16)?;
    let arrival = Arrival {
        episode,
        ask: asks(wanted),
        time,
        intervals,
    };
    Ok(is_answered(manager, nodes, from, &arrival, wanted))
}

/// Takes a step with a manager of so many nodes, and answers whether what was wanted came out.
fn is_met(alloc: Global, manager: &mut Manager, nodes: u8, step: &Step) -> Result<bool, AllocError>
    requires some { 1 ≤ nodes }
    requires few { nodes ≤ 16 }
    requires nodes { length manager.old.last ≡ nodes }
    ensures { length manager.new.last ≡ nodes }
{
    match step {
        Step::Arrives(from, episode, time, wanted) => {
            arrives(alloc, manager, nodes, *from, *episode, time, wanted)
        }
        Step::Clean(from, episode, answer) => {
            Ok(*from < nodes && manager.clean(*from, *episode) == *answer)
        }
        Step::Last(node, index) => Ok(*node < nodes && manager.last(*node) == *index),
    }
}

fn are_met(
    alloc: Global,
    manager: &mut Manager,
    nodes: u8,
    steps: &[Step],
) -> Result<bool, AllocError>
    requires some { 1 ≤ nodes }
    requires few { nodes ≤ 16 }
    requires nodes { length manager.old.last ≡ nodes }
    ensures { length manager.new.last ≡ nodes }
{
    for step in steps {
        if !is_met(alloc, manager, nodes, step)? {
            return Ok(false);
        }
    }
    Ok(true)
}

/// A worked case: how many nodes a manager has that knows nothing at first, and what is done with it.
#[derive(Clone, Copy)]
struct Row<'a> {
    name: &'a str,
    nodes: u8,
    steps: &'a [Step<'a>],
}

/// Whether a manager of a row's nodes meets each of its steps.
fn is_row_met(alloc: Global, row: &Row) -> Result<bool, AllocError> {
    if row.nodes == 0 || row.nodes > 16 {
        return Ok(false);
    }
    let mut manager = Manager::new(alloc, row.nodes);
    are_met(alloc, &mut manager, row.nodes, row.steps)
}

const WRONG: BarrierFault = BarrierFault::WrongEpisode;

const OUT_OF_TURN: &[Step] = &[
    Step::Last(0, 0),
    Step::Arrives(0, 2, &[9, 9, 9], Wanted::Refused(WRONG)),
    Step::Arrives(0, u32::MAX, &[9, 9, 9], Wanted::Refused(WRONG)),
    Step::Arrives(0, 1, &[3, 0, 0], Wanted::Waits),
    Step::Arrives(0, 1, &[9, 9, 9], Wanted::Refused(BarrierFault::Twice)),
    Step::Arrives(0, 2, &[9, 9, 9], Wanted::Refused(WRONG)),
    Step::Arrives(1, 0, &[9, 9, 9], Wanted::Refused(WRONG)),
    Step::Clean(0, 1, Err(WRONG)),
    Step::Clean(0, 0, Err(WRONG)),
];

// Three nodes that know nothing of each other arrive, and depart.
const STRANGERS: &[Step] = &[
    Step::Arrives(2, 1, &[0, 0, 1], Wanted::Waits),
    Step::Arrives(0, 1, &[1, 0, 0], Wanted::Waits),
    Step::Arrives(
        1,
        1,
        &[0, 1, 0],
        Wanted::Departs(Says {
            collect: false,
            time: &[1, 1, 1],
            told: &[
                &[(1, 1, 0), (2, 1, 0)],
                &[(0, 1, 1), (2, 1, 0)],
                &[(0, 1, 1), (1, 1, 0)],
            ],
        }),
    ),
];

// Three nodes, of which the second knows the first, and the third both but for the first's newest interval, arrive, and
// depart.
const ACQUAINTED: &[Step] = &[
    Step::Arrives(0, 1, &[3, 0, 0], Wanted::Waits),
    Step::Arrives(1, 1, &[3, 2, 0], Wanted::Waits),
    Step::Arrives(
        2,
        1,
        &[2, 2, 5],
        Wanted::Departs(Says {
            collect: false,
            time: &[3, 2, 5],
            told: &[&[(1, 2, 0), (2, 5, 0)], &[(2, 5, 0)], &[(0, 3, 1)]],
        }),
    ),
];

// The second of two nodes asks for a collection, and then none does.
const COLLECTED: &[Step] = &[
    Step::Arrives(0, 1, &[0, 0], Wanted::Waits),
    Step::Arrives(
        1,
        1,
        &[0, 0],
        Wanted::Departs(Says {
            collect: true,
            time: &[0, 0],
            told: &[&[], &[]],
        }),
    ),
    Step::Arrives(0, 2, &[0, 0], Wanted::Refused(WRONG)),
    Step::Clean(0, 2, Err(WRONG)),
    Step::Clean(0, 1, Ok(None)),
    Step::Clean(0, 1, Err(BarrierFault::Twice)),
    Step::Clean(1, 1, Ok(Some(1))),
    Step::Clean(1, 1, Err(WRONG)),
    Step::Arrives(0, 2, &[0, 0], Wanted::Waits),
    Step::Arrives(
        1,
        2,
        &[0, 0],
        Wanted::Departs(Says {
            collect: false,
            time: &[0, 0],
            told: &[&[], &[]],
        }),
    ),
    Step::Clean(1, 2, Err(WRONG)),
];

const OF_TWO: &[Step] = &[
    Step::Arrives(0, 2, &[0, 0], Wanted::Refused(WRONG)),
    Step::Arrives(0, 1, &[0, 0], Wanted::Waits),
    Step::Arrives(0, 1, &[0, 0], Wanted::Refused(BarrierFault::Twice)),
];

const ROWS: &[Row] = &[
    Row {
        name: "refuses arrivals out of turn",
        nodes: 3,
        steps: OUT_OF_TURN,
    },
    Row {
        name: "tells each node what it lacks",
        nodes: 3,
        steps: STRANGERS,
    },
    Row {
        name: "tells no node what it knew",
        nodes: 3,
        steps: ACQUAINTED,
    },
    Row {
        name: "a collection waits for every clean",
        nodes: 2,
        steps: COLLECTED,
    },
    Row {
        name: "a manager of two refuses another episode and a second arrival",
        nodes: 2,
        steps: OF_TWO,
    },
];

#[test]
fn barriers_are_as_worked(rt: HostRuntime) {
    for row in ROWS {
        holds(&rt, row.name, is_row_met(rt.alloc(), row) == Ok(true));
    }
}

/// The entries of sixteen nodes of which one has closed as many intervals as there can be.
fn largest(node: u8) -> [u32; 16]
    requires { node < 16 }
{
    let mut entries = [0; 16];
    entries[usize::from(node)] = u32::MAX;
    entries
}

/// Whether the last of sixteen nodes arrives behind all others and asks for a collection, and all depart.
fn sixteen_depart(alloc: Global, manager: &mut Manager) -> Result<bool, AllocError>
    requires { length manager.old.last ≡ 16 }
{
    for node in 0..16u8 {
        let wanted = if node == 15 {
            Wanted::AllDepart
        } else {
            Wanted::Waits
        };
        if !arrives(alloc, manager, 16, node, 1, &largest(node), &wanted)? {
            return Ok(false);
        }
    }
    Ok(true)
}

fn sixteen(alloc: Global) -> Result<bool, AllocError> {
    let mut manager = Manager::new(alloc, 16);
    sixteen_depart(alloc, &mut manager)
}

#[test]
fn sixteen_nodes_depart(rt: HostRuntime) {
    holds(&rt, "sixteen nodes", sixteen(rt.alloc()) == Ok(true));
}
