// The interval store.

ghost use Rattle.std.specs.Prelude.{◌≡◌, ◌≤◌, ◌<◌, ◌∷◌, All, IfOk, IfSome, length, slice_set, []};
ghost use Rattle.std.specs.Option.{ForSome};
ghost use Rattle.lrc_store.specs.Store.{empty_store, intervals_of};

use crate::checks::holds;
use crate::times::of;
use lrc_page::{Changes, Pages};
use lrc_store::{Interval, IntervalAt, Intervals, Key, Store};
use lrc_time::Time;
use std::alloc::{AllocError, Global};

/// The node, the index and the page of a notice.
type Notice = (u8, u32, u16);

/// What is done with a store, or what is wanted of it.
#[derive(Clone, Copy)]
enum Step<'a> {
    /// The next interval of a node is added: its stamp, and the pages that it wrote.
    Put(u8, &'a [u32], &'a [u16]),
    /// What all know is discarded.
    Discard(&'a [u32]),
    /// There are so many intervals.
    Count(usize),
    /// This is the index of the node's last interval.
    Last(u8, u32),
    /// The list of a page has these notices, newest first.
    Page(u16, &'a [Notice]),
    /// The list of a node has the intervals of these indices, newest first.
    Node(u8, &'a [u32]),
    /// The newest interval of a node has these notices. There are none where there is no such interval.
    Newest(u8, &'a [Notice]),
    /// The same of the interval before the newest.
    Before(u8, &'a [Notice]),
    /// These notices of a page are missing for a node that knows so much.
    Missing(u16, &'a [u32], &'a [Notice]),
    /// The intervals of these nodes and indices are newer than the first time, and not than the second. A duplicate of them is
    /// equal.
    Newer(&'a [u32], &'a [u32], &'a [(u8, u32)]),
    /// This is what nobody knows of a page, in the order in which it is applied: the node, the index and the weight of its stamp.
    Weighed(u16, &'a [u32], &'a [(u8, u32, u64)]),
}

/// These pages, where they rise and there are as many.
fn pages_of(alloc: Global, numbers: &[u16], limit: u16) -> Result<Option<Pages>, AllocError>
    requires { limit ≤ 1024 }
    ensures { IfOk result (λ found. IfSome found (λ pages. All (λ page. page < limit) pages)) }
{
    let mut pages = Pages::empty(alloc);
    for page in numbers {
        if *page >= limit || !pages.as_slice().last().is_none_or(|last| *last < *page) {
            return Ok(None);
        }
        pages.push(*page)?;
    }
    Ok(Some(pages))
}

/// Adds an interval, and answers whether it is the next of its node.
fn put(
    alloc: Global,
    store: &mut Store,
    nodes: u8,
    pages: u16,
    node: u8,
    stamp: &[u32],
    written: &[u16],
) -> bool
    requires some { 1 ≤ nodes }
    requires most { nodes ≤ 16 }
    requires nodes { length store.old.last ≡ nodes }
    requires pages { store.old.pages ≡ pages }
    requires few { pages ≤ 1024 }
    ensures nodes { length store.new.last ≡ nodes }
    ensures pages { store.new.pages ≡ pages }
{
    let stamp = of(nodes, stamp);
    if node >= nodes {
        return false;
    }
    let last = store.last(node);
    if stamp.at(node) <= last || stamp.at(node) - 1 != last {
        return false;
    }
    match pages_of(alloc, written, pages) {
        Ok(Some(pages)) => store.add(&Interval::new(node, stamp, pages)).is_ok(),
        _ => false,
    }
}

fn key_of(notice: Notice) -> Key {
    let (node, index, page) = notice;
    Key { node, index, page }
}

fn page_is(store: &Store, page: u16, wanted: &[Notice]) -> bool {
    let mut at = store.first_on_page(page);
    for want in wanted {
        let Some(here) = at else {
            return false;
        };
        if store.key(here) != Some(key_of(*want)) {
            return false;
        }
        at = store.next_on_page(here);
    }
    at.is_none()
}

fn node_is(store: &Store, node: u8, wanted: &[u32]) -> bool {
    let mut at = store.newest(node);
    for index in wanted {
        let Some(here) = at else {
            return false;
        };
        if store.interval(here) != Some((node, *index)) {
            return false;
        }
        at = store.before(here);
    }
    at.is_none()
}

/// Whether the interval at a link, if any, has these notices.
fn interval_is(store: &Store, interval: Option<IntervalAt>, wanted: &[Notice]) -> bool
    requires { ForSome interval (λ at. at < length (intervals_of store.now)) }
{
    let Some(interval) = interval else {
        return wanted.is_empty();
    };
    let mut at = store.first_notice(interval);
    for want in wanted {
        let Some(here) = at else {
            return false;
        };
        if store.key(here) != Some(key_of(*want)) {
            return false;
        }
        at = store.next_in_interval(here);
    }
    at.is_none()
}

fn before_is(store: &Store, node: u8, wanted: &[Notice]) -> bool {
    let Some(newest) = store.newest(node) else {
        return false;
    };
    interval_is(store, store.before(newest), wanted)
}

fn are_keys(keys: &[Key], wanted: &[Notice]) -> bool {
    for (key, want) in keys.iter().zip(wanted) {
        if *key != key_of(*want) {
            return false;
        }
    }
    keys.len() == wanted.len()
}

fn lacks(store: &Store, nodes: u8, page: u16, since: &[u32], wanted: &[Notice]) -> bool
    requires some { 1 ≤ nodes }
    requires most { nodes ≤ 16 }
    requires nodes { nodes ≡ length store.now.last }
{
    match store.missing(page, &of(nodes, since)) {
        Ok(keys) => are_keys(&keys, wanted),
        Err(_) => false,
    }
}

fn discard(store: &mut Store, nodes: u8, known: &[u32]) -> bool
    requires some { 1 ≤ nodes }
    requires most { nodes ≤ 16 }
    requires nodes { length store.old.last ≡ nodes }
    ensures nodes { length store.new.last ≡ nodes }
    ensures pages { store.new.pages ≡ store.old.pages }
{
    let known = of(nodes, known);
    store.discard(&known);
    true
}

fn are_ids(intervals: &Intervals, wanted: &[(u8, u32)]) -> bool {
    for (interval, want) in intervals.as_slice().iter().zip(wanted) {
        if (interval.node, interval.index()) != *want {
            return false;
        }
    }
    intervals.len() == wanted.len()
}

fn are_duplicated(intervals: &Intervals, wanted: &[(u8, u32)]) -> bool {
    match intervals.duplicate() {
        Ok(second) => {
            are_ids(intervals, wanted) && are_ids(&second, wanted) && second == *intervals
        }
        Err(_) => false,
    }
}

fn has_newer(store: &Store, nodes: u8, since: &[u32], upto: &[u32], wanted: &[(u8, u32)]) -> bool
    requires some { 1 ≤ nodes }
    requires most { nodes ≤ 16 }
    requires nodes { nodes ≡ length store.now.last }
{
    match store.newer_than(&of(nodes, since), &of(nodes, upto)) {
        Ok(newer) => are_duplicated(&newer, wanted),
        Err(_) => false,
    }
}

/// The weight of the stamp of a key's interval, and 0 where the interval is not among these.
fn weight_of(intervals: &Intervals, key: Key) -> u64 {
    let mut weight = 0;
    for interval in intervals.as_slice() {
        if interval.node == key.node && interval.index() == key.index {
            weight = interval.stamp.weight();
        }
    }
    weight
}

fn are_weighed(keys: &[Key], intervals: &Intervals, wanted: &[(u8, u32, u64)]) -> bool {
    for (key, want) in keys.iter().zip(wanted) {
        if (key.node, key.index, weight_of(intervals, *key)) != *want {
            return false;
        }
    }
    keys.len() == wanted.len()
}

fn weighed(store: &Store, nodes: u8, page: u16, upto: &[u32], wanted: &[(u8, u32, u64)]) -> bool
    requires some { 1 ≤ nodes }
    requires most { nodes ≤ 16 }
    requires nodes { nodes ≡ length store.now.last }
{
    let zeros = Time::new(nodes);
    match (
        store.newer_than(&zeros, &of(nodes, upto)),
        store.missing(page, &zeros),
    ) {
        (Ok(intervals), Ok(keys)) => are_weighed(&keys, &intervals, wanted),
        _ => false,
    }
}

/// Whether what a step that changes nothing wants comes out.
fn is_as_wanted(store: &Store, nodes: u8, step: &Step) -> bool
    requires some { 1 ≤ nodes }
    requires most { nodes ≤ 16 }
    requires nodes { nodes ≡ length store.now.last }
{
    match step {
        Step::Put(..) | Step::Discard(..) => false,
        Step::Count(count) => store.len() == *count && store.is_empty() == (*count == 0),
        Step::Last(node, index) => *node < nodes && store.last(*node) == *index,
        Step::Page(page, wanted) => page_is(store, *page, wanted),
        Step::Node(node, wanted) => node_is(store, *node, wanted),
        Step::Newest(node, wanted) => interval_is(store, store.newest(*node), wanted),
        Step::Before(node, wanted) => before_is(store, *node, wanted),
        Step::Missing(page, since, wanted) => lacks(store, nodes, *page, since, wanted),
        Step::Newer(since, upto, wanted) => has_newer(store, nodes, since, upto, wanted),
        Step::Weighed(page, upto, wanted) => weighed(store, nodes, *page, upto, wanted),
    }
}

/// Takes a step with a store of so many nodes and pages, and answers whether what was wanted came out.
fn is_met(alloc: Global, store: &mut Store, nodes: u8, pages: u16, step: &Step) -> bool
    requires some { 1 ≤ nodes }
    requires most { nodes ≤ 16 }
    requires nodes { length store.old.last ≡ nodes }
    requires pages { store.old.pages ≡ pages }
    requires few { pages ≤ 1024 }
    ensures nodes { length store.new.last ≡ nodes }
    ensures pages { store.new.pages ≡ pages }
{
    match step {
        Step::Put(node, stamp, written) => put(alloc, store, nodes, pages, *node, stamp, written),
        Step::Discard(known) => discard(store, nodes, known),
        _ => is_as_wanted(store, nodes, step),
    }
}

/// Takes steps with a store of so many nodes and pages, and answers whether each is met.
fn are_met(alloc: Global, store: &mut Store, nodes: u8, pages: u16, steps: &[Step]) -> bool
    requires some { 1 ≤ nodes }
    requires most { nodes ≤ 16 }
    requires nodes { length store.old.last ≡ nodes }
    requires pages { store.old.pages ≡ pages }
    requires few { pages ≤ 1024 }
    ensures nodes { length store.new.last ≡ nodes }
    ensures pages { store.new.pages ≡ pages }
{
    for step in steps {
        if !is_met(alloc, store, nodes, pages, step) {
            return false;
        }
    }
    true
}

fn both_are_met(
    alloc: Global,
    store: &mut Store,
    nodes: u8,
    pages: u16,
    first: &[Step],
    second: &[Step],
) -> bool
    requires some { 1 ≤ nodes }
    requires most { nodes ≤ 16 }
    requires nodes { length store.old.last ≡ nodes }
    requires pages { store.old.pages ≡ pages }
    requires few { pages ≤ 1024 }
{
    are_met(alloc, store, nodes, pages, first) && are_met(alloc, store, nodes, pages, second)
}

fn all_are_met(
    alloc: Global,
    store: Store,
    nodes: u8,
    pages: u16,
    first: &[Step],
    second: &[Step],
) -> bool
    requires some { 1 ≤ nodes }
    requires most { nodes ≤ 16 }
    requires nodes { length store.last ≡ nodes }
    requires pages { store.pages ≡ pages }
    requires few { pages ≤ 1024 }
{
    let mut store = store;
    both_are_met(alloc, &mut store, nodes, pages, first, second)
}

/// Whether a store of so many nodes and pages that is empty at first meets each of the first steps, and then of the second.
fn meets(alloc: Global, nodes: u8, pages: u16, first: &[Step], second: &[Step]) -> bool
    requires some { 1 ≤ nodes }
    requires few { nodes ≤ 16 }
    requires pages { pages ≤ 1024 }
{
    match Store::new(alloc, nodes, pages) {
        Ok(store) => all_are_met(alloc, store, nodes, pages, first, second),
        Err(_) => false,
    }
}

/// A worked case: how many nodes and pages a store has that is empty at first, and what is done with it, at first and then.
#[derive(Clone, Copy)]
struct Row<'a> {
    name: &'a str,
    nodes: u8,
    pages: u16,
    first: &'a [Step<'a>],
    then: &'a [Step<'a>],
}

fn is_row_met(alloc: Global, row: &Row) -> bool {
    let Row { nodes, pages, .. } = *row;
    1 <= nodes && nodes <= 16 && pages <= 1024 && meets(alloc, nodes, pages, row.first, row.then)
}

/// Three intervals of two nodes: the worked store.
const WORKED: &[Step] = &[
    Step::Put(0, &[1, 0, 0], &[0]),
    Step::Put(1, &[0, 1, 0], &[0, 1]),
    Step::Put(0, &[2, 1, 0], &[1]),
];

/// Node 0 writes page 0 under a lock, and behind a barrier node 1 does so: the intervals of both up to the next barrier. Each
/// closes one as it acquires, one as it releases and one as it arrives.
const ONE_AFTER_ANOTHER: &[Step] = &[
    Step::Put(0, &[1, 0, 0], &[]),
    Step::Put(0, &[2, 0, 0], &[0]),
    Step::Put(0, &[3, 0, 0], &[]),
    Step::Put(1, &[0, 1, 0], &[]),
    Step::Put(1, &[3, 2, 1], &[]),
    Step::Put(1, &[3, 3, 1], &[0]),
];

/// Three writers of a page, each in an episode of its own: the intervals of nodes 0, 1 and 2 up to their third barrier. Node 2
/// wrote before the first one, node 1 before the second, node 0 before the third; node 3 never.
const THREE_WRITERS: &[Step] = &[
    Step::Put(0, &[1, 0, 0, 0], &[]),
    Step::Put(1, &[0, 1, 0, 0], &[]),
    Step::Put(2, &[0, 0, 1, 0], &[0]),
    Step::Put(0, &[2, 1, 1, 1], &[]),
    Step::Put(1, &[1, 2, 1, 1], &[0]),
    Step::Put(0, &[3, 2, 2, 2], &[0]),
];

const ROWS: &[Row] = &[
    Row {
        name: "lists run through the worked intervals",
        nodes: 3,
        pages: 2,
        first: WORKED,
        then: &[
            Step::Before(0, &[(0, 1, 0)]),
            Step::Newest(0, &[(0, 2, 1)]),
            Step::Newest(1, &[(1, 1, 0), (1, 1, 1)]),
            Step::Newest(2, &[]),
            Step::Discard(&[1, 1, 0]),
            Step::Newest(0, &[(0, 2, 1)]),
            Step::Newest(1, &[]),
            Step::Newest(2, &[]),
        ],
    },
    Row {
        name: "freed places are used again",
        nodes: 3,
        pages: 2,
        first: WORKED,
        then: &[
            Step::Discard(&[1, 1, 0]),
            Step::Put(2, &[2, 1, 1], &[]),
            Step::Put(1, &[2, 2, 1], &[0, 1]),
            Step::Newest(0, &[(0, 2, 1)]),
            Step::Newest(1, &[(1, 2, 0), (1, 2, 1)]),
            Step::Newest(2, &[]),
            Step::Page(0, &[(1, 2, 0)]),
            Step::Page(1, &[(1, 2, 1), (0, 2, 1)]),
            Step::Node(0, &[2]),
            Step::Node(1, &[2]),
            Step::Node(2, &[1]),
        ],
    },
    Row {
        name: "discards some of each node",
        nodes: 3,
        pages: 2,
        first: WORKED,
        then: &[
            Step::Put(1, &[2, 2, 0], &[0]),
            Step::Discard(&[1, 1, 0]),
            Step::Node(0, &[2]),
            Step::Node(1, &[2]),
            Step::Node(2, &[]),
            Step::Page(0, &[(1, 2, 0)]),
            Step::Page(1, &[(0, 2, 1)]),
        ],
    },
    Row {
        name: "lists run through the worked store",
        nodes: 3,
        pages: 2,
        first: WORKED,
        then: &[
            Step::Page(0, &[(1, 1, 0), (0, 1, 0)]),
            Step::Page(1, &[(0, 2, 1), (1, 1, 1)]),
            Step::Node(0, &[2, 1]),
            Step::Discard(&[1, 1, 0]),
            Step::Page(0, &[]),
            Step::Page(1, &[(0, 2, 1)]),
            Step::Node(0, &[2]),
            Step::Node(1, &[]),
            Step::Node(2, &[]),
        ],
    },
    Row {
        name: "finds what the worked store lacks",
        nodes: 3,
        pages: 2,
        first: WORKED,
        then: &[
            Step::Missing(0, &[0, 0, 0], &[(0, 1, 0), (1, 1, 0)]),
            Step::Missing(1, &[0, 0, 0], &[(1, 1, 1), (0, 2, 1)]),
        ],
    },
    Row {
        name: "finds what is newer",
        nodes: 3,
        pages: 2,
        first: WORKED,
        then: &[Step::Newer(&[1, 0, 0], &[2, 1, 0], &[(0, 2), (1, 1)])],
    },
    Row {
        name: "the last interval of a node that has none is 0",
        nodes: 3,
        pages: 2,
        first: WORKED,
        then: &[Step::Count(3), Step::Last(2, 0), Step::Last(0, 2)],
    },
    Row {
        name: "what is discarded is gone",
        nodes: 3,
        pages: 2,
        first: WORKED,
        then: &[
            Step::Discard(&[1, 1, 0]),
            Step::Count(1),
            Step::Last(1, 1),
            Step::Missing(1, &[0, 0, 0], &[(0, 2, 1)]),
        ],
    },
    Row {
        name: "lighter intervals come first",
        nodes: 3,
        pages: 2,
        first: &[
            Step::Put(0, &[1, 0, 5], &[0]),
            Step::Put(1, &[0, 1, 0], &[0]),
        ],
        then: &[Step::Missing(0, &[0, 0, 0], &[(1, 1, 0), (0, 1, 0)])],
    },
    Row {
        name: "weights order the worked store",
        nodes: 3,
        pages: 2,
        first: WORKED,
        then: &[Step::Weighed(1, &[2, 1, 0], &[(1, 1, 1), (0, 2, 3)])],
    },
    Row {
        name: "the later of two writers weighs more",
        nodes: 3,
        pages: 2,
        first: ONE_AFTER_ANOTHER,
        then: &[Step::Weighed(0, &[3, 3, 1], &[(0, 2, 2), (1, 3, 7)])],
    },
    Row {
        name: "the writer of each episode weighs more than the one before",
        nodes: 4,
        pages: 1,
        first: THREE_WRITERS,
        then: &[Step::Weighed(0, &[3, 2, 1, 0], &[(2, 1, 1), (1, 2, 5), (0, 3, 9)])],
    },
    Row {
        name: "discards nothing and everything",
        nodes: 3,
        pages: 2,
        first: WORKED,
        then: &[
            Step::Discard(&[0, 0, 0]),
            Step::Count(3),
            Step::Page(1, &[(0, 2, 1), (1, 1, 1)]),
            Step::Discard(&[2, 1, 0]),
            Step::Count(0),
            Step::Last(0, 2),
            Step::Last(1, 1),
            Step::Page(1, &[]),
            Step::Node(0, &[]),
        ],
    },
    Row {
        name: "what is missing up to what was known is missing in all of the list",
        nodes: 3,
        pages: 2,
        first: &[
            Step::Put(0, &[1, 0, 0], &[1]),
            Step::Put(1, &[0, 1, 0], &[1]),
        ],
        then: &[Step::Missing(1, &[1, 0, 0], &[(1, 1, 1)])],
    },
    Row {
        name: "a duplicate is equal",
        nodes: 3,
        pages: 2,
        first: WORKED,
        then: &[Step::Newer(&[0, 0, 0], &[2, 1, 0], &[(0, 1), (0, 2), (1, 1)])],
    },
];

#[test]
fn stores_are_as_worked(rt: HostRuntime) {
    for row in ROWS {
        holds(&rt, row.name, is_row_met(rt.alloc(), row));
    }
}

/// One change: 7 at offset 3.
fn seven(alloc: Global) -> Result<Changes, AllocError> {
    let mut changes = Changes::empty(alloc);
    changes.push(3, 7)?;
    Ok(changes)
}

/// Whether the changes are there and are those of `seven`.
fn is_seven(changes: Option<&Changes>) -> bool {
    match changes {
        Some(changes) => {
            if changes.len() == 1 {
                let change = changes.at(0);
                (change.offset, change.value) == (3, 7)
            } else {
                false
            }
        }
        None => false,
    }
}

/// A node's first interval, which wrote page 1.
fn first_of(alloc: Global, node: u8) -> Result<Interval, AllocError>
    requires { node < 3 }
    ensures { IfOk result (λ interval. interval
        ≡ record { node = node; stamp = slice_set (0 ∷ 0 ∷ 0 ∷ []) node 1; pages = 1 ∷ [] }) }
{
    let mut stamp = Time::new(3);
    stamp.raise(node, 1);
    let mut pages = Pages::empty(alloc);
    pages.push(1)?;
    Ok(Interval::new(node, stamp, pages))
}

/// Whether the changes of a key are kept, and no others.
fn key_keeps(alloc: Global, store: &mut Store) -> Result<bool, AllocError>
    requires { store.old ≡ empty_store 3 2 }
{
    store.add(&first_of(alloc, 0)?)?;
    let key = Key {
        node: 0,
        index: 1,
        page: 1,
    };
    let before = store.changes(key).is_none();
    store.attach(key, seven(alloc)?);
    Ok(before && is_seven(store.changes(key)) && store.changes(key_of((0, 1, 0))).is_none())
}

/// Whether the changes of a link are kept, and are those of its key.
fn link_keeps(alloc: Global, store: &mut Store) -> Result<bool, AllocError>
    requires { store.old ≡ empty_store 3 2 }
{
    store.add(&first_of(alloc, 0)?)?;
    let Some(at) = store.first_on_page(1) else {
        return Ok(false);
    };
    let before = store.changes_at(at).is_none();
    store.attach_at(at, seven(alloc)?);
    Ok(before && is_seven(store.changes_at(at)) && is_seven(store.changes(key_of((0, 1, 1)))))
}

/// Whether the notice that is missing of page 1 is found, as far as the list is searched, by a time that knew all there was
/// before node 1's interval came.
fn stops_at_the_known(alloc: Global, store: &mut Store) -> Result<bool, AllocError>
    requires { store.old ≡ empty_store 3 2 }
{
    store.add(&first_of(alloc, 0)?)?;
    store.add(&first_of(alloc, 1)?)?;
    let mut since = Time::new(3);
    since.raise(0, 1);
    let found = store.missing_until_known(1, &since)?;
    Ok(are_keys(&found, &[(1, 1, 1)]))
}

fn key_keeps_in(alloc: Global, store: Store) -> bool
    requires { store ≡ empty_store 3 2 }
{
    let mut store = store;
    matches!(key_keeps(alloc, &mut store), Ok(true))
}

fn link_keeps_in(alloc: Global, store: Store) -> bool
    requires { store ≡ empty_store 3 2 }
{
    let mut store = store;
    matches!(link_keeps(alloc, &mut store), Ok(true))
}

fn stops_in(alloc: Global, store: Store) -> bool
    requires { store ≡ empty_store 3 2 }
{
    let mut store = store;
    matches!(stops_at_the_known(alloc, &mut store), Ok(true))
}

fn key_is_kept(alloc: Global) -> bool {
    match Store::new(alloc, 3, 2) {
        Ok(store) => key_keeps_in(alloc, store),
        Err(_) => false,
    }
}

fn link_is_kept(alloc: Global) -> bool {
    match Store::new(alloc, 3, 2) {
        Ok(store) => link_keeps_in(alloc, store),
        Err(_) => false,
    }
}

fn is_found_up_to_the_known(alloc: Global) -> bool {
    match Store::new(alloc, 3, 2) {
        Ok(store) => stops_in(alloc, store),
        Err(_) => false,
    }
}

#[test]
fn keeps_changes_and_finds_what_is_missing_up_to_what_was_known(rt: HostRuntime) {
    holds(&rt, "the changes of a key", key_is_kept(rt.alloc()));
    holds(&rt, "the changes of a link", link_is_kept(rt.alloc()));
    holds(&rt, "what is missing", is_found_up_to_the_known(rt.alloc()));
}
