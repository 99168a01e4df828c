// The interval store, with many intervals, each of many pages.

ghost use Rattle.std.specs.Prelude.{◌≡◌, ◌<◌, ◌≤◌, length};

use crate::checks::holds;
use crate::times::of;
use lrc_page::Pages;
use lrc_store::{Interval, Intervals, Key, Store};
use lrc_time::Time;
use std::alloc::{AllocError, Global};

/// A time of sixteen nodes, of which each has closed so many intervals, but one of them one more.
fn time_of(each: u32, one: Option<u8>) -> Time
    requires { each < 1000 }
    ensures { length result ≡ 16 }
{
    let mut entries = [each; 16];
    if let Some(node) = one
        && node < 16
    {
        entries[usize::from(node)] = each + 1;
    }
    of(16, &entries)
}

/// How many pages a node writes in a round: all in the first one.
fn pages_in(round: u32) -> u16 {
    if round == 0 { 1024 } else { 64 }
}

/// The pages that a node writes in a round: page 0, and in the first round all others, later 63 others.
fn pages_of(alloc: Global, node: u8, round: u32) -> Result<Pages, AllocError> {
    let first = if round == 0 {
        0
    } else {
        u16::from(node % 16) * 64
    };
    let mut pages = Pages::empty(alloc);
    pages.push(0)?;
    for place in 1..pages_in(round) {
        let page = first.wrapping_add(place);
        if page < 1024 && pages.as_slice().last().is_none_or(|last| *last < page) {
            pages.push(page)?;
        }
    }
    Ok(pages)
}

/// A node closes its interval of a round, and answers whether it is its next. It knows all intervals of the rounds before.
fn close(alloc: Global, store: &mut Store, node: u8, round: u32) -> Result<bool, AllocError>
    requires nodes { length store.old.last ≡ 16 }
    requires pages { store.old.pages ≡ 1024 }
    requires node { node < 16 }
    requires round { round < 1000 }
    ensures nodes { length store.new.last ≡ 16 }
    ensures pages { store.new.pages ≡ 1024 }
{
    let stamp = time_of(round, Some(node));
    let last = store.last(node);
    if stamp.at(node) <= last || stamp.at(node) - 1 != last {
        return Ok(false);
    }
    let interval = Interval::new(node, stamp, pages_of(alloc, node, round)?);
    // For the proof: each page is below 1024.
    let _few = interval.pages.len();
    store.add(&interval)?;
    Ok(true)
}

/// Fills the store by 32 rounds, in each of which each of the sixteen nodes closes an interval.
fn fill(alloc: Global, store: &mut Store) -> Result<bool, AllocError>
    requires nodes { length store.old.last ≡ 16 }
    requires pages { store.old.pages ≡ 1024 }
    ensures nodes { length store.new.last ≡ 16 }
    ensures pages { store.new.pages ≡ 1024 }
{
    for place in 0..512u32 {
        if !close(alloc, store, (place % 16) as u8, place / 16)? {
            return Ok(false);
        }
    }
    Ok(true)
}

/// Whether this is the interval at a place among the 512, by nodes and rounds.
fn is_at(interval: &Interval, place: usize) -> bool {
    usize::from(interval.node) == place / 32
        && interval.index() as usize == place % 32 + 1
        && interval.pages.len() == usize::from(pages_in((place % 32) as u32))
}

/// Whether these are the 512 intervals, by nodes and rounds.
fn are_all(intervals: &Intervals) -> bool {
    for (place, interval) in intervals.as_slice().iter().enumerate() {
        if !is_at(interval, place) {
            return false;
        }
    }
    intervals.len() == 512
}

/// Whether these are the keys of page 0 from this place on, by rounds and nodes.
fn are_from(keys: &[Key], first: usize) -> bool
    requires { first ≤ 512 }
{
    for (key, place) in keys.iter().zip(first..512) {
        if usize::from(key.node) != place % 16
            || key.index as usize != place / 16 + 1
            || key.page != 0
        {
            return false;
        }
    }
    keys.len() == 512 - first
}

/// Whether these are the 512 intervals, and a duplicate of them is equal.
fn are_all_twice(intervals: &Intervals) -> bool {
    match intervals.duplicate() {
        Ok(second) => are_all(intervals) && are_all(&second) && second == *intervals,
        Err(_) => false,
    }
}

fn all_are_newer(store: &Store) -> bool
    requires { length store.now.last ≡ 16 }
{
    match store.newer_than(&time_of(0, None), &time_of(32, None)) {
        Ok(newer) => are_all_twice(&newer),
        Err(_) => false,
    }
}

/// Whether what is missing of page 0 are the keys from this place on.
fn are_missing_from(store: &Store, first: usize) -> bool
    requires nodes { length store.now.last ≡ 16 }
    requires first { first ≤ 512 }
{
    match store.missing(0, &time_of(0, None)) {
        Ok(missing) => are_from(&missing, first),
        Err(_) => false,
    }
}

/// Whether all of five hundred intervals are found, and the later half of them once what half of the rounds closed is discarded.
fn are_found_and_dropped(alloc: Global, store: Store) -> [bool; 2]
    requires nodes { length store.last ≡ 16 }
    requires pages { store.pages ≡ 1024 }
{
    let mut store = store;
    let filled = matches!(fill(alloc, &mut store), Ok(true));
    let found = filled && all_are_newer(&store) && are_missing_from(&store, 0);
    store.discard(&time_of(16, None));
    [found, store.len() == 256 && are_missing_from(&store, 256)]
}

fn five_hundred(alloc: Global) -> [bool; 2] {
    match Store::new(alloc, 16, 1024) {
        Ok(store) => are_found_and_dropped(alloc, store),
        Err(_) => [false; 2],
    }
}

#[test]
fn five_hundred_intervals_are_found_and_half_of_them_dropped(rt: HostRuntime) {
    let [found, dropped] = five_hundred(rt.alloc());
    holds(&rt, "all are found", found);
    holds(&rt, "half are dropped", dropped);
}
