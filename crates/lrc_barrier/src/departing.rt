// What all nodes are told once the last of them has arrived. The arrivals of all others are kept; the last one is not
// kept any more, and stands for the one that lacks.

ghost use Rattle.std.specs.Prelude.{◌≡◌, ◌<◌, ◌≤◌, All, AllPairs, IfOk, IfSome, IsTrue, ◌++◌, None, drop, length, map, slice_index_or};
ghost use Rattle.std.specs.List.{filter};
ghost use Rattle.std.specs.Option.{unwrap_or};
ghost use Rattle.lrc_time.specs.Time.{knows};
ghost use Rattle.lrc_store.specs.Interval.{by_node, index_of};
ghost use Rattle.lrc_barrier.specs.Barrier.{asks, departures_of, intervals_of, is_news, joined_time, IsArrival};
ghost use Rattle.lrc_barrier.specs.Filled.{all_with, AreArrivals};

use crate::arrival::Arrival;
use crate::departure::{Departure, Departures};
use lrc_store::{Interval, Intervals};
use lrc_time::Time;
use std::alloc::{AllocError, Global};

// The arrival kept in a place, or the last one.
fn arrival_in<'a>(place: &'a Option<Arrival>, last: &'a Arrival) -> &'a Arrival
    ensures { result.now ≡ unwrap_or place.now last.now }
{
    match place {
        Some(kept) => kept,
        None => last,
    }
}

/// Returns whether some arrival asks for a collection.
pub(crate) fn collects(kept: &[Option<Arrival>], last: &Arrival) -> bool
    ensures { result ≡ asks (all_with last.now kept.now) }
{
    for place in kept {
        if arrival_in(place, last).ask {
            return true;
        }
    }
    false
}

// The time of all.
fn time_of_all(kept: &[Option<Arrival>], last: &Arrival) -> Time
    requires arrivals { AreArrivals (length kept.now) (all_with last.now kept.now) }
    requires some { 1 ≤ length kept.now }
    requires few { length kept.now ≤ 16 }
    ensures all { result ≡ joined_time (length kept.now) (all_with last.now kept.now) }
    ensures counted { length result ≡ length kept.now }
{
    let mut time = Time::new(kept.len() as u8);
    for place in kept {
        time.join(&arrival_in(place, last).time);
    }
    time
}

// Whether a time doesn't know an interval.
fn is_news(since: &Time, interval: &Interval) -> bool
    requires { interval.now.node < length since.now }
    ensures { result ≡ is_news since.now interval.now }
{
    since.at(interval.node) < interval.index()
}

// Where, in ascending intervals of one node, those begin that a time doesn't know. Only these and one more are looked
// at.
fn first_news(node: u8, intervals: &[Interval], since: &Time) -> usize
    requires node { node < length since.now }
    requires own { All (λ interval. interval.node ≡ node) intervals.now }
    requires ascending { AllPairs (λ a b. IsTrue (by_node a b)) intervals.now }
    ensures within { result ≤ length intervals.now }
    ensures news { filter (is_news since.now) intervals.now ≡ drop result intervals.now }
{
    let mut start = intervals.len();
    while start > 0 && is_news(since, &intervals[start - 1]) {
        start -= 1;
    }
    start
}

// Adds those of an arrival's intervals that a time doesn't know.
fn add_news(
    news: &mut Vec<Interval>,
    node: u8,
    arrival: &Arrival,
    since: &Time,
) -> Result<(), AllocError>
    requires node { node < length since.now }
    requires own { IsArrival (length since.now) node arrival.now }
    ensures news { IfOk result (λ _. news.new.items
        ≡ news.old.items ++ filter (is_news since.now) arrival.now.intervals) }
    ensures ascending { AllPairs (λ a b. IsTrue (by_node a b)) arrival.now.intervals }
{
    let intervals = arrival.intervals.as_slice();
    let start = first_news(node, intervals, since);
    for interval in &intervals[start..] {
        news.push(interval.duplicate()?)?;
    }
    Ok(())
}

// The intervals of all that a time doesn't know.
fn news_of_all(
    alloc: Global,
    kept: &[Option<Arrival>],
    last: &Arrival,
    since: &Time,
) -> Result<Intervals, AllocError>
    requires counted { length since.now ≡ length kept.now }
    requires few { length kept.now ≤ 16 }
    requires arrivals { AreArrivals (length kept.now) (all_with last.now kept.now) }
    ensures { IfOk result (λ news. news
        ≡ filter (is_news since.now) (intervals_of (all_with last.now kept.now))) }
{
    // Mostly there is one of each node.
    let mut news = Vec::with_capacity(alloc, kept.len())?;
    for (node, place) in kept.iter().enumerate() {
        add_news(&mut news, node as u8, arrival_in(place, last), since)?;
    }
    Ok(Intervals::from_ascending(news))
}

/// Returns the departures, one for each node from node 0 on. It fails if memory runs out.
pub(crate) fn departures(
    alloc: Global,
    kept: &[Option<Arrival>],
    last: &Arrival,
) -> Result<Departures, AllocError>
    requires some { 1 ≤ length kept.now }
    requires few { length kept.now ≤ 16 }
    requires arrivals { AreArrivals (length kept.now) (all_with last.now kept.now) }
    ensures { IfOk result (λ departures. departures ≡ departures_of (all_with last.now kept.now)) }
{
    let collect = collects(kept, last);
    let time = time_of_all(kept, last);
    let mut list = Vec::with_capacity(alloc, kept.len())?;
    for (node, place) in kept.iter().enumerate() {
        let own = arrival_in(place, last);
        let intervals = news_of_all(alloc, kept, last, &own.time)?;
        list.push(Departure {
            to: node as u8,
            episode: own.episode,
            collect,
            time: time.copy(),
            intervals,
        })?;
    }
    Ok(Departures::from_vec(list))
}
