// Accesses by lanes.
ghost use Rattle.std.specs.Prelude.{◌≡◌, ℕ, ◌≤◌, ◌↔◌, IfOk, IfSome, MatchOption, Contains, IsTrue, OnOk, length, true, false};
ghost use Rattle.std.specs.List.{AllWithin};
ghost use Rattle.std.specs.List.Sorted.{IsPartitionPoint};
ghost use Rattle.lrc_judge.specs.Adding.{Adds};
ghost use Rattle.lrc_judge.specs.Lanes.{AreSearchable, IsLastOfLane, IsOfLane, entry, is_behind};
ghost use Rattle.lrc_judge.specs.Order.{is_before};
ghost use Rattle.lrc_judge.specs.declared.order.Order.{Order};

use crate::order::Order;
use std::alloc::AllocError;
use std::cmp::Ordering;

/// A class of accesses: those of one node to one word, and, if values distinguish lanes, with one value. Otherwise the
/// value is 0.
#[derive(Clone, Copy, PartialEq, Eq, PartialOrd, Ord)]
pub struct Lane {
    pub word: u32,
    pub value: u64,
    pub node: u8,
}

/// An access of a lane. Entries are ordered by lane, then by position.
#[derive(Clone, Copy, PartialEq, Eq, PartialOrd, Ord)]
pub struct Entry {
    pub lane: Lane,
    pub position: usize,
}

/// Two positions, the later first. Pairs are ordered by the later position, then by the earlier.
#[derive(Clone, Copy, PartialEq, Eq, PartialOrd, Ord)]
pub struct Pair {
    /// The later position.
    pub later: usize,
    /// The earlier position.
    pub earlier: usize,
}

// Whether the entry is of an earlier lane, or of this one and before the position.
fn is_behind(order: &Order, lane: Lane, position: usize, entry: &Entry) -> bool
    ensures { result ≡ is_behind order.now lane position entry.now }
{
    match entry.lane.cmp(&lane) {
        Ordering::Less => true,
        Ordering::Equal => order.is_before(entry.position, position),
        Ordering::Greater => false,
    }
}

// The index of the first entry that is neither of an earlier lane, nor of this one and before the position.
fn first_beyond(entries: &[Entry], order: &Order, lane: Lane, position: usize) -> usize
    requires { AreSearchable order.now entries.now }
    ensures bound { result ≤ length entries.now }
    ensures point { IsPartitionPoint (λ e. is_behind order.now lane position e ≡ true)
        (λ e. is_behind order.now lane position e ≡ false) entries.now result }
{
    entries.partition_point(
        |entry: &Entry| -> bool
            ensures { result ≡ is_behind order.entry.now lane position entry.now }
        { is_behind(order, lane, position, entry) },
    )
}

/// How many entries are looked at from a guess on before the whole list is searched.
const NEAR: usize = 2;

// Whether all entries before this index are behind, that is of an earlier lane, or of this one and before the position.
fn are_behind(entries: &[Entry], order: &Order, lane: Lane, position: usize, end: usize) -> bool
    requires searchable { AreSearchable order.now entries.now }
    requires end { end ≤ length entries.now }
    ensures { IsTrue result
        ↔ AllWithin (λ e. is_behind order.now lane position e ≡ true) entries.now 0 end }
{
    end == 0 || is_behind(order, lane, position, &entries[end - 1])
}

// The index of the first entry that is not behind, if it is one of the few from the guess on.
fn beyond_near(
    entries: &[Entry],
    order: &Order,
    lane: Lane,
    position: usize,
    guess: usize,
) -> Option<usize>
    requires { AreSearchable order.now entries.now }
    ensures bound { IfSome result (λ at. at ≤ length entries.now) }
    ensures point { IfSome result (λ at. IsPartitionPoint (λ e. is_behind order.now lane position e ≡ true)
        (λ e. is_behind order.now lane position e ≡ false) entries.now at) }
{
    if entries.len() < guess || !are_behind(entries, order, lane, position, guess) {
        return None;
    }
    for at in guess..entries.len() {
        if !is_behind(order, lane, position, &entries[at]) {
            return Some(at);
        }
        if at - guess == NEAR {
            return None;
        }
    }
    Some(entries.len())
}

// The same index as that of `first_beyond`, found faster where the guess is right or a little too low.
fn first_beyond_from(
    entries: &[Entry],
    order: &Order,
    lane: Lane,
    position: usize,
    guess: usize,
) -> usize
    requires { AreSearchable order.now entries.now }
    ensures bound { result ≤ length entries.now }
    ensures point { IsPartitionPoint (λ e. is_behind order.now lane position e ≡ true)
        (λ e. is_behind order.now lane position e ≡ false) entries.now result }
{
    match beyond_near(entries, order, lane, position, guess) {
        Some(at) => at,
        None => first_beyond(entries, order, lane, position),
    }
}

/// Returns the last position of a lane whose act happens before the one at this position, or none if there is none. The
/// guess, where to begin the search, is replaced by a better one.
pub fn last_before(
    entries: &[Entry],
    order: &Order,
    lane: Lane,
    position: usize,
    guess: &mut usize,
) -> Option<usize>
    requires { AreSearchable order.now entries.now }
    ensures { MatchOption result ((k : ℕ) → Contains entries.now (entry lane k)
        → ¬ IsTrue (is_before order.now k position))
        (IsLastOfLane entries.now order.now lane position) }
{
    let beyond = first_beyond_from(entries, order, lane, position, *guess);
    *guess = beyond;
    if beyond == 0 {
        return None;
    }
    let last = entries[beyond - 1];
    if last.lane != lane {
        return None;
    }
    Some(last.position)
}

// Adds the pairs of a position with the entries from this index on, as long as they are of the lane and earlier.
fn add_from(
    pairs: &mut Vec<Pair>,
    entries: &[Entry],
    lane: Lane,
    position: usize,
    beyond: usize,
) -> Result<(), AllocError>
    ensures { OnOk result ((order : Order) → AreSearchable order entries.now
        → IsPartitionPoint (λ e. is_behind order lane position e ≡ true)
        (λ e. is_behind order lane position e ≡ false) entries.now beyond
        → Adds pairs.old.items pairs.new.items (IsOfLane entries.now order lane position)) }
{
    for at in beyond..entries.len() {
        let found = entries[at];
        if found.lane != lane || position <= found.position {
            return Ok(());
        }
        pairs.push(Pair {
            later: position,
            earlier: found.position,
        })?;
    }
    Ok(())
}

/// Adds the pairs of a position with the earlier positions of a lane whose acts do not happen before it, and returns
/// the index of the first entry that is neither of an earlier lane, nor of this one and before the position. The guess
/// of it may be wrong, which costs time alone. The cost is nearly linear in the number of these pairs. It fails only if memory runs out.
pub fn add_unordered(
    pairs: &mut Vec<Pair>,
    entries: &[Entry],
    order: &Order,
    lane: Lane,
    position: usize,
    guess: usize,
) -> Result<usize, AllocError>
    requires { AreSearchable order.now entries.now }
    ensures pairs { OnOk result (Adds pairs.old.items pairs.new.items
        (IsOfLane entries.now order.now lane position)) }
    ensures beyond { IfOk result (IsPartitionPoint (λ e. is_behind order.now lane position e ≡ true)
        (λ e. is_behind order.now lane position e ≡ false) entries.now) }
{
    let beyond = first_beyond_from(entries, order, lane, position, guess);
    add_from(pairs, entries, lane, position, beyond)?;
    Ok(beyond)
}
