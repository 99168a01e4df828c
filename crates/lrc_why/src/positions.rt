// The positions of which something is so.

ghost use Rattle.std.specs.Prelude.{◌≡◌, ◌<◌, ℕ, Contains, IfOk, MatchBool, MatchOption, OnOk, length};
ghost use Rattle.lrc_trace.specs.Conflict.{Conflict, Races};
ghost use Rattle.lrc_trace.specs.Interval.{closes};
ghost use Rattle.lrc_judge.specs.Adding.{Adds, IsOfSome};
ghost use Rattle.lrc_judge.specs.Firsts.{AreIntervals};
ghost use Rattle.lrc_judge.specs.Order.{IsOrderOf};
ghost use Rattle.lrc_why_chains.specs.Known.{IsActOf};
ghost use Rattle.lrc_why_chains.specs.Writes.{AreExactly, IsWrite};
ghost use Rattle.lrc_why.specs.Deeds.{conflicts, is_write, word_accessed};
ghost use Rattle.lrc_why.specs.Positions.{AreWordsOf, IsAsked, IsBeside, IsClosed, IsNewBehind, IsRacing, IsWithin};

use lrc_judge::order::Order;
use lrc_trace::act::{Act, Deed};
use std::alloc::{AllocError, Global};

/// Which acts are asked for.
#[derive(Clone, Copy)]
pub(crate) enum Which {
    /// The node's acts that race with the act at the position.
    RacingOf(u8, usize),
    /// The acts that close an interval of the node, and are the act at the position or known at it.
    ClosingOf(u8, usize),
    /// The acts in the interval of the act at the position, of the same node.
    BesideIn(usize),
    /// The node's acts that are known at the position, but not at this earlier one.
    NewOf(u8, usize, Option<usize>),
}

/// Returns the word that an access is of.
pub(crate) fn accessed(deed: Deed) -> Option<u32>
    ensures { result ≡ word_accessed deed }
{
    match deed {
        Deed::Read(word, _) | Deed::Write(word, _) => Some(word),
        _ => None,
    }
}

fn writes(deed: Deed) -> bool
    ensures { result ≡ is_write deed }
{
    matches!(deed, Deed::Write(_, _))
}

// Whether the deed ends an interval of its node.
pub(crate) fn closes(deed: Deed) -> bool
    ensures { result ≡ closes deed }
{
    matches!(deed, Deed::Acquire(_) | Deed::Release(_) | Deed::Arrive)
}

/// Returns whether the node acts at the position.
pub(crate) fn is_act_of(acts: &[Act], node: u8, k: usize) -> bool
    ensures { MatchBool result (IsActOf acts.now node k) (¬ IsActOf acts.now node k) }
{
    k < acts.len() && acts[k].node == node
}

// Whether two acts are accesses of two nodes to one word, at least one of them a write.
fn conflict(one: Act, other: Act) -> bool
    ensures { result ≡ conflicts one other }
{
    let Some(word) = accessed(one.deed) else {
        return false;
    };
    let Some(other_word) = accessed(other.deed) else {
        return false;
    };
    one.node != other.node && word == other_word && (writes(one.deed) || writes(other.deed))
}

// The same of the acts at two positions.
fn conflict_at(acts: &[Act], first: usize, second: usize) -> bool
    requires first { first < length acts.now }
    requires second { second < length acts.now }
    ensures { MatchBool result (Conflict acts.now first second) (¬ Conflict acts.now first second) }
{
    conflict(acts[first], acts[second])
}

/// Returns whether the acts at two positions race, the earlier first.
pub(crate) fn races(acts: &[Act], order: &Order, earlier: usize, later: usize) -> bool
    requires order { IsOrderOf acts.now order.now }
    requires earlier { earlier < length acts.now }
    requires later { later < length acts.now }
    ensures { MatchBool result (Races acts.now earlier later) (¬ Races acts.now earlier later) }
{
    if earlier >= later || order.is_before(earlier, later) {
        return false;
    }
    conflict_at(acts, earlier, later)
}

/// Returns whether an act is of the node and races with the act at the position.
pub(crate) fn is_racing(acts: &[Act], order: &Order, node: u8, position: usize, k: usize) -> bool
    requires order { IsOrderOf acts.now order.now }
    requires position { position < length acts.now }
    requires within { k < length acts.now }
    ensures { MatchBool result (IsRacing acts.now node position k)
        (¬ IsRacing acts.now node position k) }
{
    if !is_act_of(acts, node, k) {
        return false;
    }
    if races(acts, order, k, position) {
        return true;
    }
    races(acts, order, position, k)
}

// Whether the act closes an interval of the node, and stands at the position or is known there.
fn is_closed(acts: &[Act], order: &Order, node: u8, position: usize, k: usize) -> bool
    requires order { IsOrderOf acts.now order.now }
    requires within { k < length acts.now }
    ensures { MatchBool result (IsClosed acts.now node position k)
        (¬ IsClosed acts.now node position k) }
{
    if acts[k].node != node || !closes(acts[k].deed) {
        return false;
    }
    k == position || order.is_before(k, position)
}

// Whether the act is of the node that acts at the position, in the same interval.
fn is_beside(acts: &[Act], intervals: &[u64], position: usize, k: usize) -> bool
    requires intervals { AreIntervals acts.now (length acts.now) intervals.now }
    requires position { position < length acts.now }
    requires within { k < length acts.now }
    ensures { MatchBool result (IsBeside acts.now position k) (¬ IsBeside acts.now position k) }
{
    if !is_act_of(acts, acts[position].node, k) {
        return false;
    }
    intervals[k] == intervals[position]
}

// Whether the act is of the node, known at the position, and not at the earlier one.
fn is_new(
    acts: &[Act],
    order: &Order,
    node: u8,
    position: usize,
    before: Option<usize>,
    k: usize,
) -> bool
    requires { IsOrderOf acts.now order.now }
    ensures { MatchBool result (IsNewBehind acts.now node position before k)
        (¬ IsNewBehind acts.now node position before k) }
{
    if !is_act_of(acts, node, k) || !order.is_before(k, position) {
        return false;
    }
    match before {
        Some(before) => !order.is_before(k, before),
        None => true,
    }
}

fn is_asked(acts: &[Act], order: &Order, intervals: &[u64], which: Which, k: usize) -> bool
    requires order { IsOrderOf acts.now order.now }
    requires intervals { AreIntervals acts.now (length acts.now) intervals.now }
    requires which { IsWithin (length acts.now) which }
    requires within { k < length acts.now }
    ensures { MatchBool result (IsAsked acts.now which k) (¬ IsAsked acts.now which k) }
{
    match which {
        Which::RacingOf(node, position) => is_racing(acts, order, node, position, k),
        Which::ClosingOf(node, position) => is_closed(acts, order, node, position, k),
        Which::BesideIn(position) => is_beside(acts, intervals, position, k),
        Which::NewOf(node, position, before) => is_new(acts, order, node, position, before, k),
    }
}

/// Returns the positions of the acts that are asked for, ascending. It fails if memory runs out.
pub(crate) fn positions(
    alloc: Global,
    acts: &[Act],
    order: &Order,
    intervals: &[u64],
    which: Which,
) -> Result<Vec<usize>, AllocError>
    requires order { IsOrderOf acts.now order.now }
    requires intervals { AreIntervals acts.now (length acts.now) intervals.now }
    requires which { IsWithin (length acts.now) which }
    ensures { IfOk result (λ found. AreExactly (IsAsked acts.now which) found.items) }
{
    let mut found = Vec::new(alloc);
    for k in 0..acts.len() {
        if is_asked(acts, order, intervals, which, k) {
            found.push(k)?;
        }
    }
    Ok(found)
}

// The word that is written at the position.
fn word_written(acts: &[Act], k: usize) -> Option<u32>
    ensures { MatchOption result ((word : ℕ) → ¬ IsWrite acts.now word k)
        (λ word. IsWrite acts.now word k) }
{
    match acts.get(k)?.deed {
        Deed::Write(word, _) => Some(word),
        _ => None,
    }
}

// Adds the word that is written at the position, if there is one.
fn add_word(words: &mut Vec<u32>, acts: &[Act], k: usize) -> Result<(), AllocError>
    ensures { OnOk result (Adds words.old.items words.new.items (λ word. IsWrite acts.now word k)) }
{
    match word_written(acts, k) {
        Some(word) => {
            words.push(word)?;
            Ok(())
        }
        None => Ok(()),
    }
}

// Adds the words that are written at these positions.
fn add_words(words: &mut Vec<u32>, acts: &[Act], positions: &[usize]) -> Result<(), AllocError>
    ensures { OnOk result (Adds words.old.items words.new.items
        (IsOfSome positions.now (λ k word. IsWrite acts.now word k))) }
{
    for k in positions {
        add_word(words, acts, *k)?;
    }
    Ok(())
}

/// Returns the words written at these positions, ascending, each once. It fails if memory runs out.
pub(crate) fn words_written(
    alloc: Global,
    acts: &[Act],
    positions: &[usize],
) -> Result<Vec<u32>, AllocError>
    ensures { IfOk result (λ words. AreWordsOf acts.now (Contains positions.now) words.items) }
{
    let mut words = Vec::new(alloc);
    add_words(&mut words, acts, positions)?;
    words.sort_unstable();
    words.dedup();
    Ok(words)
}
