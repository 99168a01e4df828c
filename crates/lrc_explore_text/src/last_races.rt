// The races of one act with earlier ones.

ghost use Rattle.std.specs.Prelude.{◌≡◌, ◌==◌, ◌&&◌, ◌<◌, ◌≤◌, ◌++◌, All, IfOk, OnOk, length};
ghost use Rattle.std.specs.List.{flat_map};
ghost use Rattle.lrc_judge.specs.declared.TheConstants.{NODES};
ghost use Rattle.lrc_trace.specs.Interval.{closes, interval_at};
ghost use Rattle.lrc_explore_text.specs.LastRaces.{AreRacesAt, race_ending_at, race_of_pair};

use lrc_judge::pairs::{Pair, racing_pairs};
use lrc_judge::races::{race_of_places, word_of};
use lrc_trace::act::{Act, Deed};
use lrc_trace::race::Race;
use std::alloc::{AllocError, Global};

/// Returns the races of the act at a position with earlier acts, in ascending order, each once.
pub(crate) fn races_at(
    alloc: Global,
    acts: &[Act],
    position: usize,
) -> Result<Vec<Race>, AllocError>
    requires { All (λ act. act.node < NODES) acts.now }
    ensures { IfOk result (λ races. AreRacesAt acts.now position races.items) }
{
    let pairs = racing_pairs(alloc, acts)?;
    let mut races = races_between(alloc, acts, &pairs, position)?;
    races.sort_unstable();
    races.dedup();
    Ok(races)
}

// The races of the pairs whose later position is this one.
fn races_between(
    alloc: Global,
    acts: &[Act],
    pairs: &[Pair],
    position: usize,
) -> Result<Vec<Race>, AllocError>
    requires earlier { All (λ pair. pair.earlier < length acts.now) pairs.now }
    requires later { All (λ pair. pair.later < length acts.now) pairs.now }
    ensures { IfOk result (λ races. races.items
        ≡ flat_map (race_ending_at acts.now position) pairs.now) }
{
    let mut races = Vec::new(alloc);
    for pair in pairs {
        push_race_if(&mut races, acts, *pair, position)?;
    }
    Ok(races)
}

// Adds the race of a pair, if its later position is this one.
fn push_race_if(
    races: &mut Vec<Race>,
    acts: &[Act],
    pair: Pair,
    position: usize,
) -> Result<(), AllocError>
    requires earlier { pair.earlier < length acts.now }
    requires later { pair.later < length acts.now }
    ensures { OnOk result (races.new.items
        ≡ races.old.items ++ race_ending_at acts.now position pair) }
{
    if is_at(pair, position) {
        races.push(race_of_pair(acts, pair))?;
    }
    Ok(())
}

// Whether a pair's later position is this one.
fn is_at(pair: Pair, position: usize) -> bool
    ensures { result ≡ (pair.later == position) }
{
    pair.later == position
}

// The race of the acts at two positions.
fn race_of_pair(acts: &[Act], pair: Pair) -> Race
    requires earlier { pair.earlier < length acts.now }
    requires later { pair.later < length acts.now }
    ensures { result ≡ race_of_pair acts.now pair }
{
    let first = acts[pair.earlier];
    let second = acts[pair.later];
    let i = interval_at(acts, first.node, pair.earlier);
    let j = interval_at(acts, second.node, pair.later);
    race_of_places(word_of(second.deed), first.node, i, second.node, j)
}

// The interval that a node has reached at a position.
fn interval_at(acts: &[Act], node: u8, position: usize) -> u64
    requires { position ≤ length acts.now }
    ensures { result ≡ interval_at acts.now node position }
{
    let front = &acts[..position];
    let mut interval = 1;
    for act in front {
        if closes_of(*act, node) {
            interval += 1;
        }
    }
    interval
}

// Whether an act is of this node, and ends an interval.
fn closes_of(act: Act, node: u8) -> bool
    ensures { result ≡ (act.node == node && closes act.deed) }
{
    act.node == node && closes(act.deed)
}

// Whether a deed ends an interval.
fn closes(deed: Deed) -> bool
    ensures { result ≡ closes deed }
{
    matches!(deed, Deed::Acquire(_) | Deed::Release(_) | Deed::Arrive)
}
