// Of each race that a run names the first pair of positions that it names.
ghost use Rattle.std.specs.Prelude.{◌≡◌, ◌<◌, All, IfOk, length};
ghost use Rattle.lrc_judge.specs.declared.TheConstants.{NODES};
ghost use Rattle.lrc_judge.specs.FirstPairs.{AreFirstPairs};
ghost use Rattle.lrc_judge.specs.Leaders.{AreLeaders};
ghost use Rattle.lrc_judge.specs.Order.{IsOrderOf};
ghost use Rattle.lrc_judge.specs.Races.{IsNameOf};

use crate::NODES;
use crate::firsts::intervals_of;
pub use crate::lanes::Pair;
use crate::order::Order;
use crate::races::{race_of_places, race_pairs, word_of};
use lrc_trace::act::Act;
use lrc_trace::race::Race;
use std::alloc::{AllocError, Global};
use std::collections::BTreeSet;

// The race of the acts at two positions.
fn name_of(acts: &[Act], intervals: &[u64], pair: Pair) -> Race
    requires earlier { pair.earlier < length acts.now }
    requires later { pair.later < length acts.now }
    requires long { length intervals.now ≡ length acts.now }
    ensures { IsNameOf acts.now intervals.now pair result }
{
    let first = acts[pair.earlier];
    let second = acts[pair.later];
    let i = intervals[pair.earlier];
    let j = intervals[pair.later];
    let word = word_of(second.deed);
    race_of_places(word, first.node, i, second.node, j)
}

// Of these pairs the first one of each race.
fn leaders_of(
    alloc: Global,
    acts: &[Act],
    intervals: &[u64],
    pairs: &[Pair],
) -> Result<Vec<Pair>, AllocError>
    requires earlier { All (λ pair. pair.earlier < length acts.now) pairs.now }
    requires later { All (λ pair. pair.later < length acts.now) pairs.now }
    requires long { length intervals.now ≡ length acts.now }
    ensures { IfOk result (λ leaders. AreLeaders acts.now intervals.now pairs.now leaders.items) }
{
    let mut named = BTreeSet::new(alloc);
    let mut leaders = Vec::new(alloc);
    for pair in pairs {
        let race = name_of(acts, intervals, *pair);
        if named.insert(race)? {
            leaders.push(*pair)?;
        }
    }
    Ok(leaders)
}

/// Returns the first pair of each race that a run names, given its happens-before order. Among the pairs with the same race, it is the one whose later
/// act comes first, and among these the one whose earlier act comes first.
///
/// The pairs are sorted by the later act, then by the earlier, each once. The cost is nearly linear in the acts times
/// the nodes, plus the races. It fails only if memory runs out.
pub fn first_pairs(alloc: Global, order: &Order, acts: &[Act]) -> Result<Vec<Pair>, AllocError>
    requires order { IsOrderOf acts.now order.now }
    requires nodes { All (λ act. act.node < NODES) acts.now }
    ensures { IfOk result (λ pairs. AreFirstPairs acts.now pairs.items) }
{
    let intervals = intervals_of(alloc, acts)?;
    let mut pairs = race_pairs(alloc, order, acts, intervals.as_slice())?;
    pairs.sort_unstable();
    let mut leaders = leaders_of(alloc, acts, intervals.as_slice(), pairs.as_slice())?;
    leaders.sort_unstable();
    leaders.dedup();
    Ok(leaders)
}
