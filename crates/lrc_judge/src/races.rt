// The races that a run names.
ghost use Rattle.std.specs.Prelude.{◌≡◌, ◌<◌, All, IfOk, OnOk, length};
ghost use Rattle.lrc_judge.specs.declared.TheConstants.{NODES};
ghost use Rattle.lrc_judge.specs.Adding.{Adds, IsOfSome};
ghost use Rattle.lrc_judge.specs.Firsts.{AreFirstEntries, AreIntervals};
ghost use Rattle.lrc_judge.specs.Order.{IsOrderOf};
ghost use Rattle.lrc_judge.specs.Races.{AreNamedRaces, AreRacePairs, IsNameOf, race_of_places, word_of};

use crate::NODES;
use crate::entries::{Told, entries_of};
use crate::firsts::{firsts_of, intervals_of};
use crate::lanes::{Entry, Pair};
use crate::order::{Order, happens_before};
use crate::pairs::add_crossing;
use lrc_trace::act::{Act, Deed};
use lrc_trace::race::Race;
use std::alloc::{AllocError, Global};

/// Returns the word of an access, or 0 for another deed.
pub fn word_of(deed: Deed) -> u32
    ensures { result ≡ word_of deed }
{
    match deed {
        Deed::Read(word, _) | Deed::Write(word, _) => word,
        _ => 0,
    }
}

/// Returns the race of the accesses of two nodes to a word, in these intervals. The lower node comes first.
pub fn race_of_places(word: u32, p: u8, i: u64, q: u8, j: u64) -> Race
    ensures { result ≡ race_of_places word p i q j }
{
    if p < q {
        Race {
            word,
            node_a: p,
            node_b: q,
            interval_a: i,
            interval_b: j,
        }
    } else {
        Race {
            word,
            node_a: q,
            node_b: p,
            interval_a: j,
            interval_b: i,
        }
    }
}

// Of the accesses, or of the writes, of a node to a word the first of each interval.
fn first_entries(
    alloc: Global,
    acts: &[Act],
    told: Told,
    intervals: &[u64],
) -> Result<Vec<Entry>, AllocError>
    requires { length intervals.now ≡ length acts.now }
    ensures { IfOk result (λ firsts. AreFirstEntries acts.now told intervals.now firsts.items) }
{
    let entries = entries_of(alloc, acts, told)?;
    let firsts = firsts_of(alloc, entries.as_slice(), intervals)?;
    Ok(firsts)
}

// Pairs that race, among them one for each race that the run names: those of the first accesses of intervals.
pub(crate) fn race_pairs(
    alloc: Global,
    order: &Order,
    acts: &[Act],
    intervals: &[u64],
) -> Result<Vec<Pair>, AllocError>
    requires order { IsOrderOf acts.now order.now }
    requires nodes { All (λ act. act.node < NODES) acts.now }
    requires intervals { AreIntervals acts.now (length acts.now) intervals.now }
    ensures { IfOk result (λ pairs. AreRacePairs acts.now pairs.items) }
{
    let accesses = first_entries(alloc, acts, Told::EachAccess, intervals)?;
    let writes = first_entries(alloc, acts, Told::EachWrite, intervals)?;
    let mut pairs = Vec::new(alloc);
    add_crossing(&mut pairs, order, accesses.as_slice(), writes.as_slice())?;
    add_crossing(&mut pairs, order, writes.as_slice(), accesses.as_slice())?;
    Ok(pairs)
}

// Adds the races of the acts at these pairs of positions.
fn add_names(
    races: &mut Vec<Race>,
    acts: &[Act],
    intervals: &[u64],
    pairs: &[Pair],
) -> Result<(), AllocError>
    requires earlier { All (λ pair. pair.earlier < length acts.now) pairs.now }
    requires later { All (λ pair. pair.later < length acts.now) pairs.now }
    requires long { length intervals.now ≡ length acts.now }
    ensures { OnOk result (Adds races.old.items races.new.items
        (IsOfSome pairs.now (IsNameOf acts.now intervals.now))) }
{
    for pair in pairs {
        let first = acts[pair.earlier];
        let second = acts[pair.later];
        let i = intervals[pair.earlier];
        let j = intervals[pair.later];
        let word = word_of(second.deed);
        races.push(race_of_places(word, first.node, i, second.node, j))?;
    }
    Ok(())
}

/// Returns the races that a run names, ascending, each once. The cost is nearly linear in the acts times the nodes,
/// plus the races. It fails only if memory runs out.
pub fn named_races(alloc: Global, acts: &[Act]) -> Result<Vec<Race>, AllocError>
    requires { All (λ act. act.node < NODES) acts.now }
    ensures { IfOk result (λ races. AreNamedRaces acts.now races.items) }
{
    let order = happens_before(alloc, acts)?;
    let intervals = intervals_of(alloc, acts)?;
    let pairs = race_pairs(alloc, &order, acts, intervals.as_slice())?;
    let mut races = Vec::new(alloc);
    add_names(&mut races, acts, intervals.as_slice(), pairs.as_slice())?;
    races.sort_unstable();
    races.dedup();
    Ok(races)
}
