// The pairs of positions that race.
ghost use Rattle.std.specs.Prelude.{◌≡◌, ◌<◌, All, IfOk, OnOk};
ghost use Rattle.lrc_judge.specs.declared.TheConstants.{NODES};
ghost use Rattle.lrc_judge.specs.Adding.{Adds};
ghost use Rattle.lrc_judge.specs.Lanes.{AreSearchable};
ghost use Rattle.lrc_judge.specs.Pairs.{AreConflictsOf, ArePairsWithLater, AreRacingPairs, AreSearchableConflicts, IsCrossing, IsOfOthers, IsPairOfAct};

use crate::NODES;
use crate::entries::{Told, entries_of};
use crate::guesses::Guesses;
pub use crate::lanes::Pair;
use crate::lanes::{Entry, Lane, add_unordered};
use crate::order::{Order, happens_before};
use lrc_trace::act::{Act, Deed};
use std::alloc::{AllocError, Global};

// Adds the pairs of the entry's position with earlier ones of other nodes' lanes of its word that are not before it.
// Leaves for each of these lanes where those that are before it end.
fn add_of_others(
    pairs: &mut Vec<Pair>,
    order: &Order,
    entry: Entry,
    among: &[Entry],
    guesses: &mut Guesses,
) -> Result<(), AllocError>
    requires { AreSearchable order.now among.now }
    ensures { OnOk result (Adds pairs.old.items pairs.new.items
        (IsOfOthers among.now order.now entry.lane.word entry.lane.node NODES entry.position)) }
{
    for other in 0..NODES {
        if other == usize::from(entry.lane.node) {
            continue;
        }
        let lane = Lane {
            word: entry.lane.word,
            value: 0,
            node: other as u8,
        };
        let guess = guesses.beyond[other];
        guesses.beyond[other] = add_unordered(pairs, among, order, lane, entry.position, guess)?;
    }
    Ok(())
}

/// Adds each pair of an entry of `from` and an earlier entry of `among` of another node and the same word, unless the
/// earlier act happens before the later one. It fails only if memory runs out.
pub fn add_crossing(
    pairs: &mut Vec<Pair>,
    order: &Order,
    from: &[Entry],
    among: &[Entry],
) -> Result<(), AllocError>
    requires { AreSearchable order.now among.now }
    ensures { OnOk result (Adds pairs.old.items pairs.new.items
        (IsCrossing from.now among.now order.now)) }
{
    let mut guesses = Guesses::none();
    for entry in from {
        add_of_others(pairs, order, *entry, among, &mut guesses)?;
    }
    Ok(())
}

/// What determines the racing pairs of a run, position by position: its order, and its accesses by word and node.
#[derive(Drop)]
pub struct Conflicts {
    order: Order,
    accesses: Vec<Entry>,
    writes: Vec<Entry>,
}

/// Prepares the accesses of a run, to find which of them race. The cost is nearly linear in the number of acts. It
/// fails only if memory runs out.
pub fn conflicts_of(alloc: Global, acts: &[Act]) -> Result<Conflicts, AllocError>
    requires { All (λ act. act.node < NODES) acts.now }
    ensures { IfOk result (AreConflictsOf acts.now) }
{
    Ok(Conflicts {
        order: happens_before(alloc, acts)?,
        accesses: entries_of(alloc, acts, Told::EachAccess)?,
        writes: entries_of(alloc, acts, Told::EachWrite)?,
    })
}

impl Conflicts {
    // Adds the pairs of the act at a position with the earlier acts of other nodes that race with it.
    fn add_pairs_of(
        &self,
        pairs: &mut Vec<Pair>,
        act: Act,
        position: usize,
    ) -> Result<(), AllocError>
        requires searchable { AreSearchableConflicts self.now }
        ensures { OnOk result (Adds pairs.old.items pairs.new.items
            (IsPairOfAct self.now act.node act.deed position)) }
    {
        let (word, among) = match act.deed {
            Deed::Read(word, _) => (word, self.writes.as_slice()),
            Deed::Write(word, _) => (word, self.accesses.as_slice()),
            _ => return Ok(()),
        };
        let lane = Lane {
            word,
            value: 0,
            node: act.node,
        };
        let entry = Entry { lane, position };
        add_of_others(pairs, &self.order, entry, among, &mut Guesses::none())
    }

    /// Returns the racing pairs of accesses whose later one is at this position, sorted by the earlier, each once. The
    /// cost is nearly linear in the number of these pairs. It fails only if memory runs out.
    pub fn pairs_with_later(
        &self,
        alloc: Global,
        acts: &[Act],
        later: usize,
    ) -> Result<Vec<Pair>, AllocError>
        requires acts { All (λ act. act.node < NODES) acts.now }
        requires conflicts { AreConflictsOf acts.now self.now }
        ensures { IfOk result (λ pairs. ArePairsWithLater acts.now later pairs.items) }
    {
        let mut pairs = Vec::new(alloc);
        if later < acts.len() {
            self.add_pairs_of(&mut pairs, acts[later], later)?;
        }
        pairs.sort_unstable();
        pairs.dedup();
        Ok(pairs)
    }
}

/// Returns the racing pairs of accesses, sorted by the later, then by the earlier, each once. The cost is nearly linear
/// in the number of acts and pairs. It fails only if memory runs out.
pub fn racing_pairs(alloc: Global, acts: &[Act]) -> Result<Vec<Pair>, AllocError>
    requires { All (λ act. act.node < NODES) acts.now }
    ensures { IfOk result (λ pairs. AreRacingPairs acts.now pairs.items) }
{
    let order = happens_before(alloc, acts)?;
    let accesses = entries_of(alloc, acts, Told::EachAccess)?;
    let writes = entries_of(alloc, acts, Told::EachWrite)?;
    let mut pairs = Vec::new(alloc);
    add_crossing(&mut pairs, &order, accesses.as_slice(), writes.as_slice())?;
    add_crossing(&mut pairs, &order, writes.as_slice(), accesses.as_slice())?;
    pairs.sort_unstable();
    pairs.dedup();
    Ok(pairs)
}
