// States that were found, each once, as rows of the numbers of their parts.
//
// A row takes 72 bytes, and some 13 in the set that keeps it. What a node is at, what the nodes share and know, and what
// was noted is kept once for all the rows that have it.

ghost use Rattle.std.specs.Prelude.{◌≡◌};
ghost use Rattle.lrc_lazy_search.specs.RowHash.{mixed_number, mixed_row};

use crate::parts::{Common, Notes, common_number, common_of, notes_number, threads_of};
use crate::state::LazyState;
use indexmap::IndexSet;
use lrc_exec::spot::{Flat, Spot};
use lrc_lazy_known::word::copied;
use std::alloc::{AllocError, Global};
use std::hash::{Hash, Hasher};

/// A state, by the number of each node's thread, of what the nodes share, and of what was noted. Past the nodes that
/// there are the numbers are 0.
#[derive(Clone, Copy, PartialEq, Eq)]
pub(crate) struct Row {
    threads: [u32; 16],
    common: u32,
    notes: u32,
}

// A row is hashed as one number.
impl Hash for Row {
    ghost use Rattle.std.specs.Hash.{u64};
    ghost use Rattle.lrc_lazy_search.specs.RowHash.{mixed_row, respects};

    ghost hash_input = { λ row. u64 (mixed_row row) };

    ghost respects_eq = { respects };

    fn hash<H: Hasher>(&self, state: &mut H) {
        state.write_u64(mixed_row(self));
    }
}

// The numbers of a row, mixed to one of 64 bits.
#[tactic(auto, using(std::proofs::lemmas::List::Sums::fold_more))]
fn mixed_row(row: &Row) -> u64
    ensures { result ≡ mixed_row row.now }
{
    let mut all = 0;
    for number in &row.threads {
        all = mixed_number(all, *number);
    }
    mixed_number(mixed_number(all, row.common), row.notes)
}

// A number with another mixed in.
fn mixed_number(all: u64, number: u32) -> u64
    ensures { result ≡ mixed_number all number }
{
    (all ^ u64::from(number)).wrapping_mul(0x9e37_79b9_7f4a_7c15)
}

/// States, each once, in the order in which they were found, and the distinct parts of them.
#[derive(Drop)]
pub(crate) struct Found {
    threads: IndexSet<Spot>,
    commons: IndexSet<Common>,
    notes: IndexSet<Notes>,
    rows: IndexSet<Row>,
}

impl Found {
    ghost use Rattle.std.specs.Prelude.{◌≡◌, ◌<◌, ◌^◌, IfOk, OnOk, length};
    ghost use Rattle.lrc_exec.specs.States.{IsStateOf};
    ghost use Rattle.lrc_orders.specs.Kept.{IsAddedAt};
    ghost use Rattle.lrc_lazy_search.specs.Found.{AreDistinct, IsFoundAt, Widens, found_count};
    ghost use Rattle.lrc_lazy_search.specs.Searching.{IsNeat};

    /// No states.
    pub(crate) fn none(alloc: Global) -> Found
        ensures none { found_count result ≡ 0 }
        ensures distinct { AreDistinct result }
    {
        Found {
            threads: IndexSet::new(alloc),
            commons: IndexSet::new(alloc),
            notes: IndexSet::new(alloc),
            rows: IndexSet::new(alloc),
        }
    }

    /// How many states there are.
    pub(crate) fn len(&self) -> usize
        ensures len { result ≡ found_count self.now }
        ensures small { result < 2 ^ 63 }
    {
        self.rows.len()
    }

    /// Adds a state, if it is new. Returns its place, and whether it is new. It fails if memory runs out.
    pub(crate) fn add(
        &mut self,
        alloc: Global,
        flat: &Flat,
        state: &LazyState,
    ) -> Result<(usize, bool), AllocError>
        requires distinct { AreDistinct self.old }
        requires state { IsStateOf flat.now state.now.state }
        requires neat { IsNeat flat.now state.now }
        ensures distinct { OnOk result (AreDistinct self.new) }
        ensures widens { OnOk result (Widens self.old self.new) }
        ensures there { IfOk result (λ added. IsFoundAt flat.now self.new added.0 state.now) }
        ensures added { IfOk result (λ added. IsAddedAt (found_count self.old)
            (found_count self.new) added.0 added.1) }
    {
        let _nodes = flat.nodes;
        let threads = threads_of(&mut self.threads, &state.state.spots)?;
        let common = common_of(alloc, state)?;
        let common = common_number(&mut self.commons, common)?;
        let acts = copied(alloc, &state.notes)?;
        let notes = notes_number(&mut self.notes, Notes { acts })?;
        let (place, added) = self.rows.insert_full(Row {
            threads,
            common,
            notes,
        })?;
        Ok((place, added))
    }
}
