// Rows, each once: a state with its notes is kept as the numbers of its parts.
//
// A row takes 72 bytes, and some 13 in the set that keeps it. What a node is at, what the nodes share and what was
// noted is kept once for all the rows that have it.

ghost use Rattle.std.specs.Prelude.{◌≡◌};
ghost use Rattle.lrc_orders_table.specs.RowHash.{mix, mixed};

use crate::notes::Notes;
use crate::parts::{counted, threads_at, threads_of};
use indexmap::IndexSet;
use lrc_exec::spot::Spot;
use lrc_exec::state::State;
use lrc_orders::noted::Noted;
use lrc_orders_memory::sharing::AllShared;
use std::alloc::{AllocError, Global};
use std::hash::{Hash, Hasher};

/// A state with its notes, by the number of each node's thread, of what the nodes share, and of what was noted. Past
/// the nodes that there are the numbers are 0.
#[derive(Clone, Copy, PartialEq, Eq)]
pub struct Row {
    pub threads: [u32; 16],
    pub shared: u32,
    pub notes: u32,
}

// A row is hashed as one number: most of the time of a search is that of looking rows up.
impl Hash for Row {
    ghost use Rattle.std.specs.Hash.{u64};
    ghost use Rattle.lrc_orders_table.specs.RowHash.{mixed, respects};

    ghost hash_input = { λ row. u64 (mixed row) };

    ghost respects_eq = { respects };

    fn hash<H: Hasher>(&self, state: &mut H) {
        state.write_u64(mixed(self));
    }
}

// The numbers of a row, mixed to one of 64 bits.
#[tactic(auto, using(std::proofs::lemmas::List::Sums::fold_more))]
fn mixed(row: &Row) -> u64
    ensures { result ≡ mixed row.now }
{
    let mut all = 0;
    for number in &row.threads {
        all = mix(all, *number);
    }
    mix(mix(all, row.shared), row.notes)
}

// A number with another mixed in.
fn mix(all: u64, number: u32) -> u64
    ensures { result ≡ mix all number }
{
    (all ^ u64::from(number)).wrapping_mul(0x9e37_79b9_7f4a_7c15)
}

/// Rows of so many nodes, each once, in the order in which they were added, and the distinct parts of them.
#[derive(Drop)]
pub struct Rows {
    pub nodes: usize,
    pub threads: IndexSet<Spot>,
    pub shared: AllShared,
    pub notes: Notes,
    pub rows: IndexSet<Row>,
}

impl Rows {
    ghost use Rattle.std.specs.Prelude.{◌≡◌, ◌<◌, ◌≤◌, ◌^◌, [], IfOk, OnOk, Some, length, slice_get};
    ghost use Rattle.lrc_orders.specs.declared.noted.Noted.{Noted as Key};
    ghost use Rattle.lrc_orders.specs.Kept.{IsAddedAt};
    ghost use Rattle.lrc_orders_settling.specs.Taking.{IsCounted};
    ghost use Rattle.lrc_orders_table.specs.Links.{StandByNode};
    ghost use Rattle.lrc_orders_table.specs.Rows.{AddsThreads, AreRowsDistinct, IsRowAt, IsRowPlace, StandsFor, WidensRows, row_count};

    /// No rows.
    pub fn new(alloc: Global, nodes: usize) -> Rows
        ensures empty { row_count result ≡ 0 }
        ensures nodes { result.nodes ≡ nodes }
        ensures threads { result.threads.keys ≡ [] }
        ensures shared { result.shared.kept.keys ≡ [] }
        ensures links { result.notes.links.keys ≡ [] }
        ensures lasts { result.notes.lasts.keys ≡ [] }
        ensures distinct { AreRowsDistinct result }
    {
        Rows {
            nodes,
            threads: IndexSet::new(alloc),
            shared: AllShared::new(alloc),
            notes: Notes::new(alloc),
            rows: IndexSet::new(alloc),
        }
    }

    /// How many rows there are.
    pub fn len(&self) -> usize
        ensures len { result ≡ row_count self.now }
        ensures small { result < 2 ^ 63 }
    {
        self.rows.len()
    }

    /// The row at a place.
    pub fn row(&self, place: usize) -> Row
        requires { place < row_count self.now }
        ensures { slice_get self.now.rows.keys place ≡ Some result }
    {
        self.rows.as_slice()[place]
    }

    /// The state with its notes that the row at a place stands for.
    pub fn noted(&self, alloc: Global, place: usize) -> Result<Noted, AllocError>
        requires { IsRowPlace self.now place }
        ensures { IfOk result (IsRowAt self.now place) }
    {
        let row = self.row(place);
        let spots = threads_at(alloc, &self.threads, &row.threads, self.nodes)?;
        Ok(Noted {
            state: State {
                memory: self.shared.words(alloc, row.shared)?,
                holders: self.shared.holders(alloc, row.shared)?,
                arrivals: counted(alloc, &spots)?,
                spots,
            },
            notes: self.notes.acts(alloc, row.notes)?,
        })
    }

    /// Adds the row of a state with its notes, which stand node by node, if it is new: its place, and whether it is new.
    pub fn add(&mut self, noted: Noted) -> Result<(usize, bool), AllocError>
        requires distinct { AreRowsDistinct self.old }
        requires nodes { length noted.state.spots.items ≡ self.old.nodes }
        requires counted { IsCounted noted.state }
        requires notes { StandByNode self.old.nodes noted.notes.items }
        ensures widens { OnOk result (WidensRows self.old self.new) }
        ensures distinct { OnOk result (AreRowsDistinct self.new) }
        ensures there { IfOk result (λ added. IsRowAt self.new added.0 noted) }
        ensures added { IfOk result (λ added. IsAddedAt (row_count self.old)
            (row_count self.new) added.0 added.1) }
        ensures only { OnOk result (AddsThreads self.old.threads.keys self.new.threads.keys
            noted.state.spots.items) }
    {
        let state = noted.state;
        let threads = threads_of(&mut self.threads, &state.spots)?;
        let holders = state.holders;
        let shared = self.shared.number_of(&state.memory, holders)?;
        let notes = self.notes.add(&noted.notes)?;
        let (place, added) = self.put(Row {
            threads,
            shared,
            notes,
        })?;
        Ok((place, added))
    }

    /// Adds a row, if it is new: its place, and whether it is new.
    pub fn put(&mut self, row: Row) -> Result<(usize, bool), AllocError>
        requires { AreRowsDistinct self.old }
        ensures widens { OnOk result (WidensRows self.old self.new) }
        ensures distinct { OnOk result (AreRowsDistinct self.new) }
        ensures has { IfOk result (λ added. slice_get self.new.rows.keys added.0 ≡ Some row) }
        ensures there { IfOk result (λ added. (key : Key) → StandsFor self.old row key
            → IsRowAt self.new added.0 key) }
        ensures added { IfOk result (λ added. IsAddedAt (row_count self.old)
            (row_count self.new) added.0 added.1) }
        ensures parts { self.new ≡ record self.old { rows = self.new.rows } }
    {
        let (place, added) = self.rows.insert_full(row)?;
        Ok((place, added))
    }
}
