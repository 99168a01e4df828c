// Rows, and what is known of their threads.

use crate::next::Next;
use crate::rows::{Row, Rows};
use indexmap::IndexMap;
use lrc_trace::act::Deed;
use std::alloc::Global;

/// A settled thread, and the value that its next act gives: what a read reads, and else 0.
#[derive(Clone, Copy, PartialEq, Eq, Hash)]
pub struct Asked {
    pub thread: u32,
    pub value: u64,
}

/// The number of the thread that it settles to, those of its deeds that others can see or that are noted, and whether it
/// traps.
#[derive(Drop)]
pub struct After {
    pub thread: u32,
    pub deeds: Vec<Deed>,
    pub traps: bool,
}

/// The number of what nodes share, and the place of what comes of a thread.
#[derive(Clone, Copy, PartialEq, Eq, Hash)]
pub struct Change {
    pub shared: u32,
    pub after: u32,
}

/// Where a step leads: the row, and whether a node traps in the step.
#[derive(Clone, Copy)]
pub struct Led {
    pub row: Row,
    pub traps: bool,
}

/// Rows, and what is known of the steps from them: what each thread does next (`nexts`), what came of a thread after
/// its next act (`afters`), and what that made of what the nodes share (`changes`).
#[derive(Drop)]
pub struct Table {
    pub rows: Rows,
    pub nexts: Vec<Next>,
    pub afters: IndexMap<Asked, After>,
    pub changes: IndexMap<Change, u32>,
}

impl Table {
    ghost use Rattle.std.specs.Prelude.{◌≡◌};
    ghost use Rattle.lrc_orders_table.specs.Rows.{row_count};
    ghost use Rattle.lrc_orders_table.specs.declared.known.Means.{Means as TheMeans};
    ghost use Rattle.lrc_orders_table.specs.Tables.{IsTable};

    /// Makes a table without rows, for this many nodes.
    pub fn new(alloc: Global, nodes: usize) -> Table
        ensures empty { row_count result.rows ≡ 0 }
        ensures nodes { result.rows.nodes ≡ nodes }
        ensures table { (means : TheMeans) → means.flat.nodes ≡ nodes → IsTable means result }
    {
        Table {
            rows: Rows::new(alloc, nodes),
            nexts: Vec::new(alloc),
            afters: IndexMap::new(alloc),
            changes: IndexMap::new(alloc),
        }
    }
}
