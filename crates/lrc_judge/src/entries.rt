// The accesses of a run, in order by lanes.
ghost use Rattle.std.specs.Prelude.{◌≡◌, IfOk};
ghost use Rattle.lrc_judge.specs.Lanes.{AreEntries, IsEntry, lane_of};

use crate::lanes::{Entry, Lane};
use lrc_trace::act::{Act, Deed};
use std::alloc::{AllocError, Global};

/// Which accesses are listed, and how they are divided into lanes.
#[derive(Clone, Copy, PartialEq, Eq)]
pub enum Told {
    /// Reads and writes, by word and node.
    EachAccess,
    /// Writes, by word and node.
    EachWrite,
    /// Writes, by word, value and node.
    EachValue,
}

// The lane of the act, if it is listed.
fn lane_of(told: Told, act: Act) -> Option<Lane>
    ensures { result ≡ lane_of told act.node act.deed }
{
    let node = act.node;
    match act.deed {
        Deed::Read(word, _) => match told {
            Told::EachAccess => Some(Lane {
                word,
                value: 0,
                node,
            }),
            _ => None,
        },
        Deed::Write(word, written) => {
            let value = match told {
                Told::EachValue => written,
                _ => 0,
            };
            Some(Lane { word, value, node })
        }
        _ => None,
    }
}

/// Returns the accesses of a run that `told` selects, sorted by lane, then by position. It fails only if memory runs
/// out.
pub fn entries_of(alloc: Global, acts: &[Act], told: Told) -> Result<Vec<Entry>, AllocError>
    ensures { IfOk result (λ entries. AreEntries (IsEntry acts.now told) entries.items) }
{
    let mut entries = Vec::new(alloc);
    for position in 0..acts.len() {
        if let Some(lane) = lane_of(told, acts[position]) {
            entries.push(Entry { lane, position })?;
        }
    }
    entries.sort_unstable();
    entries.dedup();
    Ok(entries)
}
