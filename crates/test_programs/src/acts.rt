// Acts and races of runs, written as a table has them.

use lrc_trace::act::{Act, Deed};
use lrc_trace::race::Race;
use std::alloc::{AllocError, Global};

/// A race: its word, its nodes, and their intervals.
pub type Named = (u32, [u8; 2], [u64; 2]);

/// Adds the acts of these nodes.
pub fn push_each(acts: &mut Vec<Act>, deeds: &[(u8, Deed)]) -> Result<(), AllocError> {
    for (node, deed) in deeds {
        let act = Act {
            node: *node,
            deed: *deed,
        };
        acts.push(act)?;
    }
    Ok(())
}

/// The run in which these nodes do this, one after another.
pub fn run_of(alloc: Global, deeds: &[(u8, Deed)]) -> Result<Vec<Act>, AllocError> {
    let mut acts = Vec::new(alloc);
    push_each(&mut acts, deeds)?;
    Ok(acts)
}

fn race_of(named: Named) -> Race {
    let (word, nodes, intervals) = named;
    Race {
        word,
        node_a: nodes[0],
        node_b: nodes[1],
        interval_a: intervals[0],
        interval_b: intervals[1],
    }
}

/// Whether there are so many races, and these are the first of them.
pub fn are_races(races: &[Race], count: usize, first: &[Named]) -> bool {
    for (race, named) in races.iter().zip(first) {
        if *race != race_of(*named) {
            return false;
        }
    }
    races.len() == count
}
