// The order in which claims are judged.

use lrc_races_score::claim::Claim;
use lrc_races_score::report::LinedClaim;
use std::alloc::{AllocError, Global};

/// The turn of a claim.
#[derive(Clone, Copy)]
pub struct Turn {
    /// The greatest line that it names, or 0.
    pub line: u64,
    /// Its place in the report.
    pub place: usize,
}

// The greatest line that a claim names, or 0.
fn last_named(claim: Claim<'_>) -> u64 {
    match claim {
        Claim::Event(line) => line,
        Claim::Pair(line, other) => line.max(other),
        Claim::Locations(_, _) => 0,
        Claim::Variable(_) => 0,
        Claim::First(_, line) => line,
    }
}

/// Returns the turns of the claims of a report, in the order of the lines that they name, so that one pass over the
/// trace answers them. Any other order gives the same answers, in more time. It fails if memory runs out.
pub fn turns_of(alloc: Global, claims: &[LinedClaim<'_>]) -> Result<Vec<Turn>, AllocError> {
    let mut turns = Vec::new(alloc);
    for (place, lined) in claims.iter().enumerate() {
        let line = last_named(lined.claim);
        turns.push(Turn { line, place })?;
    }
    turns.sort_unstable_by_key(|turn| turn.line);
    Ok(turns)
}
