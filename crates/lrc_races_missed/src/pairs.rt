// The racing pairs that a report missed.
ghost use Rattle.std.specs.Prelude.{◌≡◌, ◌↔◌, ℕ, AllPairs, IfOk, IsTrue, List, OnOk, map};
ghost use Rattle.lrc_races_trace.specs.declared.event.Pair.{Pair as AnyPair};
ghost use Rattle.lrc_races_trace.specs.Races.{ComesFirst};
ghost use Rattle.lrc_races_text.specs.declared.asked.Sought.{Sought as AnySought};
ghost use Rattle.lrc_races_score.specs.declared.report.LinedClaim.{LinedClaim as AnyClaim};
ghost use Rattle.lrc_races_missed.specs.Keyless.{AreLinesAdded, IsKeyless};
ghost use Rattle.lrc_races_missed.specs.Keys.{AreKeys};
ghost use Rattle.lrc_races_missed.specs.Missed.{AreMissedPairs, lines_of};

use crate::key::{Key, is_among};
use indexmap::IndexSet;
use lrc_races_text::asked::Sought;
use lrc_races_text::race_detector::RaceDetector;
use lrc_races_trace::event::{Event, Pair};
use std::alloc::{AllocError, Global};

/// The lines of two accesses, the earlier one first.
#[derive(Clone, Copy, PartialEq, Eq)]
pub struct TwoLines {
    /// That of the earlier access.
    pub earlier: u64,
    /// That of the later access.
    pub later: u64,
}

// Whether no claim has the pair, in either order.
fn is_unclaimed(keys: &IndexSet<Key>, pair: TwoLines) -> bool
    ensures { IsTrue result ↔ IsKeyless keys.now.keys pair }
{
    if is_among(keys, Key::Pair(pair.earlier, pair.later)) {
        return false;
    }
    !is_among(keys, Key::Pair(pair.later, pair.earlier))
}

// Adds those pairs that no claim has.
fn note_told(
    lines: &mut Vec<TwoLines>,
    keys: &IndexSet<Key>,
    told: &[Pair],
) -> Result<(), AllocError>
    ensures { OnOk result (AllPairs ComesFirst told.now
        → AreLinesAdded keys.now.keys told.now lines.old.items lines.new.items) }
{
    for pair in told {
        let both = TwoLines {
            earlier: pair.earlier.event.line,
            later: pair.later.event.line,
        };
        if !is_unclaimed(keys, both) {
            continue;
        }
        lines.push(both)?;
    }
    Ok(())
}

/// Returns the lines of the pairs that are reported of the races of a trace and that no claim `pair` has, in either
/// order, in the order in which they are reported. `keys` are those of the claims. It fails if memory runs out.
pub fn missed_pairs(
    alloc: Global,
    sought: Sought,
    events: &[Event],
    keys: &IndexSet<Key>,
) -> Result<Vec<TwoLines>, AllocError>
    ensures { IfOk result (λ lines. (claims : List AnyClaim) (variables places : List (List ℕ))
        → AreKeys variables places claims keys.now.keys
        → (pairs : List AnyPair) × AreMissedPairs sought events.now claims pairs
        × (lines.items ≡ map lines_of pairs)) }
{
    let mut detector = RaceDetector::new(alloc, sought);
    let mut told = Vec::new(alloc);
    let mut lines = Vec::new(alloc);
    for event in events {
        detector.take(*event, &mut told)?;
        note_told(&mut lines, keys, told.as_slice())?;
    }
    Ok(lines)
}
