// The racing events that a report missed.
ghost use Rattle.std.specs.Prelude.{◌≡◌, ◌↔◌, ℕ, Contains, IfOk, IsTrue, List, length};
ghost use Rattle.lrc_races_text.specs.declared.asked.Sought.{Sought as AnySought};
ghost use Rattle.lrc_races_score.specs.declared.report.LinedClaim.{LinedClaim as AnyClaim};
ghost use Rattle.lrc_races_witness.specs.Relations.{AreByLine};
ghost use Rattle.lrc_races_claims.specs.Racing.{AreMarked};
ghost use Rattle.lrc_races_missed.specs.Keys.{AreKeys};
ghost use Rattle.lrc_races_missed.specs.Missed.{AreMissedEvents};
ghost use Rattle.lrc_races_missed.specs.declared.key.Key.TheVariants.{Event as EventKey};

use crate::key::{Key, is_among};
use indexmap::IndexSet;
use lrc_races_trace::event::Event;
use std::alloc::{AllocError, Global};

// Whether an access that races with an earlier one is missed, by its line.
fn is_missed(keys: &IndexSet<Key>, mark: bool, line: u64) -> bool
    ensures { IsTrue result ↔ (IsTrue mark × ¬ Contains keys.now.keys (EventKey line)) }
{
    mark && !is_among(keys, Key::Event(line))
}

/// Returns the lines of the accesses that race with earlier ones and that no claim `event` has, in order. There is a
/// mark for each event of the trace, and `keys` are those of the claims. It fails if memory runs out.
pub fn missed_events(
    alloc: Global,
    events: &[Event],
    marks: &[bool],
    keys: &IndexSet<Key>,
) -> Result<Vec<u64>, AllocError>
    requires { length marks.now ≡ length events.now }
    ensures { IfOk result (λ lines. (sought : AnySought) (claims : List AnyClaim)
        (variables places : List (List ℕ)) → AreByLine events.now
        → AreMarked sought events.now (length events.now) marks.now
        → AreKeys variables places claims keys.now.keys
        → AreMissedEvents sought events.now claims lines.items) }
{
    let mut lines = Vec::new(alloc);
    for (position, event) in events.iter().enumerate() {
        if !is_missed(keys, marks[position], event.line) {
            continue;
        }
        lines.push(event.line)?;
    }
    Ok(lines)
}
