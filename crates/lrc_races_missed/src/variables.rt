// The racing variables that a report missed.
ghost use Rattle.std.specs.Prelude.{◌≡◌, ◌↔◌, ℕ, IfOk, List, Some};
ghost use Rattle.lrc_races_trace.specs.declared.event.Event.{Event as AnyEvent};
ghost use Rattle.lrc_races_text.specs.declared.asked.Sought.{Sought as AnySought};
ghost use Rattle.lrc_races_text.specs.Naming.{Naming};
ghost use Rattle.lrc_races_score.specs.declared.report.LinedClaim.{LinedClaim as AnyClaim};
ghost use Rattle.lrc_races_witness.specs.Relations.{AreByLine};
ghost use Rattle.lrc_races_claims.specs.Firsts.{line_of};
ghost use Rattle.lrc_races_claims.specs.Judging.{AreFacts};
ghost use Rattle.lrc_races_missed.specs.Keys.{AreKeys};
ghost use Rattle.lrc_races_missed.specs.Missed.{AreAllRacing, AreMissedFirsts, AreMissedVariables, AreNumbered};
ghost use Rattle.lrc_races_missed.specs.Racings.{GivesRacing};
ghost use Rattle.lrc_races_missed.specs.declared.variables.Racing.{Racing as AnyRacing};

use crate::key::{Key, is_among};
use indexmap::IndexSet;
use lrc_races_claims::judging::Facts;
use lrc_races_trace::event::{Event, Operation};
use std::alloc::{AllocError, Global};

/// A variable that races, and the line of its first access that races with an earlier one.
#[derive(Clone, Copy, PartialEq, Eq)]
pub struct Racing {
    /// The number of the variable.
    pub variable: u32,
    /// The line.
    pub line: u64,
}

// The variable, if this is the line of its first access that races with an earlier one.
fn racing_on(facts: &Facts, variable: u32, line: u64) -> Option<Racing>
    ensures { (other : AnyRacing) → ((other.variable ≡ variable) × (other.line ≡ line)
        × (line_of facts.now.firsts.marked variable ≡ Some line)) ↔ (result ≡ Some other) }
{
    match facts.firsts.marked.line(variable as usize) {
        Some(first) => {
            if first == line {
                return Some(Racing { variable, line });
            }
            None
        }
        None => None,
    }
}

// The variable whose first access that races with an earlier one is this event.
fn racing_at(facts: &Facts, event: Event) -> Option<Racing>
    ensures { (racing : AnyRacing) → GivesRacing facts.now event racing ↔ (result ≡ Some racing) }
{
    match event.operation {
        Operation::Read(variable) | Operation::Write(variable) => {
            racing_on(facts, variable, event.line)
        }
        _ => None,
    }
}

/// Returns the variables that race, in the order of the first accesses that do. It fails if memory runs out.
pub fn racing_of(alloc: Global, events: &[Event], facts: &Facts) -> Result<Vec<Racing>, AllocError>
    ensures { IfOk result (λ all. (sought : AnySought) → AreByLine events.now
        → AreFacts sought events.now facts.now → AreAllRacing sought events.now all.items) }
{
    let mut all = Vec::new(alloc);
    for event in events {
        match racing_at(facts, *event) {
            Some(racing) => all.push(racing)?,
            None => continue,
        }
    }
    Ok(all)
}

/// Returns those variables that no claim `variable` has, in order. `keys` are those of the claims. It fails if memory
/// runs out.
pub fn missed_variables(
    alloc: Global,
    all: &[Racing],
    keys: &IndexSet<Key>,
) -> Result<Vec<Racing>, AllocError>
    ensures { IfOk result (λ missed. (sought : AnySought) (naming : Naming)
        (events : List AnyEvent) (claims : List AnyClaim) (places : List (List ℕ))
        → AreAllRacing sought events all.now → AreNumbered naming events
        → AreKeys naming.variables places claims keys.now.keys
        → AreMissedVariables sought naming events claims missed.items) }
{
    let mut missed = Vec::new(alloc);
    for racing in all {
        if is_among(keys, Key::Variable(racing.variable as usize)) {
            continue;
        }
        missed.push(*racing)?;
    }
    Ok(missed)
}

/// Returns those variables of whose first access that races with an earlier one no claim `first` is, in order. `keys`
/// are those of the claims. It fails if memory runs out.
pub fn missed_firsts(
    alloc: Global,
    all: &[Racing],
    keys: &IndexSet<Key>,
) -> Result<Vec<Racing>, AllocError>
    ensures { IfOk result (λ missed. (sought : AnySought) (naming : Naming)
        (events : List AnyEvent) (claims : List AnyClaim) (places : List (List ℕ))
        → AreAllRacing sought events all.now → AreNumbered naming events
        → AreKeys naming.variables places claims keys.now.keys
        → AreMissedFirsts sought naming events claims missed.items) }
{
    let mut missed = Vec::new(alloc);
    for racing in all {
        if is_among(keys, Key::First(racing.variable as usize, racing.line)) {
            continue;
        }
        missed.push(*racing)?;
    }
    Ok(missed)
}
