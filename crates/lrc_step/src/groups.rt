// Pairs by the groups of the run with reasons.

ghost use Rattle.std.specs.Prelude.{◌≡◌, IfOk, filter};
ghost use Rattle.lrc_step.specs.RaceLines.{is_alone, is_beside};

use lrc_explain::site_of;
use lrc_judge::pairs::Pair;
use lrc_trace::act::Act;
use std::alloc::{AllocError, Global};

// Whether a pair is of the lines and kinds of another.
fn is_beside(acts: &[Act], lines: &[u32], one: Pair, pair: Pair) -> bool
    ensures { result ≡ is_beside acts.now lines.now one pair }
{
    site_of(acts, lines, pair) == site_of(acts, lines, one)
}

/// Returns the pairs that belong to the group of a first pair.
pub(crate) fn of_group(
    alloc: Global,
    acts: &[Act],
    lines: &[u32],
    leader: Pair,
    pairs: &[Pair],
) -> Result<Vec<Pair>, AllocError>
    ensures { IfOk result (λ found. found.items
        ≡ filter (is_beside acts.now lines.now leader) pairs.now) }
{
    let mut found = Vec::new(alloc);
    for pair in pairs {
        if is_beside(acts, lines, leader, *pair) {
            found.push(*pair)?;
        }
    }
    Ok(found)
}

// Whether a pair is of no group.
fn is_alone(acts: &[Act], lines: &[u32], leaders: &[Pair], pair: Pair) -> bool
    ensures { result ≡ is_alone acts.now lines.now leaders.now pair }
{
    for leader in leaders {
        if is_beside(acts, lines, *leader, pair) {
            return false;
        }
    }
    true
}

/// Returns the pairs that belong to no group.
pub(crate) fn alone(
    alloc: Global,
    acts: &[Act],
    lines: &[u32],
    leaders: &[Pair],
    pairs: &[Pair],
) -> Result<Vec<Pair>, AllocError>
    ensures { IfOk result (λ found. found.items
        ≡ filter (is_alone acts.now lines.now leaders.now) pairs.now) }
{
    let mut found = Vec::new(alloc);
    for pair in pairs {
        if is_alone(acts, lines, leaders, *pair) {
            found.push(*pair)?;
        }
    }
    Ok(found)
}
