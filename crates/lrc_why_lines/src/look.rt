// What is shown of a position.

ghost use Rattle.std.specs.Prelude.{◌≡◌};
ghost use Rattle.lrc_why_lines.specs.Places.{act_shown, interval_shown, line_shown};

use crate::shown::Shown;
use lrc_trace::act::{Act, Deed};

/// Returns the act at a position, or an act of node 0 that does nothing if the position is past the last act.
pub fn act_at(shown: Shown<'_, '_>, position: usize) -> Act
    ensures { result ≡ act_shown shown.entry position }
{
    if position < shown.acts.len() {
        shown.acts[position]
    } else {
        Act {
            node: 0,
            deed: Deed::Quiet,
        }
    }
}

/// Returns the source line of the act at a position, or 0 if the position is past the last act.
pub(crate) fn line_at(shown: Shown<'_, '_>, position: usize) -> u64
    ensures { result ≡ line_shown shown.entry position }
{
    if position < shown.lines.len() {
        u64::from(shown.lines[position])
    } else {
        0
    }
}

/// Returns the interval of the act at a position, or 0 if the position is past the last act.
pub fn interval_at(shown: Shown<'_, '_>, position: usize) -> u64
    ensures { result ≡ interval_shown shown.entry position }
{
    if position < shown.intervals.len() {
        shown.intervals[position]
    } else {
        0
    }
}

/// Returns the node of the act at a position, or 0 if the position is past the last act.
pub fn node_at(shown: Shown<'_, '_>, position: usize) -> u64
    ensures { result ≡ (act_shown shown.entry position).node }
{
    u64::from(act_at(shown, position).node)
}
