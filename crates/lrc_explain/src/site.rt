// Where the two acts of a racing pair stand.

ghost use Rattle.std.specs.Prelude.{◌≡◌, slice_index};
ghost use Rattle.lrc_acts_text.specs.Acts.{act_at};
ghost use Rattle.lrc_explain.specs.Site.{deed_writes, site_of};

use lrc_judge::first_pairs::Pair;
use lrc_trace::act::{Act, Deed};

/// The lines of two acts, the earlier act first, and whether each writes.
#[derive(Clone, Copy, PartialEq, Eq, PartialOrd, Ord)]
pub struct Site {
    pub line: u32,
    pub writes: bool,
    pub later_line: u32,
    pub later_writes: bool,
}

/// Returns the act at a position, or an act of node 0 that does nothing if the position is past the last act.
pub fn act_at(acts: &[Act], position: usize) -> Act
    ensures { result ≡ act_at acts.now position }
{
    if position < acts.len() {
        acts[position]
    } else {
        Act {
            node: 0,
            deed: Deed::Quiet,
        }
    }
}

fn line_at(lines: &[u32], position: usize) -> u32
    ensures { result ≡ slice_index lines.now position }
{
    if position < lines.len() {
        lines[position]
    } else {
        0
    }
}

fn deed_writes(deed: Deed) -> bool
    ensures { result ≡ deed_writes deed }
{
    matches!(deed, Deed::Write(_, _))
}

/// Returns the site of the acts at two positions.
pub fn site_of(acts: &[Act], lines: &[u32], pair: Pair) -> Site
    ensures { result ≡ site_of acts.now lines.now pair }
{
    Site {
        line: line_at(lines, pair.earlier),
        writes: deed_writes(act_at(acts, pair.earlier).deed),
        later_line: line_at(lines, pair.later),
        later_writes: deed_writes(act_at(acts, pair.later).deed),
    }
}
