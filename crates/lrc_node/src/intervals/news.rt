// News: intervals that come with a time.

ghost use Rattle.std.specs.Prelude.{◌≡◌, ◌<◌, All, IfNone, IfSome, length};
ghost use Rattle.std.specs.List.{list_all, range_with_len};
ghost use Rattle.lrc_time.specs.Time.{entry};
ghost use Rattle.lrc_protocol.specs.Times.{are_between};
ghost use Rattle.lrc_node.specs.News.{AreUnbroken, IsBroken};

use lrc_store::Interval;
use lrc_time::Time;

// How far intervals lead from a time on, where those of each node follow one another from just above its entry. None
// where they don't.
fn reached(known: &Time, intervals: &[Interval]) -> Option<Time>
    requires { All (λ interval. interval.node < length known.now) intervals.now }
    ensures reached { IfSome result (AreUnbroken known.now intervals.now) }
    ensures broken { IfNone result (IsBroken known.now intervals.now) }
{
    let mut reached = known.copy();
    for interval in intervals {
        let index = interval.index();
        if reached.at(interval.node) != index - 1 {
            return None;
        }
        reached.raise(interval.node, index);
    }
    Some(reached)
}

/// Returns whether, for each node, the intervals are exactly those above the first time's entry and up to the second's.
pub(crate) fn lead(known: &Time, time: &Time, intervals: &[Interval]) -> bool
    requires counted { length time.now ≡ length known.now }
    requires nodes { All (λ interval. interval.node < length known.now) intervals.now }
    ensures { result ≡ list_all (λ q. are_between intervals.now q (entry known.now q)
        (entry time.now q)) (range_with_len 0 (length known.now)) }
{
    let Some(reached) = reached(known, intervals) else {
        return false;
    };
    let mut all = known.copy();
    all.join(time);
    reached == all
}

/// Returns whether the intervals of a node are exactly those above index `above` and up to index `upto`.
pub(crate) fn are_between(intervals: &[Interval], node: u8, above: u32, upto: u32) -> bool
    ensures { result ≡ are_between intervals.now node above upto }
{
    let mut last = above;
    for interval in intervals {
        if interval.node == node {
            if last != interval.index() - 1 {
                return false;
            }
            last += 1;
        }
    }
    last == above.max(upto)
}
