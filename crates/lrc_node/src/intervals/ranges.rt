// Whether news are in range, and lead from one time to another.

ghost use Rattle.std.specs.Prelude.{◌≡◌, ◌==◌, ◌<◌, All, length, nat_lt};
ghost use Rattle.std.specs.List.{list_all};
ghost use Rattle.lrc_time.specs.Time.{covers};
ghost use Rattle.lrc_node.specs.Ranges.{fits, is_in_range, leads};

use super::news::lead;
use lrc_store::Interval;
use lrc_time::Time;

/// Returns whether a time knows everything that another time of as many nodes knows.
pub(crate) fn covers(time: &Time, other: &Time) -> bool
    requires { length time.now ≡ length other.now }
    ensures { result ≡ covers time.now other.now }
{
    time.covers(other)
}

// Whether an interval is one of so many nodes, with a stamp of as many entries, and names only pages below so many.
fn is_in_range(nodes: u8, pages: u16, interval: &Interval) -> bool
    ensures { result ≡ is_in_range nodes pages interval.now }
{
    interval.node < nodes
        && interval.stamp.nodes() == nodes
        && are_below(pages, interval.pages.as_slice())
}

// Whether all pages are below so many.
fn are_below(pages: u16, named: &[u16]) -> bool
    ensures { result ≡ list_all (λ page. nat_lt page pages) named.now }
{
    named.iter().all(|page| *page < pages)
}

// Whether all intervals are in range.
fn are_in_range(nodes: u8, pages: u16, intervals: &[Interval]) -> bool
    ensures { result ≡ list_all (is_in_range nodes pages) intervals.now }
{
    intervals
        .iter()
        .all(|interval| is_in_range(nodes, pages, interval))
}

// Whether the time covers the stamp of each interval.
fn all_covered(time: &Time, intervals: &[Interval]) -> bool
    requires { All (λ interval. length interval.stamp ≡ length time.now) intervals.now }
    ensures { result ≡ list_all (λ interval. covers time.now interval.stamp) intervals.now }
{
    for interval in intervals {
        if !covers(time, &interval.stamp) {
            return false;
        }
    }
    true
}

/// Returns whether the time and the intervals are in range, and the time covers each stamp.
pub(crate) fn fits(nodes: u8, pages: u16, time: &Time, intervals: &[Interval]) -> bool
    ensures { result ≡ fits nodes pages time.now intervals.now }
{
    time.nodes() == nodes && are_in_range(nodes, pages, intervals) && all_covered(time, intervals)
}

/// Returns whether the intervals, which are in range, lead from the known time to the other one. The other time must
/// know no more of this node than the known time does.
pub(crate) fn leads(me: u8, known: &Time, time: &Time, intervals: &[Interval]) -> bool
    requires here { me < length known.now }
    requires counted { length time.now ≡ length known.now }
    requires nodes { All (λ interval. interval.node < length known.now) intervals.now }
    ensures { result ≡ leads me known.now time.now intervals.now }
{
    lead(known, time, intervals) && time.at(me) <= known.at(me)
}

/// Returns whether all intervals are of this node.
pub(crate) fn are_of(node: u8, intervals: &[Interval]) -> bool
    ensures { result ≡ list_all (λ interval. interval.node == node) intervals.now }
{
    intervals.iter().all(|interval| interval.node == node)
}
