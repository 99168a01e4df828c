// The numbers of intervals and barriers at a position in a run, by nodes.

ghost use Rattle.std.specs.Prelude.{◌≡◌, ◌≤◌, ◌<◌, ◌+◌, ℕ, List, if◌then◌else◌, length, slice_index, slice_set};
ghost use Rattle.lrc_trace.specs.Interval.{closes, interval_at};
ghost use Rattle.lrc_trace.specs.Run.{arrives_before, departs_before, is_arrive, is_depart};
ghost use Rattle.lrc_trace.specs.declared.act.Act.{Act as AnyAct};
ghost use Rattle.lrc_chart_build.specs.Counts.{AreCounts, AreCountsAt};

use lrc_trace::act::{Act, Deed};

/// At a position in a run, for each node: the interval that it is in, the barrier that it comes to next, and the barrier
/// that it leaves next. All are counted from 1.
#[derive(Drop)]
pub struct Counts {
    position: usize,
    intervals: [u64; 256],
    arrivals: [u64; 256],
    departures: [u64; 256],
}

/// Returns whether a deed ends an interval of its node.
pub(crate) fn closes_interval(deed: Deed) -> bool
    ensures { result ≡ closes deed }
{
    matches!(deed, Deed::Acquire(_) | Deed::Release(_) | Deed::Arrive)
}

fn is_arrive(deed: Deed) -> bool
    ensures { result ≡ is_arrive deed }
{
    matches!(deed, Deed::Arrive)
}

fn is_depart(deed: Deed) -> bool
    ensures { result ≡ is_depart deed }
{
    matches!(deed, Deed::Depart)
}

// Adds one to the number of a node, if its act counts.
fn add_if(numbers: &mut [u64; 256], node: u8, counts: bool)
    requires { slice_index numbers.old node < 18446744073709551615 }
    ensures is { numbers.new ≡ slice_set numbers.old node
        (slice_index numbers.old node + (if counts then 1 else 0)) }
    ensures in_range { node < 256 }
{
    let number = numbers[usize::from(node)];
    numbers[usize::from(node)] = if counts { number + 1 } else { number };
}

impl Counts {
    /// Returns the counts at the start of a run.
    pub fn new() -> Counts
        ensures position { result.position ≡ 0 }
        ensures counts { (acts : List AnyAct) → AreCounts acts 0 result }
    {
        Counts {
            position: 0,
            intervals: [1; 256],
            arrivals: [1; 256],
            departures: [1; 256],
        }
    }

    // Goes on behind an act.
    fn count(&mut self, acts: &[Act], position: usize)
        requires within { position < length acts.now }
        requires counts { AreCounts acts.now position self.old }
        ensures position { self.new.position ≡ self.old.position }
        ensures counts { AreCounts acts.now (position + 1) self.new }
    {
        let act = acts[position];
        add_if(&mut self.intervals, act.node, closes_interval(act.deed));
        add_if(&mut self.arrivals, act.node, is_arrive(act.deed));
        add_if(&mut self.departures, act.node, is_depart(act.deed));
    }

    // Goes back to the start of a run, if it is behind a position.
    fn go_back(&mut self, position: usize)
        ensures position { self.new.position ≤ position }
        ensures counts { (acts : List AnyAct) → AreCounts acts self.old.position self.old
            → AreCounts acts self.new.position self.new }
    {
        if position < self.position {
            *self = Counts::new();
        }
    }

    /// Goes to a position in a run: onward from where it is, or from the start if it is behind that position.
    pub fn go_to(&mut self, acts: &[Act], position: usize)
        requires { AreCounts acts.now self.old.position self.old }
        ensures counts { AreCounts acts.now position self.new }
        ensures here { AreCounts acts.now self.new.position self.new }
    {
        let end = position.min(acts.len());
        self.go_back(end);
        for place in self.position..end {
            self.count(acts, place);
        }
        self.position = end;
    }

    /// Goes to the act at a position, if there is one.
    pub fn go_to_act(&mut self, acts: &[Act], act: Option<usize>)
        requires { AreCounts acts.now self.old.position self.old }
        ensures counts { AreCountsAt acts.now act self.new }
        ensures here { AreCounts acts.now self.new.position self.new }
    {
        if let Some(position) = act {
            self.go_to(acts, position);
        }
    }

    /// Returns the interval that a node is in.
    pub fn interval(&self, node: u8) -> u64
        ensures { (acts : List AnyAct) (position : ℕ) → AreCounts acts position self.now
            → result ≡ interval_at acts node position }
    {
        self.intervals[usize::from(node)]
    }

    /// Returns the number of the barrier that a node comes to next.
    pub fn arrival(&self, node: u8) -> u64
        ensures { (acts : List AnyAct) (position : ℕ) → AreCounts acts position self.now
            → result ≡ 1 + arrives_before acts node position }
    {
        self.arrivals[usize::from(node)]
    }

    /// Returns the number of the barrier that a node leaves next.
    pub fn departure(&self, node: u8) -> u64
        ensures { (acts : List AnyAct) (position : ℕ) → AreCounts acts position self.now
            → result ≡ 1 + departs_before acts node position }
    {
        self.departures[usize::from(node)]
    }
}
