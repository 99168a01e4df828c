// The races of traces.

ghost use Rattle.std.specs.Prelude.{◌≡◌, ℕ, ◌<◌, ◌≤◌, ◌↔◌, IfOk, IsTrue, MatchOption, OnOk, Some, length, slice_get};
ghost use Rattle.lrc_time.specs.Time.{Knows};
ghost use Rattle.lrc_judge.specs.Adding.{Adds};
ghost use Rattle.lrc_trace.specs.declared.race.Race.{Race};
ghost use Rattle.lrc_race.specs.declared.places.TouchedPlace.{TouchedPlace};
ghost use Rattle.lrc_race.specs.Races.{AreRacesOf, AreTracesOf, race_named};
ghost use Rattle.lrc_race.specs.Pairs.{IsLane, AreLanes, IsBehind, IsRaceOfPlaces, IsRaceFrom, IsRaceOfLists, IsRaceOfLanes, IsRaceOfTraces};
ghost use Rattle.lrc_race.specs.Comparable.{AreComparable, AreListed, IsSurvey, IsWithin};

use crate::places::{TouchedPlace, places_of, without};
use crate::rising::all_rise;
use crate::spans::places_near;
use lrc_trace::race::Race;
use lrc_trace::trace::{Segment, Trace};
use std::alloc::{AllocError, Global};

/// The words that a trace writes, and those that it reads but does not write, in order.
#[derive(Drop)]
struct Lane {
    writes: Vec<TouchedPlace>,
    reads: Vec<TouchedPlace>,
}

/// Two traces that are compared. Where `rise` is set, the times of each rise.
#[derive(Clone, Copy)]
struct TracePair<'t> {
    a: &'t Trace,
    b: &'t Trace,
    rise: bool,
}

/// Traces, and the words of each. Where `rise` is set, the times of each rise.
#[derive(Clone, Copy)]
struct Survey<'t> {
    traces: &'t [Trace],
    lanes: &'t [Lane],
    rise: bool,
}

// The words of a trace.
fn lane_of(alloc: Global, trace: &Trace) -> Result<Lane, AllocError>
    ensures { IfOk result (λ lane. IsLane trace.now lane) }
{
    let writes = places_of(alloc, trace, true)?;
    let read = places_of(alloc, trace, false)?;
    let reads = without(alloc, &read, &writes)?;
    Ok(Lane { writes, reads })
}

// The words of each trace.
fn lanes_of(alloc: Global, traces: &[Trace]) -> Result<Vec<Lane>, AllocError>
    ensures { IfOk result (λ lanes. AreLanes traces.now lanes.items) }
{
    let mut lanes = Vec::new(alloc);
    for trace in traces {
        let lane = lane_of(alloc, trace)?;
        lanes.push(lane)?;
    }
    Ok(lanes)
}

/// Returns whether the segment's time knows the interval of another segment, which is of this node.
pub fn knows(segment: &Segment, node: u8, other: &Segment) -> bool
    requires { node < length segment.now.time }
    ensures { IsTrue result ↔ Knows segment.now.time node other.now.interval }
{
    other.interval <= segment.time.at(node)
}

impl TracePair<'_> {
    // The race of two segments on a word, as a report names it.
    fn named(&self, word: u32, s: &Segment, t: &Segment) -> Race
        ensures { result ≡ race_named word self.now.a.now s.now self.now.b.now t.now }
    {
        if self.a.node() < self.b.node() {
            return Race {
                word,
                node_a: self.a.node(),
                node_b: self.b.node(),
                interval_a: u64::from(s.interval),
                interval_b: u64::from(t.interval),
            };
        }
        Race {
            word,
            node_a: self.b.node(),
            node_b: self.a.node(),
            interval_a: u64::from(t.interval),
            interval_b: u64::from(s.interval),
        }
    }

    // Whether the second trace's place comes before the first's, by words, and where times rise by what is known.
    fn is_behind(&self, x: TouchedPlace, y: TouchedPlace) -> bool
        requires pair { AreComparable self.now }
        requires first { IsWithin self.now.a.now x }
        requires second { IsWithin self.now.b.now y }
        ensures { IsTrue result → IsBehind self.now.rise self.now.a.now x self.now.b.now y }
    {
        if y.word != x.word || !self.rise {
            return y.word < x.word;
        }
        knows(
            &self.a.segments()[x.segment],
            self.b.node(),
            &self.b.segments()[y.segment],
        )
    }

    // Whether the first trace's place comes before the second's, likewise.
    fn is_ahead(&self, x: TouchedPlace, y: TouchedPlace) -> bool
        requires pair { AreComparable self.now }
        requires first { IsWithin self.now.a.now x }
        requires second { IsWithin self.now.b.now y }
        ensures { IsTrue result → IsBehind self.now.rise self.now.b.now y self.now.a.now x }
    {
        if x.word != y.word || !self.rise {
            return x.word < y.word;
        }
        knows(
            &self.b.segments()[y.segment],
            self.a.node(),
            &self.a.segments()[x.segment],
        )
    }

    // The first of the second trace's places from this one on that is not behind.
    fn skip(&self, x: TouchedPlace, ys: &[TouchedPlace], from: usize) -> usize
        requires pair { AreComparable self.now }
        requires first { IsWithin self.now.a.now x }
        requires second { AreListed self.now.b.now ys.now }
        requires within { from ≤ length ys.now }
        ensures within { result ≤ length ys.now }
        ensures behind { (k : ℕ) (y : TouchedPlace) → from ≤ k → k < result
            → slice_get ys.now k ≡ Some y
            → IsBehind self.now.rise self.now.a.now x self.now.b.now y }
    {
        let mut start = from;
        while start < ys.len() && self.is_behind(x, ys[start]) {
            start += 1;
        }
        start
    }

    // The race of two places.
    fn race_of(&self, x: TouchedPlace, y: TouchedPlace) -> Option<Race>
        requires pair { AreComparable self.now }
        requires first { IsWithin self.now.a.now x }
        requires second { IsWithin self.now.b.now y }
        ensures { MatchOption result
            ((race : Race) → ¬ IsRaceOfPlaces self.now.a.now x self.now.b.now y race)
            (IsRaceOfPlaces self.now.a.now x self.now.b.now y) }
    {
        let s = &self.a.segments()[x.segment];
        let t = &self.b.segments()[y.segment];
        if x.word != y.word || knows(s, self.b.node(), t) || knows(t, self.a.node(), s) {
            return None;
        }
        Some(self.named(x.word, s, t))
    }

    // Adds the races of a place with the second trace's from one on, as far as they are not ahead.
    fn add_stretch(
        &self,
        races: &mut Vec<Race>,
        x: TouchedPlace,
        ys: &[TouchedPlace],
        from: usize,
    ) -> Result<(), AllocError>
        requires pair { AreComparable self.now }
        requires first { IsWithin self.now.a.now x }
        requires second { AreListed self.now.b.now ys.now }
        ensures { OnOk result (Adds races.old.items races.new.items
            (IsRaceFrom self.now.a.now x self.now.b.now ys.now from)) }
    {
        for k in from..ys.len() {
            if self.is_ahead(x, ys[k]) {
                return Ok(());
            }
            if let Some(race) = self.race_of(x, ys[k]) {
                races.push(race)?;
            }
        }
        Ok(())
    }

    // Adds the races of places of the one trace with places of the other, in one walk along both. Where times rise along
    // both, the places that are not ordered with one are a stretch of the other's, which moves on with it.
    fn add_races_along(
        &self,
        races: &mut Vec<Race>,
        xs: &[TouchedPlace],
        ys: &[TouchedPlace],
    ) -> Result<(), AllocError>
        requires pair { AreComparable self.now }
        requires first { AreListed self.now.a.now xs.now }
        requires second { AreListed self.now.b.now ys.now }
        ensures { OnOk result (Adds races.old.items races.new.items
            (IsRaceOfLists self.now.a.now xs.now self.now.b.now ys.now)) }
    {
        let mut start = 0;
        for x in xs {
            start = self.skip(*x, ys, start);
            self.add_stretch(races, *x, ys, start)?;
        }
        Ok(())
    }

    // Adds the races of places of the one trace with places of the other. What the one has of words before or after all
    // of the other is left out first.
    fn add_races(
        &self,
        races: &mut Vec<Race>,
        xs: &[TouchedPlace],
        ys: &[TouchedPlace],
    ) -> Result<(), AllocError>
        requires pair { AreComparable self.now }
        requires first { AreListed self.now.a.now xs.now }
        requires second { AreListed self.now.b.now ys.now }
        ensures { OnOk result (Adds races.old.items races.new.items
            (IsRaceOfLists self.now.a.now xs.now self.now.b.now ys.now)) }
    {
        let near = places_near(xs, ys);
        let others = places_near(ys, near);
        self.add_races_along(races, near, others)
    }

    // Adds the races of the traces: of what both write, and of what the one writes and the other reads alone.
    fn add_lanes(
        &self,
        races: &mut Vec<Race>,
        first: &Lane,
        second: &Lane,
    ) -> Result<(), AllocError>
        requires pair { AreComparable self.now }
        requires first { IsLane self.now.a.now first.now }
        requires second { IsLane self.now.b.now second.now }
        ensures { OnOk result (Adds races.old.items races.new.items
            (IsRaceOfLanes self.now.a.now first.now self.now.b.now second.now)) }
    {
        self.add_races(races, &first.writes, &second.writes)?;
        self.add_races(races, &first.reads, &second.writes)?;
        self.add_races(races, &first.writes, &second.reads)?;
        Ok(())
    }
}

impl Survey<'_> {
    // Adds the races of one trace with the later ones.
    fn add_races_with(&self, races: &mut Vec<Race>, i: usize) -> Result<(), AllocError>
        requires survey { IsSurvey self.now }
        requires within { i < length self.now.traces.now }
        ensures { OnOk result (Adds races.old.items races.new.items
            (λ race. (j : ℕ) × (j < length self.now.traces.now)
            × IsRaceOfTraces self.now.traces.now i j race)) }
    {
        let a = &self.traces[i];
        for j in i + 1..self.traces.len() {
            let b = &self.traces[j];
            if a.node() != b.node() {
                let pair = TracePair {
                    a,
                    b,
                    rise: self.rise,
                };
                pair.add_lanes(races, &self.lanes[i], &self.lanes[j])?;
            }
        }
        Ok(())
    }
}

/// Returns the races of traces, sorted by word, nodes and intervals, each once. A race is a word and two intervals of
/// different nodes: one wrote the word, the other read or wrote it, and neither time knows the other's interval. It
/// fails only if memory runs out.
///
/// If the times of each trace rise, as in every run, the cost is little more than listing the accesses and the races.
/// Each race is then found once, those of two traces mostly in order, and the sort merges what is in order.
pub fn races(alloc: Global, traces: &[Trace]) -> Result<Vec<Race>, AllocError>
    requires { (nodes : ℕ) × AreTracesOf nodes traces.now }
    ensures { IfOk result (λ races. AreRacesOf traces.now races.items) }
{
    let rise = all_rise(traces);
    let lanes = lanes_of(alloc, traces)?;
    let survey = Survey {
        traces,
        lanes: &lanes,
        rise,
    };
    let mut races = Vec::new(alloc);
    for i in 0..traces.len() {
        survey.add_races_with(&mut races, i)?;
    }
    races.sort()?;
    races.dedup();
    Ok(races)
}
