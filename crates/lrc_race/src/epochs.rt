// Epochs: how often a node has gone on from a barrier.

ghost use Rattle.std.specs.Prelude.{◌≡◌, ◌≢◌, ℕ, ◌<◌, ◌≤◌, ◌↔◌, Contains, IsTrue, length};
ghost use Rattle.lrc_trace.specs.declared.trace.Segment.{Segment};
ghost use Rattle.lrc_trace.specs.Trace.{TraceRecord};
ghost use Rattle.lrc_race.specs.Races.{AreTracesOf, RisesAlong};
ghost use Rattle.lrc_race.specs.Epochs.{AgreesBetween, AgreesFrom, EpochsAgree, EpochsRise, KnowsBelow};

use crate::detector::knows;
use crate::rising::times_rise;
use lrc_trace::trace::{Segment, Trace};

// Whether no epoch of the trace is lower than the one before.
fn epochs_rise(trace: &Trace) -> bool
    ensures { IsTrue result ↔ EpochsRise trace.now }
{
    let segments = trace.segments();
    for at in 1..segments.len() {
        if segments[at].epoch < segments[at - 1].epoch {
            return false;
        }
    }
    true
}

// The first of the trace's segments from this one on that a segment of another does not know.
fn skip_known(a: &Trace, t: &Segment, from: usize) -> usize
    requires entry { a.now.node < length t.now.time }
    requires within { from ≤ length a.now.segments }
    requires known { KnowsBelow a.now t.now from }
    ensures within { result ≤ length a.now.segments }
    ensures known { KnowsBelow a.now t.now result }
{
    let segments = a.segments();
    let mut start = from;
    while start < segments.len() && knows(t, a.node(), &segments[start]) {
        start += 1;
    }
    start
}

// Whether a segment knows those of earlier epochs among the segments of another trace from one on.
fn agrees_from(rise: bool, a: &Trace, t: &Segment, from: usize) -> bool
    requires entry { a.now.node < length t.now.time }
    requires rising { IsTrue rise → EpochsRise a.now }
    ensures { IsTrue result ↔ AgreesFrom a.now t.now from }
{
    let segments = a.segments();
    for k in from..segments.len() {
        let s = &segments[k];
        if rise && t.epoch <= s.epoch {
            return true;
        }
        if s.epoch < t.epoch && !knows(t, a.node(), s) {
            return false;
        }
    }
    true
}

// Whether the epochs of the first trace rise, and the times of the second.
fn rise_along(a: &Trace, b: &Trace) -> bool
    requires { (nodes : ℕ) × ((t : Segment) → Contains b.now.segments t → length t.time ≡ nodes) }
    ensures { IsTrue result → EpochsRise a.now × RisesAlong b.now }
{
    epochs_rise(a) && times_rise(b)
}

// Whether each segment of the second trace knows those of earlier epochs of the first. Where epochs and times rise, what
// one knows is known further on.
fn agrees_between(a: &Trace, b: &Trace) -> bool
    requires { (nodes : ℕ) × (a.now.node < nodes)
        × ((t : Segment) → Contains b.now.segments t → length t.time ≡ nodes) }
    ensures { IsTrue result ↔ AgreesBetween a.now b.now }
{
    let rise = rise_along(a, b);
    let mut start = 0;
    for t in b.segments() {
        if rise {
            start = skip_known(a, t, start);
        }
        if !agrees_from(rise, a, t, start) {
            return false;
        }
    }
    true
}

// Whether each segment of this trace knows those of earlier epochs of the other nodes.
fn agrees_with_all(traces: &[Trace], b: &Trace) -> bool
    requires traces { (nodes : ℕ) × AreTracesOf nodes traces.now }
    requires there { Contains traces.now b.now }
    ensures { IsTrue result ↔ ((a : TraceRecord) → Contains traces.now a → a.node ≢ b.now.node
        → AgreesBetween a b.now) }
{
    for a in traces {
        if a.node() != b.node() && !agrees_between(a, b) {
            return false;
        }
    }
    true
}

/// Returns whether, for any two segments of different nodes and different epochs, the time of the later epoch's segment
/// knows the other's interval, as in every run. It allocates no memory.
pub fn epochs_agree(traces: &[Trace]) -> bool
    requires { (nodes : ℕ) × AreTracesOf nodes traces.now }
    ensures { IsTrue result ↔ EpochsAgree traces.now }
{
    for b in traces {
        if !agrees_with_all(traces, b) {
            return false;
        }
    }
    true
}
