// Traces whose times rise.

ghost use Rattle.std.specs.Prelude.{◌≡◌, ℕ, ◌<◌, ◌↔◌, Contains, IsTrue, length};
ghost use Rattle.lrc_trace.specs.declared.trace.Segment.{Segment};
ghost use Rattle.lrc_trace.specs.Trace.{TraceRecord};
ghost use Rattle.lrc_race.specs.Races.{AreTracesOf, RisesAlong};

use lrc_trace::trace::Trace;

/// Returns whether no time of the trace lacks an interval that the time before it has.
pub fn times_rise(trace: &Trace) -> bool
    requires { (nodes : ℕ) × ((s : Segment) → Contains trace.now.segments s
        → length s.time ≡ nodes) }
    ensures { IsTrue result ↔ RisesAlong trace.now }
{
    let segments = trace.segments();
    for at in 1..segments.len() {
        if !segments[at].time.covers(&segments[at - 1].time) {
            return false;
        }
    }
    true
}

/// Returns whether the times of each trace rise, as they do in every run.
pub fn all_rise(traces: &[Trace]) -> bool
    requires { (nodes : ℕ) × AreTracesOf nodes traces.now }
    ensures { IsTrue result ↔ ((a : TraceRecord) → Contains traces.now a → RisesAlong a) }
{
    for trace in traces {
        if !times_rise(trace) {
            return false;
        }
    }
    true
}
