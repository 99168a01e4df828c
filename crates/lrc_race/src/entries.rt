// Traces of nodes below one number, whose times have as many entries.

ghost use Rattle.std.specs.Prelude.{◌↔◌, IsTrue};
ghost use Rattle.lrc_race.specs.Races.{IsTraceOf, AreTracesOf};

use lrc_trace::trace::Trace;

// Whether the trace is of a node below this number, and each of its times has as many entries.
fn is_trace_of(nodes: u8, trace: &Trace) -> bool
    ensures { IsTrue result ↔ IsTraceOf nodes trace.now }
{
    if trace.node() >= nodes {
        return false;
    }
    for segment in trace.segments() {
        if segment.time.nodes() != nodes {
            return false;
        }
    }
    true
}

/// Returns whether the traces are of nodes below this number, and each of their times has this many entries. `races`
/// and `epochs_agree` require it.
pub fn are_traces_of(nodes: u8, traces: &[Trace]) -> bool
    ensures { IsTrue result ↔ AreTracesOf nodes traces.now }
{
    for trace in traces {
        if !is_trace_of(nodes, trace) {
            return false;
        }
    }
    true
}
