// What is left of nodes that lived on threads.

ghost use Rattle.std.specs.Prelude.{◌≡◌, IfOk, MatchOption, map};
ghost use Rattle.std.specs.List.{list_any};
ghost use Rattle.lrc_protocol.specs.Run.{turns_of_logs};
ghost use Rattle.lrc_threads.specs.Threads.{HaveNoFailure, IsFirstFailure};

use crate::stop::Stop;
use lrc_log::Entry;
use lrc_trace::trace::Trace;
use std::alloc::{AllocError, Global};

/// What is left of a node after its thread ended.
#[derive(Drop)]
pub struct Past {
    /// The turns of the node, with their stamps.
    pub log: Vec<Entry>,
    /// The accesses of the node, by interval. They are those of the log's turns if `stop` is none; otherwise nothing is
    /// promised of them.
    pub trace: Trace,
    /// Whether the node would go on if an event named it. If `stop` is not none, this is not promised.
    pub is_ready: bool,
    /// Why the thread stopped, or none if it went on until the post was closed.
    pub stop: Option<Stop>,
}

/// A node whose thread failed or could not be started, and the reason.
#[derive(Clone, Copy)]
pub struct Failure {
    /// The node's number.
    pub node: usize,
    /// Why its thread stopped.
    pub stop: Stop,
}

/// What is left of all nodes, as one list for each kind of data.
#[derive(Drop)]
pub struct Parts {
    /// The turns of each node with their stamps, from node 0 up.
    pub logs: Vec<Vec<Entry>>,
    /// The accesses of each node by interval, from node 0 up, as its [`Past`] has them.
    pub traces: Vec<Trace>,
    /// Whether the [`Past`] of some node says that it would go on if an event named it.
    pub is_any_ready: bool,
    /// Why each node's thread stopped, from node 0 up, or none if it went on until the post was closed.
    pub stops: Vec<Option<Stop>>,
}

/// Takes apart what is left of the nodes. It fails if there is no memory for the lists.
pub fn parts_of(alloc: Global, pasts: Vec<Past>) -> Result<Parts, AllocError>
    ensures logs { IfOk result (λ parts. turns_of_logs parts.logs.items
        ≡ map (λ past. past.log.items) pasts.items) }
    ensures traces { IfOk result (λ parts. parts.traces.items
        ≡ map (λ past. past.trace) pasts.items) }
    ensures ready { IfOk result (λ parts. parts.is_any_ready
        ≡ list_any (λ past. past.is_ready) pasts.items) }
    ensures stops { IfOk result (λ parts. parts.stops.items ≡ map (λ past. past.stop) pasts.items) }
{
    let is_any_ready = pasts.iter().any(|past| past.is_ready);
    let mut logs = Vec::with_capacity(alloc, pasts.len())?;
    let mut traces = Vec::with_capacity(alloc, pasts.len())?;
    let mut stops = Vec::with_capacity(alloc, pasts.len())?;
    for past in pasts {
        logs.push(past.log)?;
        traces.push(past.trace)?;
        stops.push(past.stop)?;
    }
    Ok(Parts {
        logs,
        traces,
        is_any_ready,
        stops,
    })
}

/// Returns the lowest node whose thread failed or could not be started, or none if no thread did.
pub fn first_failure(stops: &[Option<Stop>]) -> Option<Failure>
    ensures { MatchOption result (HaveNoFailure stops.now) (IsFirstFailure stops.now) }
{
    for (node, stop) in stops.iter().enumerate() {
        if let Some(stop) = *stop {
            return Some(Failure { node, stop });
        }
    }
    None
}
