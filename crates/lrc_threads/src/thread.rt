// A node on a thread of its own.

ghost use Rattle.std.specs.Prelude.{◌≡◌, ◌<◌, ◌≤◌, [], Some, IfOk};
ghost use Rattle.lrc_protocol.specs.Node.{fresh_node};
ghost use Rattle.lrc_protocol.specs.Run.{Logged as LogRecord};
ghost use Rattle.lrc_protocol.specs.Turn.{is_ready};
ghost use Rattle.lrc_node.specs.Logged.{LeadsFrom, sound};
ghost use Rattle.lrc_threads.specs.declared.stop.Stop.TheVariants.{NoMemory};
ghost use Rattle.lrc_threads.specs.Threads.{IsPast};
ghost use Rattle.lrc_threads.specs.Worker.{no_turn_yet};

use crate::gate::Gate;
use crate::life::Past;
use crate::mail::Line;
use crate::member::Member;
use crate::stop::Stop;
use crate::worker::work;
use lrc_exec::code::Code;
use lrc_node::{Logged, Node};
use lrc_post::Post;
use lrc_trace::trace::Trace;
use std::alloc::{AllocError, Global};
use std::sync::Wait;

/// Runs a node of a program, from its first turn until the post is closed or the node fails. A node that fails closes
/// the post.
pub(crate) fn on_thread<G: Gate, R: Wait>(
    rt: &R,
    alloc: Global,
    code: &Code<'_>,
    member: Member,
    post: &Post,
    gate: &G,
) -> Past
    requires here { member.me < member.nodes }
    requires few { member.nodes ≤ 16 }
    ensures { IsPast (fresh_node code.now member.nodes member.options member.me) result }
{
    let past = past_of(rt, alloc, code, member, post, gate);
    if past.stop.is_some() {
        post.close(rt);
    }
    past
}

// The same, but a node that fails leaves the post as it is.
fn past_of<G: Gate, R: Wait>(
    rt: &R,
    alloc: Global,
    code: &Code<'_>,
    member: Member,
    post: &Post,
    gate: &G,
) -> Past
    requires here { member.me < member.nodes }
    requires few { member.nodes ≤ 16 }
    ensures { IsPast (fresh_node code.now member.nodes member.options member.me) result }
{
    let me = member.me;
    let Ok(mut node) = fresh(alloc, code, member) else {
        return unborn(alloc, &member);
    };
    let mut line = Line { rt, post, me };
    match work(rt, alloc, gate, &mut line, &mut node, me) {
        Ok(()) => ended(node, None),
        Err(Stop::Closed) => ended(node, None),
        Err(stop) => ended(node, Some(stop)),
    }
}

// What a node leaves whose thread stopped so.
fn ended(node: Logged<'_>, stop: Option<Stop>) -> Past
    ensures log { result.log.items ≡ node.entry.logged.log }
    ensures trace { result.trace ≡ node.entry.trace }
    ensures ready { (l : LogRecord) → node.entry.logged ≡ sound l
        → result.is_ready ≡ is_ready l.node }
    ensures stop { result.stop ≡ stop }
{
    let is_ready = node.ready();
    let (log, trace) = node.into_parts();
    Past {
        log,
        trace,
        is_ready,
        stop,
    }
}

/// Returns what is left of a node for which there was no memory.
pub(crate) fn unborn(alloc: Global, member: &Member) -> Past
    ensures log { result.log.items ≡ [] }
    ensures stop { result.stop ≡ Some NoMemory }
{
    Past {
        log: Vec::new(alloc),
        trace: Trace::new(alloc, member.me, member.options.size),
        is_ready: false,
        stop: Some(Stop::NoMemory),
    }
}

// A node of a program before its first turn.
fn fresh<'c>(alloc: Global, code: &'c Code<'_>, member: Member) -> Result<Logged<'c>, AllocError>
    requires here { member.me < member.nodes }
    requires few { member.nodes ≤ 16 }
    ensures fresh { IfOk result (λ node. node.logged
        ≡ sound (no_turn_yet (fresh_node code.now member.nodes member.options member.me))) }
    ensures leads { IfOk result (λ node. LeadsFrom
        (fresh_node code.now member.nodes member.options member.me)
        (no_turn_yet (fresh_node code.now member.nodes member.options member.me)) node) }
{
    let node = Node::new(alloc, code, member.me, member.nodes, &member.options)?;
    Ok(Logged::new(alloc, node))
}
