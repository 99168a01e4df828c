// The turns of a run, played again.

ghost use Rattle.std.specs.Prelude.{◌≡◌, ◌≤◌, ◌++◌, ℕ, IfOk, OnOk, Some, map, slice_get};
ghost use Rattle.lrc_protocol.specs.Run.{Logged, World, event_on, run_of};
ghost use Rattle.lrc_replay.specs.Replays.{IsReplay, turner_of};
ghost use Rattle.lrc_replay.specs.Turns.{turn_by, turns_of};
ghost use Rattle.lrc_chart_invalid.specs.Invalidated.{invalid_since, invalidated_at, readable_from};

use crate::copies::{invalid_since, readable};
use lrc_exec::code::Code;
use lrc_log::Turn;
use lrc_node::Options;
use lrc_protocol::Event;
use lrc_replay::Replay;
use std::alloc::{AllocError, Global};

/// Returns of each turn of the run of these events, in order, the pages whose copies at the turn's node were valid or
/// written before it and are invalid after it, ascending. There must be at most 16 nodes. It fails if memory runs out.
pub fn invalidated(
    alloc: Global,
    code: &Code<'_>,
    nodes: u8,
    options: &Options,
    events: &[Event],
) -> Result<Vec<Vec<u16>>, AllocError>
    requires few { nodes ≤ 16 }
    ensures { (end : World) → run_of code.now nodes options.now events.now ≡ Some end
        → IfOk result (λ found. map (λ pages. pages.items) found.items
        ≡ map invalidated_at (turns_of code.now nodes options.now events.now)) }
{
    let mut replay = Replay::start(alloc, code, nodes, options)?;
    let mut found = Vec::new(alloc);
    for event in events {
        play(alloc, &mut replay, *event, &mut found)?;
    }
    Ok(found)
}

// Plays an event, and adds the pages of its turn, if it makes one.
fn play(
    alloc: Global,
    replay: &mut Replay<'_>,
    event: Event,
    found: &mut Vec<Vec<u16>>,
) -> Result<(), AllocError>
    ensures replay { (world next : World) → IsReplay replay.old world
        → event_on world event ≡ Some next → OnOk result (IsReplay replay.new next) }
    ensures found { (world next : World) → IsReplay replay.old world
        → event_on world event ≡ Some next
        → OnOk result (map (λ pages. pages.items) found.new.items
        ≡ map (λ pages. pages.items) found.old.items ++ map invalidated_at (turn_by world event)) }
{
    let node = place_of(replay, event);
    let before = readable_at(alloc, replay, node)?;
    match replay.make(event)? {
        Some(turn) => {
            let Turn { act: _act, out } = turn;
            replay.post(out)?;
            found.push(invalid_at(alloc, replay, node, &before)?)?;
            Ok(())
        }
        None => Ok(()),
    }
}

// The node that an event names, or the receiver of the message that it names; 0, where it names none.
fn place_of(replay: &Replay<'_>, event: Event) -> usize
    ensures { (world : World) (node : ℕ) → IsReplay replay.now world
        → turner_of world event ≡ Some node → result ≡ node }
{
    match replay.turner(event) {
        Some(place) => place,
        None => 0,
    }
}

// Of each page whether a node's copy may be read; nothing, where the node is not there.
fn readable_at(alloc: Global, replay: &Replay<'_>, node: usize) -> Result<Vec<bool>, AllocError>
    ensures { (world : World) → IsReplay replay.now world
        → IfOk result (λ all. all.items ≡ readable_from (slice_get world.nodes node)) }
{
    match replay.state(node) {
        Some(state) => readable(alloc, state),
        None => Ok(Vec::new(alloc)),
    }
}

// The pages whose copies at a node are invalid and were readable, given of which pages they were.
fn invalid_at(
    alloc: Global,
    replay: &Replay<'_>,
    node: usize,
    before: &[bool],
) -> Result<Vec<u16>, AllocError>
    ensures { (world : World) (l : Logged) → IsReplay replay.now world
        → slice_get world.nodes node ≡ Some l
        → IfOk result (λ found. found.items ≡ invalid_since before.now l.node.memory) }
{
    match replay.state(node) {
        Some(state) => invalid_since(alloc, before, state),
        None => Ok(Vec::new(alloc)),
    }
}
