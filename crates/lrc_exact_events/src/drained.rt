// The events by which the nodes make acts in a given order.

ghost use Rattle.std.specs.Prelude.{◌≡◌, ◌≤◌, ℕ, [], IfOk, OnOk};
ghost use Rattle.lrc_program.specs.declared.Program.{Program as AnyProgram};
ghost use Rattle.lrc_protocol.specs.Node.{OptionsRecord};
ghost use Rattle.lrc_exact_events.specs.Drained.{MakesInTurn};
ghost use Rattle.lrc_exact_events.specs.Playing.{IsPlaying};

use crate::player::Player;
use lrc_along::limit::MOST_EVENTS;
use lrc_exec::code::Code;
use lrc_node::Options;
use lrc_program::Program;
use lrc_protocol::Event;
use lrc_trace::act::Act;
use std::alloc::{AllocError, Global};

/// Returns events by which the nodes of the protocol, 1 to 16, make acts of a program in this order. As long as a message
/// is in flight, the oldest is delivered; then the node of the order's next act goes on. This ends before the first event
/// that makes no turn, or an act that is not the next of the order.
///
/// It fails if memory runs out, or if a number of the run would be too large.
pub fn events_in_turn(
    alloc: Global,
    program: &Program,
    nodes: u8,
    options: &Options,
    order: &[Act],
) -> Result<Vec<Event>, AllocError>
    requires few { nodes ≤ 16 }
    ensures { IfOk result (λ events.
        MakesInTurn program.now nodes options.now order.now events.items) }
{
    let code = Code::new(alloc, program)?;
    played(alloc, &code, nodes, options, order)
}

// The same of a program's flat code.
fn played(
    alloc: Global,
    code: &Code<'_>,
    nodes: u8,
    options: &Options,
    order: &[Act],
) -> Result<Vec<Event>, AllocError>
    requires few { nodes ≤ 16 }
    ensures { IfOk result (λ events.
        MakesInTurn code.now nodes options.now order.now events.items) }
{
    let mut player = Player::start(alloc, code, nodes, options)?;
    follow(&mut player, order)?;
    Ok(player.events)
}

// Plays the events that are due, until none is, or one leads away from the order.
fn follow(player: &mut Player<'_>, order: &[Act]) -> Result<(), AllocError>
    requires { player.old.events.items ≡ [] }
    ensures { (program : AnyProgram) (nodes : ℕ) (options : OptionsRecord)
        → IsPlaying program nodes options order.now player.old
        → OnOk result (MakesInTurn program nodes options order.now player.new.events.items) }
{
    for _event in 0..MOST_EVENTS {
        let Some(event) = player.due(order) else {
            return Ok(());
        };
        if !player.play(order, event)? {
            return Ok(());
        }
    }
    Ok(())
}
