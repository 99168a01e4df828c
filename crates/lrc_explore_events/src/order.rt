// The events that lead a run along an order.

ghost use Rattle.std.specs.Prelude.{◌≡◌, ◌≤◌, ◌+◌, ℕ, [], IfOk, OnOk};
ghost use Rattle.std.specs.List.{range_with_len};
ghost use Rattle.lrc_program.specs.declared.Program.{Program as AnyProgram};
ghost use Rattle.lrc_lines.specs.Statements.{act_statements, numbers_of};
ghost use Rattle.lrc_protocol.specs.Node.{OptionsRecord};
ghost use Rattle.lrc_along.specs.Along.{LeadsAlong};
ghost use Rattle.lrc_explore_events.specs.Playing.{IsFollowing, HasFollowed, IsDraining, HasDrained};

use crate::player::Player;
use lrc_along::limit::MOST_EVENTS;
use lrc_exec::code::Code;
use lrc_lines::walks::lines_of_acts;
use lrc_node::Options;
use lrc_program::Program;
use lrc_protocol::Event;
use lrc_trace::act::Act;
use std::alloc::{AllocError, Global};

/// Returns events that lead the nodes of the protocol along an order of a program's acts, of 1 to 16 nodes. For each act
/// of the order its node goes on, unless it departs; then the oldest message is delivered that lets no other node go on
/// from a barrier, until the node has made its act. This ends before the first act of which the node stands at another
/// statement, or asks for another deed, word or lock than in the order, values aside; of which it is not ready; or for
/// which no such message comes. Then the messages in flight are delivered, oldest first, until there are none.
///
/// It fails if memory runs out, or if a number of the run would be too large.
pub fn events_along(
    alloc: Global,
    program: &Program,
    nodes: u8,
    options: &Options,
    order: &[Act],
) -> Result<Vec<Event>, AllocError>
    requires few { nodes ≤ 16 }
    ensures { IfOk result (λ events.
        LeadsAlong program.now nodes options.now order.now events.items) }
{
    let code = Code::new(alloc, program)?;
    let numbers = numbers_of(alloc, &code)?;
    played_along(alloc, &code, &numbers, nodes, options, order)
}

// The same, where the statements have these numbers.
fn played_along(
    alloc: Global,
    code: &Code<'_>,
    numbers: &[u32],
    nodes: u8,
    options: &Options,
    order: &[Act],
) -> Result<Vec<Event>, AllocError>
    requires few { nodes ≤ 16 }
    requires numbers { numbers.now ≡ numbers_of code.now }
    ensures { IfOk result (λ events.
        LeadsAlong code.now nodes options.now order.now events.items) }
{
    let statements = lines_of_acts(alloc, code, numbers, nodes, order)?;
    let mut player = Player::start(alloc, code, numbers, nodes, options)?;
    follow(&mut player, order, &statements)?;
    drain(&mut player)?;
    Ok(player.events)
}

// Plays the events that are due along an order, until none is.
fn follow(player: &mut Player<'_>, order: &[Act], statements: &[u32]) -> Result<(), AllocError>
    requires { player.old.events.items ≡ [] }
    ensures { (program : AnyProgram) (nodes : ℕ) (options : OptionsRecord)
        → statements.now ≡ act_statements program nodes order.now
        → IsFollowing program nodes options order.now player.old
        → OnOk result (HasFollowed program nodes options order.now player.new) }
{
    for _event in 0..MOST_EVENTS {
        let Some(event) = player.due(order, statements)? else {
            return Ok(());
        };
        player.play(event)?;
    }
    Ok(())
}

// Delivers the messages in flight, oldest first, until there are none.
fn drain(player: &mut Player<'_>) -> Result<(), AllocError>
    ensures { (program : AnyProgram) (nodes : ℕ) (options : OptionsRecord)
        → IsDraining program nodes options player.old.events.items player.old
        → OnOk result (HasDrained program nodes options player.old.events.items player.new) }
{
    for _event in 0..MOST_EVENTS {
        if player.is_quiet() {
            return Ok(());
        }
        player.play(Event::Deliver(0))?;
    }
    Ok(())
}

// The numbers of a program's statements, and behind them that of the text's end. For a number that does not fit in 32 bits
// there is no memory.
fn numbers_of(alloc: Global, code: &Code<'_>) -> Result<Vec<u32>, AllocError>
    ensures { IfOk result (λ numbers. numbers.items ≡ numbers_of code.now) }
{
    let (instructions, _start) = code.parts();
    match u32::try_from(instructions.len()) {
        Ok(last) => numbers_to(alloc, last),
        Err(_) => Err(AllocError),
    }
}

// The numbers from 0 to the last one.
fn numbers_to(alloc: Global, last: u32) -> Result<Vec<u32>, AllocError>
    ensures { IfOk result (λ numbers. numbers.items ≡ range_with_len 0 (last + 1)) }
{
    let mut numbers = Vec::new(alloc);
    for number in 0..=last {
        numbers.push(number)?;
    }
    Ok(numbers)
}
