// Whether a lazy run has ended.

ghost use Rattle.std.specs.Prelude.{◌↔◌, IfOk, IsTrue};
ghost use Rattle.lrc_exec.specs.Nodes.{AreNodes};
ghost use Rattle.lrc_exec.specs.Spots.{IsFlat};
ghost use Rattle.lrc_lazy.specs.Lazy.{IsLazyRun, IsOver};
ghost use Rattle.lrc_lazy.specs.Following.{IsFlatOf, IsFollowed, MayFollow};

use lrc_exec::code::Code;
use lrc_exec::spot::Flat;
use lrc_exec::state::State;
use lrc_orders::seen::is_still;
use lrc_program::Program;
use lrc_trace::act::{Act, Deed};
use std::alloc::{AllocError, Global};

/// Returns whether no node can act after the acts of a lazy run, by the text, the locks and the barriers. It fails if
/// memory runs out.
pub fn is_over(
    alloc: Global,
    program: &Program,
    nodes: u8,
    acts: &[Act],
) -> Result<bool, AllocError>
    requires nodes { AreNodes nodes }
    requires run { IsLazyRun program.now nodes acts.now }
    ensures { IfOk result (λ over. IsTrue over ↔ IsOver program.now nodes acts.now) }
{
    let code = Code::new(alloc, program)?;
    is_over_of(alloc, &code, nodes, acts)
}

// The same by a program's flat code.
fn is_over_of(alloc: Global, code: &Code<'_>, nodes: u8, acts: &[Act]) -> Result<bool, AllocError>
    requires nodes { AreNodes nodes }
    requires run { IsLazyRun code.now nodes acts.now }
    ensures { IfOk result (λ over. IsTrue over ↔ IsOver code.now nodes acts.now) }
{
    let (flat, start) = Flat::of(code, nodes);
    is_over_in(alloc, code.program(), &flat, start, acts)
}

// The same by instructions.
fn is_over_in(
    alloc: Global,
    program: &Program,
    flat: &Flat<'_>,
    start: usize,
    acts: &[Act],
) -> Result<bool, AllocError>
    requires flat { IsFlatOf program.now flat.now.nodes flat.now start }
    requires run { IsLazyRun program.now flat.now.nodes acts.now }
    ensures { IfOk result (λ over. IsTrue over ↔ IsOver program.now flat.now.nodes acts.now) }
{
    let _program = program;
    let mut state = State::start(alloc, flat, start)?;
    for act in acts {
        follow(&mut state, flat, *act);
    }
    Ok(is_still(flat, &state))
}

// Makes an act of the run: a read finds the value that it gave.
fn follow(state: &mut State, flat: &Flat<'_>, act: Act)
    requires flat { IsFlat flat.now }
    requires may { MayFollow flat.now state.old act }
    ensures { IsFollowed flat.now state.old act state.new }
{
    if let Deed::Read(word, value) = act.deed {
        state.memory[word as usize] = value;
    }
    state.make(flat, act.node as usize, act.deed);
}
