// Rounds on the plain machine.

ghost use Rattle.std.specs.Prelude.{◌≡◌, ℕ, ◌≤◌, ◌<◌, ◌-◌, ◌^◌, ◌↔◌, IfOk, IsTrue, slice_index, vec_len};
ghost use Rattle.lrc_exec.specs.Rounds.{AreActsOfRounds};

use crate::code::Code;
use crate::machine::steps_of;
use crate::spot::Flat;
use crate::state::State;
use lrc_program::Program;
use lrc_trace::act::{Act, Deed};
use std::alloc::{AllocError, Global};

// The plain machine, and the steps that each node has left.
#[derive(Drop)]
struct Pace {
    state: State,
    left: Vec<u32>,
}

impl Pace {
    ghost use Rattle.std.specs.Prelude.{OnOk};
    ghost use Rattle.lrc_exec.specs.RoundsCode.{paced_of, MakesTurn, MakesRound};
    ghost use Rattle.lrc_exec.specs.Spots.{IsFlat};
    ghost use Rattle.lrc_exec.specs.States.{IsStateOf};

    // One turn of a node: what it does, if it can and has steps left for it.
    fn turn(&mut self, flat: &Flat, node: usize) -> Option<Deed>
        requires flat { IsFlat flat.now }
        requires state { IsStateOf flat.now self.old.state }
        requires node { node < vec_len self.old.left }
        requires room { slice_index self.old.state.arrivals.items node < 2 ^ 64 - 1 }
        ensures made { MakesTurn (paced_of flat.now self.old)
            (paced_of flat.now self.new) node result }
        ensures state { IsStateOf flat.now self.new.state }
    {
        let step = self.state.next_step(flat, node)?;
        let steps = steps_of(step.deed);
        if self.left[node] < steps {
            return None;
        }
        self.left[node] -= steps;
        self.state.take(flat, node, step);
        Some(step.deed)
    }

    // One round: whether a node made an act.
    fn round(&mut self, flat: &Flat, acts: &mut Vec<Act>) -> Result<bool, AllocError>
        requires flat { IsFlat flat.now }
        requires state { IsStateOf flat.now self.old.state }
        requires few_nodes { vec_len self.old.left ≤ 16 }
        requires room { (k : ℕ) → slice_index self.old.state.arrivals.items k ≤ vec_len acts.old }
        ensures made { IfOk result (λ _.
            MakesRound (vec_len self.old.left) (paced_of flat.now self.old)
            (paced_of flat.now self.new) acts.old.items acts.new.items) }
        ensures more { IfOk result (λ more. IsTrue more ↔ (vec_len acts.old < vec_len acts.new)) }
        ensures state { OnOk result (IsStateOf flat.now self.new.state) }
    {
        let before = acts.len();
        for node in 0..self.left.len() {
            if let Some(deed) = self.turn(flat, node) {
                acts.push(Act {
                    node: node as u8,
                    deed,
                })?;
            }
        }
        Ok(before < acts.len())
    }
}

/// Runs a program on the plain machine in rounds, and returns its acts. There are 1 to 16 nodes and 1 to 1,000,000
/// steps. It fails only if memory runs out.
///
/// In each round every node from 0 up makes its next act, if it can and has steps left. The run ends after a round
/// without an act. Each node begins with `steps` steps. Each condition that it evaluates and each other statement that
/// it begins takes one step. A depart and the end of the text take none.
pub fn plain_rounds(
    alloc: Global,
    program: &Program,
    nodes: u8,
    steps: u32,
) -> Result<Vec<Act>, AllocError>
    requires some_nodes { 1 ≤ nodes }
    requires few_nodes { nodes ≤ 16 }
    requires some_steps { 1 ≤ steps }
    requires few_steps { steps ≤ 1000000 }
    ensures { IfOk result (λ acts. AreActsOfRounds program.now nodes steps acts.items) }
{
    let code = Code::new(alloc, program)?;
    let (flat, place) = Flat::of(&code, nodes);
    let mut pace = Pace {
        state: State::start(alloc, &flat, place)?,
        left: vec![in alloc; steps; nodes as usize]?,
    };
    let mut acts = Vec::new(alloc);
    while pace.round(&flat, &mut acts)? {}
    Ok(acts)
}
