// What is told of a run with a race.

ghost use Rattle.std.specs.Prelude.{◌≡◌, ◌<◌, ◌++◌, ◌∷◌, [], ℕ, All, IfOk, List, Some, length};
ghost use Rattle.lrc_trace.specs.declared.act.Deed.{Deed as DeedType};
ghost use Rattle.lrc_trace.specs.Run.{Does};
ghost use Rattle.lrc_trace.specs.Conflict.{Races};
ghost use Rattle.lrc_judge.specs.declared.TheConstants.{NODES};
ghost use Rattle.lrc_exec.specs.Nodes.{AreNodes};
ghost use Rattle.lrc_exec.specs.Plain.{plain};
ghost use Rattle.lrc_exec.specs.Follows.{nodes_of_acts};
ghost use Rattle.lrc_explore_causes.specs.Told.{IsEarliestRace, TellsRace};

use crate::causes::causes_of;
use lrc_exec::plain::plain_run;
use lrc_judge::pairs::{Pair, racing_pairs};
use lrc_program::Program;
use lrc_trace::act::Act;
use std::alloc::{AllocError, Global};

/// Returns the acts that explain the earliest race of a run of the plain machine: those that happen before one of its
/// two accesses, and then these two. The run must have a race. It fails if memory runs out.
pub fn race_told(
    alloc: Global,
    program: &Program,
    nodes: u8,
    acts: &[Act],
) -> Result<Vec<Act>, AllocError>
    requires nodes { AreNodes nodes }
    requires in_range { All (λ act. act.node < NODES) acts.now }
    requires made { (order : List ℕ) × (plain program.now nodes order ≡ Some acts.now) }
    requires races { (i : ℕ) × (j : ℕ) × Races acts.now i j }
    ensures { IfOk result (λ told. TellsRace program.now nodes acts.now told.items) }
{
    let pair = earliest_race(alloc, acts)?;
    let one = node_at(acts, pair.earlier);
    let other = node_at(acts, pair.later);
    let before = causes_of(alloc, acts, pair.earlier, pair.later)?;
    let order = order_of(alloc, &before, one, other)?;
    match plain_run(alloc, program, nodes, &order)? {
        Some(told) => Ok(told),
        None => unreachable!(),
    }
}

// The two positions that race earliest.
fn earliest_race(alloc: Global, acts: &[Act]) -> Result<Pair, AllocError>
    requires in_range { All (λ act. act.node < NODES) acts.now }
    requires races { (i : ℕ) × (j : ℕ) × Races acts.now i j }
    ensures { IfOk result (λ pair. IsEarliestRace acts.now pair.earlier pair.later) }
{
    let pairs = racing_pairs(alloc, acts)?;
    Ok(pairs[0])
}

// The node of the act at a position.
fn node_at(acts: &[Act], position: usize) -> u8
    requires { position < length acts.now }
    ensures { (node : ℕ) (deed : DeedType) → Does acts.now position node deed → result ≡ node }
{
    acts[position].node
}

// The nodes of acts, in their order, and then two more.
fn order_of(alloc: Global, acts: &[Act], one: u8, other: u8) -> Result<Vec<usize>, AllocError>
    ensures { IfOk result (λ order. order.items ≡ nodes_of_acts acts.now ++ one ∷ other ∷ []) }
{
    let mut order = Vec::new(alloc);
    for act in acts {
        order.push(act.node as usize)?;
    }
    order.push(one as usize)?;
    order.push(other as usize)?;
    Ok(order)
}
