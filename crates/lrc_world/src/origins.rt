// Where the acts of a run come from.

ghost use Rattle.std.specs.Prelude.{◌≡◌, ◌<◌, ◌++◌, [], ◌∷◌, All, IfOk, OnOk, if◌then◌else◌, option_map};
ghost use Rattle.lrc_exec.specs.Nodes.{AreNodes};
ghost use Rattle.lrc_protocol.specs.Run.{turns_of_logs};
ghost use Rattle.lrc_world.specs.Origins.{AreOriginsOf, act_turns, has_act};
ghost use Rattle.lrc_world.specs.declared.keep.Keep.TheVariants as keeps;

use crate::keep::Keep;
use crate::turned::{Turned, pass_next};
use lrc_exec::code::Code;
use lrc_lines::statements::statements_of_acts;
use lrc_log::Entry;
use lrc_program::Program;
use lrc_timeline::timeline::Timeline;
use lrc_timeline::timeline_of;
use lrc_trace::act::Act;
use std::alloc::{AllocError, Global};

/// Where the acts of a run come from. Each list has an entry for each act.
#[derive(Drop)]
pub struct Origins {
    /// The positions of the acts' turns among the turns of the run.
    pub turns: Vec<usize>,
    /// The numbers of the acts' statements, from 0 in the order of the text; for an end, how many statements there are.
    pub statements: Vec<u32>,
    /// The times of the nodes just after their acts.
    pub times: Timeline,
}

/// Returns where the acts of a program's run come from, if all is kept of the run, and nothing otherwise. The logs, the
/// turns and the acts are those of the run. It fails if memory runs out.
pub fn origins_of(
    alloc: Global,
    keep: Keep,
    program: &Program,
    nodes: u8,
    logs: &[Vec<Entry>],
    turned: &[Turned],
    acts: &[Act],
) -> Result<Origins, AllocError>
    requires nodes { AreNodes nodes }
    requires acts { All (λ act. act.node < nodes) acts.now }
    ensures { IfOk result (AreOriginsOf keep program.now nodes (turns_of_logs logs.now)
        turned.now acts.now) }
{
    match keep {
        Keep::All => all_origins(alloc, program, nodes, logs, turned, acts),
        Keep::Newest | Keep::Turns => Ok(Origins {
            turns: Vec::new(alloc),
            statements: Vec::new(alloc),
            times: Timeline::none(alloc),
        }),
    }
}

// The same of a run of which all is kept.
fn all_origins(
    alloc: Global,
    program: &Program,
    nodes: u8,
    logs: &[Vec<Entry>],
    turned: &[Turned],
    acts: &[Act],
) -> Result<Origins, AllocError>
    requires nodes { AreNodes nodes }
    requires acts { All (λ act. act.node < nodes) acts.now }
    ensures { IfOk result (AreOriginsOf keeps.All program.now nodes (turns_of_logs logs.now)
        turned.now acts.now) }
{
    let code = Code::new(alloc, program)?;
    let turns = act_turns(alloc, logs, turned)?;
    let statements = statements_of_acts(alloc, &code, nodes, acts)?;
    let times = timeline_of(alloc, acts, nodes)?;
    Ok(Origins {
        turns,
        statements,
        times,
    })
}

// The position of the turn of each act.
fn act_turns(
    alloc: Global,
    logs: &[Vec<Entry>],
    turned: &[Turned],
) -> Result<Vec<usize>, AllocError>
    ensures { IfOk result (λ turns. turns.items ≡ act_turns (turns_of_logs logs.now) turned.now) }
{
    let mut come = vec![in alloc; 0usize; logs.len()]?;
    let mut turns = Vec::new(alloc);
    for (position, turn) in turned.iter().enumerate() {
        let entry = pass_next(logs, &mut come, usize::from(turn.node))?;
        note(&mut turns, position, has_act(entry))?;
    }
    Ok(turns)
}

// Whether a turn makes an act.
fn has_act(entry: Option<&Entry>) -> bool
    ensures { result ≡ has_act (option_map (λ entry. entry.now) entry.entry) }
{
    match entry {
        Some(entry) => entry.turn.act.is_some(),
        None => false,
    }
}

// Adds the position of a turn that makes an act.
fn note(turns: &mut Vec<usize>, position: usize, acts: bool) -> Result<(), AllocError>
    ensures { OnOk result (turns.new.items
        ≡ turns.old.items ++ (if acts then position ∷ [] else [])) }
{
    if acts {
        turns.push(position)?;
    }
    Ok(())
}
