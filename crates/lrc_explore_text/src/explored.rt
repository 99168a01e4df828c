// What is printed of every order of a program.

ghost use Rattle.std.specs.Prelude.{◌≡◌, ◌≢◌, IfErr, IfOk, false, map};
ghost use Rattle.lrc_explain_waits.specs.Traps.{wording_of};
ghost use Rattle.lrc_exec.specs.Nodes.{AreNodes};
ghost use Rattle.lrc_explore.specs.Met.{ComputesTooLong};
ghost use Rattle.lrc_explore_text.specs.Explored.{Explores, MeetsMany, MeetsTooMany};
ghost use Rattle.lrc_explore_text.specs.Met.{IsTold};

use crate::orders::orders_told;
use crate::outcomes::outcomes_told;
use lrc_explain_waits::Wording;
use lrc_orders::search::ExploreFault;
use lrc_program::Program;
use std::alloc::Global;

/// A printed text, and the exit status of the program after it.
#[derive(Drop)]
pub struct Printout {
    /// The parts of the text.
    pub parts: Vec<Vec<u8>>,
    /// 0, or 3 after a race, or 4 if some order gets stuck or a node traps in one.
    pub status: u8,
}

/// What is printed of a search.
#[derive(Drop)]
pub enum Told {
    /// All that was asked for.
    All(Printout),
    /// What a search met that was cut short: the parts of a text. Behind it a fault is to be told.
    Many(Vec<Vec<u8>>),
}

/// Searches every order in which `nodes` nodes can run a program, and returns what is printed: whether an order races,
/// and if none does, whether one gets stuck and whether a node traps in one. If `outcomes` is true, it prints every
/// outcome instead. `lines` has the lines of the program's statements, and of the text's end behind them. In the lines
/// of stuck nodes, the labels of words and locks follow their numbers. There must be 1 to 16 nodes. If there are more than
/// `most` states to tell apart, it tells what was met, or gives up with `TooMany` if `outcomes` is true. It gives up so, too,
/// if a thread makes 1,000,000 + 20 * `most` free acts one after another. Fails if memory runs out.
pub fn explored(
    alloc: Global,
    wording: &Wording<'_, '_>,
    program: &Program,
    lines: &[u32],
    nodes: u32,
    most: usize,
    outcomes: bool,
) -> Result<Told, ExploreFault>
    requires { AreNodes nodes }
    ensures ok { IfOk result (IsTold
        (Explores (wording_of wording.now) program.now nodes lines.now outcomes)
        (MeetsMany (wording_of wording.now) program.now nodes lines.now most outcomes)) }
    ensures nodes { IfErr result (λ fault. fault ≢ ExploreFault.BadNodes) }
    ensures too_many { IfErr result (λ fault. fault ≡ ExploreFault.TooMany
        → MeetsTooMany program.now nodes most outcomes) }
    ensures too_long { IfErr result (λ fault. fault ≡ ExploreFault.TooMany → outcomes ≡ false
        → ComputesTooLong program.now nodes most) }
{
    if outcomes {
        let printout = outcomes_told(alloc, program, nodes, most)?;
        Ok(Told::All(printout))
    } else {
        orders_told(alloc, wording, program, lines, nodes, most)
    }
}
