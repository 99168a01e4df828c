// Which accesses the acts so far have made, and whether one of them races with an act.
ghost use Rattle.std.specs.Prelude.{◌≡◌, ℕ, ◌+◌, ◌<◌, ◌↔◌, List, All, IsTrue, OnOk, length};
ghost use Rattle.lrc_trace.specs.declared.act.Act.{Act};
ghost use Rattle.lrc_trace.specs.Conflict.{Races};
ghost use Rattle.lrc_judge.specs.declared.TheConstants.{NODES};
ghost use Rattle.lrc_judge.specs.Past.{Gathers};
ghost use Rattle.lrc_judge.specs.Touched.{IsTouched, AreTouched};
ghost use Rattle.lrc_judge.specs.Unreached.{IsSomeUnreached};

use crate::NODES;
use crate::reach::Reach;
use crate::touched::Touched;
use lrc_trace::act::{Act, Deed};
use std::alloc::AllocError;
use std::collections::BTreeMap;

/// Returns whether some other node has a number in `latest` that is above its number in the reach.
pub fn is_some_unreached(latest: &[usize], node: usize, reach: &Reach) -> bool
    requires { length latest.now ≡ NODES }
    ensures { IsTrue result ↔ IsSomeUnreached latest.now node reach.now }
{
    for other in 0..NODES {
        if other != node && reach.latest[other] < latest[other] {
            return true;
        }
    }
    false
}

// What is kept of a word.
fn touched_at(words: &BTreeMap<u32, Touched>, word: u32) -> Touched
    ensures { (run : List Act) (n : ℕ) → AreTouched run n words.now → IsTouched run n word result }
{
    match words.get(&word) {
        Some(touched) => *touched,
        None => Touched::none(),
    }
}

/// Returns whether the act at this position races with an earlier act.
pub fn races(words: &BTreeMap<u32, Touched>, acts: &[Act], position: usize, reach: &Reach) -> bool
    requires touched { AreTouched acts.now position words.now }
    requires reach { Gathers acts.now (λ k. k ≡ position) reach.now }
    requires within { position < length acts.now }
    ensures { IsTrue result ↔ ((i : ℕ) × Races acts.now i position) }
{
    let node = usize::from(acts[position].node);
    match acts[position].deed {
        Deed::Read(word, _) => is_some_unreached(&touched_at(words, word).written, node, reach),
        Deed::Write(word, _) => is_some_unreached(&touched_at(words, word).accessed, node, reach),
        _ => false,
    }
}

/// Records the act at this position. It fails only if memory runs out.
pub fn note(
    words: &mut BTreeMap<u32, Touched>,
    acts: &[Act],
    position: usize,
) -> Result<(), AllocError>
    requires touched { AreTouched acts.now position words.old }
    requires nodes { All (λ act. act.node < NODES) acts.now }
    requires within { position < length acts.now }
    ensures { OnOk result (AreTouched acts.now (position + 1) words.new) }
{
    let node = usize::from(acts[position].node);
    match acts[position].deed {
        Deed::Read(word, _) => {
            let touched = touched_at(words, word).with_read(node, position);
            words.insert(word, touched)?;
            Ok(())
        }
        Deed::Write(word, _) => {
            let touched = touched_at(words, word).with_write(node, position);
            words.insert(word, touched)?;
            Ok(())
        }
        _ => Ok(()),
    }
}
