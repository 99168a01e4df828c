// What is kept of the writes to each word that are known.

ghost use Rattle.std.specs.Prelude.{◌≡◌, ◌<◌, ◌++◌, ◌∷◌, [], ℕ, List, IfOk, OnOk, Contains, None, length};
ghost use Rattle.lrc_trace.specs.declared.act.Act.{Act};
ghost use Rattle.std.specs.List.Sorted.{IsStrictlyIncreasing};
ghost use Rattle.lrc_trace.specs.declared.act.Deed.TheVariants.{Write};
ghost use Rattle.lrc_trace.specs.Run.{IsDone};
ghost use Rattle.lrc_judge.specs.Order.{IsOrderOf};
ghost use Rattle.lrc_judge_all.specs.Known.{AreKept, IsKept, IsKeptOf, IsNewTo};

use lrc_judge::order::Order;
use lrc_trace::act::{Act, Deed};
use std::alloc::{AllocError, Global};
use std::collections::{BTreeMap, BTreeSet};

/// What the writes to a word that are known say of a read of it.
#[derive(Drop)]
pub(crate) struct Kept {
    /// The position of the last of them.
    pub(crate) last: usize,
    /// What that one writes.
    pub(crate) latest: u64,
    /// Whether any two of them are ordered.
    pub(crate) are_ordered: bool,
    /// 0, and what they write.
    pub(crate) values: BTreeSet<u64>,
}

// What is kept of one write alone.
fn first_kept(alloc: Global, position: usize, value: u64) -> Result<Kept, AllocError>
    ensures { IfOk result (λ kept. (run : List Act) (known : List ℕ) (word : ℕ)
        → IsDone run position (Write word value) → IsKept run known word None
        → IsKeptOf run (known ++ position ∷ []) word kept) }
{
    let mut values = BTreeSet::new(alloc);
    values.insert(0)?;
    values.insert(value)?;
    Ok(Kept {
        last: position,
        latest: value,
        are_ordered: true,
        values,
    })
}

impl Kept {
    // What is kept with one write more.
    fn with(self, order: &Order, position: usize, value: u64) -> Result<Kept, AllocError>
        ensures { IfOk result (λ kept. (run : List Act) (known : List ℕ) (word : ℕ)
            → IsOrderOf run order.now → IsDone run position (Write word value) → IsNewTo run known position
            → IsKeptOf run known word self → IsKeptOf run (known ++ position ∷ []) word kept) }
    {
        let Kept {
            last,
            latest,
            are_ordered,
            mut values,
        } = self;
        values.insert(value)?;
        let follows = are_ordered && order.is_before(last, position);
        if last < position {
            return Ok(Kept {
                last: position,
                latest: value,
                are_ordered: follows,
                values,
            });
        }
        Ok(Kept {
            last,
            latest,
            are_ordered: follows,
            values,
        })
    }
}

// What is kept with one write more, where so much was kept.
fn kept_with(
    alloc: Global,
    old: Option<Kept>,
    order: &Order,
    position: usize,
    value: u64,
) -> Result<Kept, AllocError>
    ensures { IfOk result (λ kept. (run : List Act) (known : List ℕ) (word : ℕ)
        → IsOrderOf run order.now → IsDone run position (Write word value) → IsNewTo run known position
        → IsKept run known word old → IsKeptOf run (known ++ position ∷ []) word kept) }
{
    match old {
        Some(old) => {
            let kept = old.with(order, position, value)?;
            Ok(kept)
        }
        None => {
            let first = first_kept(alloc, position, value)?;
            Ok(first)
        }
    }
}

// Notes the write at this position.
fn note(
    alloc: Global,
    words: &mut BTreeMap<u32, Kept>,
    order: &Order,
    acts: &[Act],
    position: usize,
) -> Result<(), AllocError>
    requires order { IsOrderOf acts.now order.now }
    requires within { position < length acts.now }
    ensures { OnOk result ((known : List ℕ) → IsNewTo acts.now known position
        → AreKept acts.now known words.old
        → AreKept acts.now (known ++ position ∷ []) words.new) }
{
    let Deed::Write(word, value) = acts[position].deed else {
        return Ok(());
    };
    let old = words.remove(&word);
    let kept = kept_with(alloc, old, order, position, value)?;
    words.insert(word, kept)?;
    Ok(())
}

/// Notes the writes at these positions, which are ascending, of a run with this order. It fails if memory runs out.
pub(crate) fn note_all(
    alloc: Global,
    words: &mut BTreeMap<u32, Kept>,
    order: &Order,
    acts: &[Act],
    positions: &[usize],
) -> Result<(), AllocError>
    requires order { IsOrderOf acts.now order.now }
    requires within { (k : ℕ) → Contains positions.now k → k < length acts.now }
    requires ascending { IsStrictlyIncreasing positions.now }
    ensures { OnOk result ((known : List ℕ)
        → ((k : ℕ) → Contains positions.now k → IsNewTo acts.now known k)
        → AreKept acts.now known words.old → AreKept acts.now (known ++ positions.now) words.new) }
{
    for position in positions {
        note(alloc, words, order, acts, *position)?;
    }
    Ok(())
}
