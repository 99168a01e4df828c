// What an act is about.

ghost use Rattle.std.specs.Prelude.{◌≡◌, ℕ, ◌<◌, ◌≤◌, ◌↔◌, Contains, IfOk, IsTrue, List, MatchBool, MatchOption, length};
ghost use Rattle.lrc_trace.specs.declared.act.Act.{Act as AnyAct};
ghost use Rattle.lrc_trace.specs.declared.act.Deed.TheVariants.{Release};
ghost use Rattle.lrc_trace.specs.Run.{Does, IsDone};
ghost use Rattle.lrc_judge.specs.Allowed.{AreAllowed};
ghost use Rattle.lrc_judge.specs.Order.{IsOrderOf};
ghost use Rattle.lrc_why_chains.specs.Known.{IsActOf};
ghost use Rattle.lrc_why_chains.specs.Writes.{AreExactly, IsCrossing, IsFirstCrossing, IsKnownWrite};
ghost use Rattle.lrc_why.specs.About.{IsAbout, IsEarlierRelease, IsLastRelease};
ghost use Rattle.lrc_why.specs.Sources.{IsGift, IsSource};

use crate::positions::is_act_of;
use crate::reasons::{About, Gift, Several, Source};
use crate::since::since_of;
use lrc_judge::order::Order;
use lrc_judge::reading::values_allowed;
use lrc_trace::act::{Act, Deed};
use lrc_why_chains::held::{arrives_at, departs_at};
use lrc_why_chains::writes::{
    Crossing, first_crossing, known_writes, last_write, last_written, unfollowed,
};
use std::alloc::{AllocError, Global};

// Whether the act at the position releases the lock.
fn is_release(acts: &[Act], lock: u8, k: usize) -> bool
    requires { k < length acts.now }
    ensures { MatchBool result (IsDone acts.now k (Release lock))
        (¬ IsDone acts.now k (Release lock)) }
{
    match acts[k].deed {
        Deed::Release(other) => other == lock,
        _ => false,
    }
}

// The last release of the lock before the position.
fn last_release(acts: &[Act], lock: u8, position: usize) -> Option<usize>
    requires { position ≤ length acts.now }
    ensures { MatchOption result ((k : ℕ) → ¬ IsEarlierRelease acts.now lock position k)
        (IsLastRelease acts.now lock position) }
{
    for k in (0..position).rev() {
        if is_release(acts, lock, k) {
            return Some(k);
        }
    }
    None
}

fn several(
    alloc: Global,
    order: &Order,
    writes: &[usize],
    values: Vec<u64>,
    crossing: Crossing,
) -> Result<Source, AllocError>
    ensures { (run : List AnyAct) (node position word : ℕ) → IsOrderOf run order.now
        → AreExactly (IsKnownWrite run position word) writes.now
        → AreAllowed run position word values.items
        → IsFirstCrossing run position word crossing.earlier crossing.later
        → IfOk result (IsSource run node position word) }
{
    let last = unfollowed(alloc, order, writes)?;
    Ok(Source::Racing(Several {
        earlier: crossing.earlier,
        later: crossing.later,
        values,
        last,
    }))
}

// The last write of those known, and since when it is known where another node made it.
fn last_source(
    alloc: Global,
    acts: &[Act],
    order: &Order,
    node: u8,
    writes: &[usize],
) -> Result<Source, AllocError>
    requires { IsOrderOf acts.now order.now }
    ensures { (position word : ℕ) → IsActOf acts.now node position
        → AreExactly (IsKnownWrite acts.now position word) writes.now
        → ((i j : ℕ) → ¬ IsCrossing acts.now position word i j)
        → IfOk result (IsSource acts.now node position word) }
{
    match last_write(writes) {
        None => Ok(Source::Nothing),
        Some(write) => {
            if is_act_of(acts, node, write) {
                Ok(Source::Last(write, None))
            } else {
                let since = since_of(alloc, acts, order, node, write)?;
                Ok(Source::Last(write, since))
            }
        }
    }
}

fn has(values: &[u64], value: u64) -> bool
    ensures { IsTrue result ↔ Contains values.now value }
{
    values.contains(&value)
}

fn gift(
    alloc: Global,
    acts: &[Act],
    order: &Order,
    acting: u8,
    position: usize,
    word: u32,
    value: u64,
) -> Result<Gift, AllocError>
    requires order { IsOrderOf acts.now order.now }
    requires within { position < length acts.now }
    requires acting { IsActOf acts.now acting position }
    ensures { IfOk result (IsGift acts.now acting position word value) }
{
    let unknown = last_written(acts, order, position, word);
    let writes = known_writes(alloc, acts, order, position, word)?;
    let values = values_allowed(alloc, order, acts, position, word)?;
    let allowed = has(&values, value);
    let source = match first_crossing(order, &writes) {
        Some(crossing) => several(alloc, order, &writes, values, crossing)?,
        None => last_source(alloc, acts, order, acting, &writes)?,
    };
    Ok(Gift {
        allowed,
        source,
        unknown,
    })
}

/// Returns what the act at the position, which is this deed of this node, is about. It fails if memory runs out.
pub(crate) fn about(
    alloc: Global,
    acts: &[Act],
    order: &Order,
    acting: u8,
    deed: Deed,
    position: usize,
) -> Result<About, AllocError>
    requires order { IsOrderOf acts.now order.now }
    requires within { position < length acts.now }
    requires does { Does acts.now position acting deed }
    ensures { IfOk result (IsAbout acts.now acting position deed) }
{
    match deed {
        Deed::Trap(cause) => Ok(About::Trapped(cause)),
        Deed::Read(word, value) => {
            let gift = gift(alloc, acts, order, acting, position, word, value)?;
            Ok(About::Gives(gift))
        }
        Deed::Acquire(lock) => Ok(About::Follows(last_release(acts, lock, position))),
        Deed::Arrive => Ok(About::Comes(arrives_at(acts, acting, position) + 1)),
        Deed::Depart => Ok(About::GoesOn(departs_at(acts, acting, position) + 1)),
        _ => Ok(About::Nothing),
    }
}
