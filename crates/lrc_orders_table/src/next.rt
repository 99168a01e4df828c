// What a settled thread does next, and what comes of it.

ghost use Rattle.std.specs.Prelude.{◌≡◌, ◌≤◌, IfOk, MatchOption, Some, false, filter, length};
ghost use Rattle.std.specs.List.{list_any};
ghost use Rattle.lrc_exec.specs.Ask.{ask_of, TakesAnswer};
ghost use Rattle.lrc_exec.specs.Meaning.{next_of as next_of_thread};
ghost use Rattle.lrc_exec.specs.Spots.{spot_thread, thread_at, IsFlat};
ghost use Rattle.lrc_orders.specs.Traps.{is_trap};
ghost use Rattle.lrc_orders_settling.specs.Settling.{MakesFree};
ghost use Rattle.lrc_orders_table.specs.Nexts.{SettlesSo, is_seen, next_in, thread_then};

use lrc_exec::machine::Ask;
use lrc_exec::spot::{Flat, Spot};
use lrc_orders::traps::is_trap;
use lrc_orders_settling::settle::kept_spot;
use lrc_orders_settling::settling::{Settling, settle_thread};
use lrc_trace::act::Deed;
use std::alloc::{AllocError, Global};

/// What a settled thread does next.
#[derive(Clone, Copy, PartialEq, Eq)]
pub enum Next {
    /// It does nothing: it has stopped for good.
    Stopped,
    /// It departs, once all nodes have arrived.
    Waits,
    /// It makes quiet acts and prints, without end.
    Turns,
    /// It reads this word.
    Reads(u32),
    /// It writes this value to this word.
    Writes(u32, u64),
    /// It acquires this lock, once that is free.
    Acquires(u8),
}

/// Where a thread settled, and those of its deeds that others can see or that are noted.
#[derive(Drop)]
pub struct Settled {
    pub spot: Spot,
    pub deeds: Vec<Deed>,
}

/// Returns whether one of the deeds is a trap.
pub(crate) fn has_trap_deed(deeds: &[Deed]) -> bool
    ensures { result ≡ list_any is_trap deeds.now }
{
    deeds.iter().any(|deed| is_trap(*deed))
}

/// Returns what a settled thread does next.
pub fn next_of(flat: &Flat, spot: &Spot) -> Next
    requires flat { IsFlat flat.now }
    requires within { spot.now.place ≤ length flat.now.code.now }
    ensures { result ≡ next_in flat.now spot.now }
{
    if spot.stopped {
        return Next::Stopped;
    }
    if spot.arrived {
        return Next::Waits;
    }
    match flat.ask(spot) {
        Ask::Read(word) => Next::Reads(word),
        Ask::Write(word, value) => Next::Writes(word, value),
        Ask::Acquire(lock) => Next::Acquires(lock),
        _ => Next::Turns,
    }
}

/// Returns where a settled thread settles after its next act, if that act gives this value. Returns none if the thread
/// makes as many free acts as are looked at. It fails if memory runs out.
pub fn settled_after(
    alloc: Global,
    flat: &Flat,
    spot: &Spot,
    value: u64,
    looked: u64,
) -> Result<Option<Settled>, AllocError>
    requires flat { IsFlat flat.now }
    requires within { spot.now.place ≤ length flat.now.code.now }
    requires going { spot.now.stopped ≡ false }
    requires takes { spot.now.arrived ≡ false
        → TakesAnswer (ask_of (next_of_thread (thread_at flat.now spot.now))) }
    ensures { IfOk result (λ settled. MatchOption settled
        (MakesFree looked (Some (thread_then flat.now spot.now value)))
        (SettlesSo flat.now spot.now value)) }
{
    let there = after_act(flat, spot, value);
    match settle_thread(alloc, flat, &there, looked)? {
        Settling::Waits(last, deeds) => Ok(Some(Settled {
            spot: kept_spot(last, spot.me),
            deeds: seen(alloc, &deeds)?,
        })),
        Settling::Turns(last, deeds) => Ok(Some(Settled {
            spot: kept_spot(last, spot.me),
            deeds: seen(alloc, &deeds)?,
        })),
        Settling::Open => Ok(None),
    }
}

// The thread after its next act.
fn after_act(flat: &Flat, spot: &Spot, value: u64) -> Spot
    requires flat { IsFlat flat.now }
    requires within { spot.now.place ≤ length flat.now.code.now }
    requires going { spot.now.stopped ≡ false }
    requires takes { spot.now.arrived ≡ false
        → TakesAnswer (ask_of (next_of_thread (thread_at flat.now spot.now))) }
    ensures thread { spot_thread flat.now result ≡ Some (thread_then flat.now spot.now value) }
    ensures within { result.place ≤ length flat.now.code.now }
{
    let mut there = *spot;
    if there.arrived {
        there.arrived = false;
    } else {
        flat.answer(&mut there, value);
    }
    there
}

// The deeds that others can see, or that are noted.
fn seen(alloc: Global, deeds: &[Deed]) -> Result<Vec<Deed>, AllocError>
    ensures { IfOk result (λ seen. seen.items ≡ filter is_seen deeds.now) }
{
    deeds
        .iter()
        .copied()
        .filter(|deed| is_seen(*deed))
        .collect(alloc)
}

// Whether others can see a free deed, or it is noted.
fn is_seen(deed: Deed) -> bool
    ensures { result ≡ is_seen deed }
{
    matches!(
        deed,
        Deed::Release(_) | Deed::Print(_) | Deed::Trap(_) | Deed::End
    )
}
