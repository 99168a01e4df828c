// Settling one thread: the free acts that it makes by itself.

ghost use Rattle.std.specs.Prelude.{◌≡◌, ◌≤◌, ◌||◌, [], length, false, IfOk};
ghost use Rattle.lrc_exec.specs.Spots.{spot_thread, IsFlat};
ghost use Rattle.lrc_orders_settling.specs.Settling.{is_free_ask, is_last_ask, is_barrier_ask, is_quiet_deed, MakesNext, EndsSo, IsSettling};

use crate::turning::{Course, course_of};
use lrc_exec::machine::Ask;
use lrc_exec::spot::{Flat, Spot};
use lrc_trace::act::Deed;
use std::alloc::{AllocError, Global};

/// The result of settling a thread.
#[derive(Drop)]
pub enum Settling {
    /// By these deeds the thread reaches a point where its next act is not free, or where it has stopped.
    Waits(Spot, Vec<Deed>),
    /// By these deeds the thread reaches a point from which it turns for ever.
    Turns(Spot, Vec<Deed>),
    /// The limit on the acts to look at was reached.
    Open,
}

// How the free acts of a thread end.
#[derive(Clone, Copy)]
enum Ending {
    Waits,
    Turns,
    Open,
}

/// Settles a thread. It makes the free acts that come, until the next act is not free or the thread turns for ever. It
/// looks at no more than `most` acts. For a thread that turns for ever it makes no quiet act and no print. It fails if
/// memory runs out.
pub fn settle_thread(
    alloc: Global,
    flat: &Flat,
    spot: &Spot,
    most: u64,
) -> Result<Settling, AllocError>
    requires flat { IsFlat flat.now }
    requires within { spot.now.place ≤ length flat.now.code.now }
    ensures { IfOk result (λ settling.
        IsSettling flat.now (spot_thread flat.now spot.now) most settling) }
{
    let mut there = *spot;
    let mut deeds = Vec::new(alloc);
    let ending = make_free_acts(flat, &mut there, &mut deeds, most)?;
    Ok(match ending {
        Ending::Waits => Settling::Waits(there, deeds),
        Ending::Turns => Settling::Turns(there, deeds),
        Ending::Open => Settling::Open,
    })
}

// Makes the free acts of a thread, and notes them.
fn make_free_acts(
    flat: &Flat,
    spot: &mut Spot,
    deeds: &mut Vec<Deed>,
    most: u64,
) -> Result<Ending, AllocError>
    requires flat { IsFlat flat.now }
    requires within { spot.old.place ≤ length flat.now.code.now }
    requires empty { deeds.old.items ≡ [] }
    ensures ends { IfOk result (λ ending. EndsSo
        (spot_thread flat.now spot.old) most deeds.new.items
        (spot_thread flat.now spot.new) ending) }
    ensures within { spot.new.place ≤ length flat.now.code.now }
{
    let mut stops = false;
    for step in 0..most {
        if is_out(spot) {
            return Ok(Ending::Waits);
        }
        if !stops {
            match course_of(flat, spot, most - step) {
                Course::Turns => return Ok(Ending::Turns),
                Course::Open => return Ok(Ending::Open),
                Course::Stops => {}
            }
        }
        let Some(deed) = make_free_act(flat, spot) else {
            return Ok(Ending::Waits);
        };
        stops = is_quiet_made(deed);
        deeds.push(deed)?;
    }
    Ok(Ending::Open)
}

// Whether a thread is at a barrier, or has stopped for good.
fn is_out(spot: &Spot) -> bool
    ensures { result ≡ (spot.now.stopped || spot.now.arrived) }
{
    spot.stopped || spot.arrived
}

// Makes the next act of a thread, if that is free.
fn make_free_act(flat: &Flat, spot: &mut Spot) -> Option<Deed>
    requires flat { IsFlat flat.now }
    requires within { spot.old.place ≤ length flat.now.code.now }
    requires going { spot.old.stopped ≡ false }
    requires not_arrived { spot.old.arrived ≡ false }
    ensures makes { MakesNext flat.now spot.old result spot.new }
    ensures within { spot.new.place ≤ length flat.now.code.now }
{
    let ask = flat.ask(spot);
    if !is_free(ask) {
        return None;
    }
    if is_last(ask) {
        spot.stopped = true;
    } else {
        flat.answer(spot, 0);
        spot.arrived = is_barrier(ask);
    }
    Some(ask.deed(0))
}

// Whether a free act of a thread at no barrier is asked for.
fn is_free(ask: Ask) -> bool
    ensures { result ≡ is_free_ask ask }
{
    !matches!(ask, Ask::Read(_) | Ask::Write(..) | Ask::Acquire(_))
}

// Whether a thread stops for good.
fn is_last(ask: Ask) -> bool
    ensures { result ≡ is_last_ask ask }
{
    matches!(ask, Ask::Trap(_) | Ask::End)
}

// Whether a thread comes to a barrier.
fn is_barrier(ask: Ask) -> bool
    ensures { result ≡ is_barrier_ask ask }
{
    matches!(ask, Ask::Barrier)
}

// Whether this was a quiet act or a print.
fn is_quiet_made(deed: Deed) -> bool
    ensures { result ≡ is_quiet_deed deed }
{
    matches!(deed, Deed::Quiet | Deed::Print(_))
}
