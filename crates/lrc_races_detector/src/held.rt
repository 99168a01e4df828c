// Who holds each lock.
ghost use Rattle.std.specs.Prelude.{◌≡◌, ◌+◌, ◌^◌, ◌<◌, ◌↔◌, ℕ, List, IfSome, IsTrue, MatchOption, OnOk};
ghost use Rattle.lrc_races_trace.specs.declared.event.Event.{Event};
ghost use Rattle.lrc_races_trace.specs.Trace.{At};
ghost use Rattle.lrc_races_trace.specs.Formed.{Holds, IsHeldBy, after_acquire, after_release};
ghost use Rattle.lrc_races_detector.specs.Held.{holder_of, IsHolderSet, AreHolders, HasNoLockFault, IsOfLock};

use lrc_races_trace::event::{Event, Operation};
use lrc_races_trace::fault::{Holder, Reason};
use std::alloc::{AllocError, Global};

/// The holder of each lock.
#[derive(Drop)]
pub struct Holders {
    holders: Vec<Option<Holder>>,
}

// An acquire of a lock with this holder.
fn after_acquire(holder: Option<Holder>, event: Event) -> Option<Holder>
    ensures { IfSome holder (λ holder. holder.depth + 1 < 2 ^ 64)
        → result ≡ after_acquire event holder }
{
    match holder {
        None => Some(Holder {
            thread: event.thread,
            depth: 1,
            line: event.line,
        }),
        Some(holder) => {
            if holder.thread == event.thread {
                Some(Holder {
                    thread: holder.thread,
                    depth: holder.depth.saturating_add(1),
                    line: holder.line,
                })
            } else {
                Some(holder)
            }
        }
    }
}

// A release of one.
fn after_release(holder: Option<Holder>, event: Event) -> Option<Holder>
    ensures { result ≡ after_release event holder }
{
    let holder = holder?;
    if holder.thread != event.thread {
        return Some(holder);
    }
    if holder.depth == 1 {
        return None;
    }
    Some(Holder {
        thread: holder.thread,
        depth: holder.depth.saturating_sub(1),
        line: holder.line,
    })
}

// Whether the holder is the thread.
fn is_held_by(holder: Option<Holder>, thread: u32) -> bool
    ensures { IsTrue result ↔ IsHeldBy holder thread }
{
    match holder {
        Some(holder) => holder.thread == thread,
        None => false,
    }
}

impl Holders {
    /// Returns the holders before any event.
    pub fn new(alloc: Global) -> Holders
        ensures { (events : List Event) → AreHolders events 0 result }
    {
        Holders {
            holders: Vec::new(alloc),
        }
    }

    /// Returns the holder of the lock, or none if it is free.
    pub fn holder(&self, lock: usize) -> Option<Holder>
        ensures { result ≡ holder_of self.now lock }
    {
        match self.holders.get(lock) {
            Some(holder) => *holder,
            None => None,
        }
    }

    fn set(&mut self, lock: usize, holder: Option<Holder>) -> Result<(), AllocError>
        ensures { OnOk result (IsHolderSet self.old self.new lock holder) }
    {
        while self.holders.len() <= lock {
            self.holders.push(None)?;
        }
        self.holders[lock] = holder;
        Ok(())
    }

    /// Returns what is wrong with the next event at the lock that it acquires or releases: another thread holds the
    /// lock, or its own thread does not. Returns none if nothing is wrong.
    pub fn fault(&self, event: Event) -> Option<Reason>
        ensures { (events : List Event) (n : ℕ) → AreHolders events n self.now
            → MatchOption result (HasNoLockFault events n event)
            (λ reason. IsOfLock reason × Holds events n event reason) }
    {
        match event.operation {
            Operation::Acquire(lock) => {
                let holder = self.holder(lock as usize)?;
                if holder.thread == event.thread {
                    return None;
                }
                Some(Reason::Held {
                    lock,
                    thread: holder.thread,
                    line: holder.line,
                })
            }
            Operation::Release(lock) => {
                if is_held_by(self.holder(lock as usize), event.thread) {
                    return None;
                }
                Some(Reason::NotHeld { lock })
            }
            _ => None,
        }
    }

    /// Takes the next event of a trace. It fails if memory runs out, and then the holders are of no use.
    pub fn take(&mut self, event: Event) -> Result<(), AllocError>
        ensures { OnOk result ((events : List Event) (n : ℕ) → n + 1 < 2 ^ 64 → At events n event
            → AreHolders events n self.old
            → AreHolders events (n + 1) self.new) }
    {
        match event.operation {
            Operation::Acquire(lock) => {
                let holder = self.holder(lock as usize);
                self.set(lock as usize, after_acquire(holder, event))?;
                Ok(())
            }
            Operation::Release(lock) => {
                let holder = self.holder(lock as usize);
                self.set(lock as usize, after_release(holder, event))?;
                Ok(())
            }
            _ => Ok(()),
        }
    }
}
