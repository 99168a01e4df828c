// What a node knows of one lock.

ghost use Rattle.std.specs.Prelude.{◌≡◌, ℕ, ◌<◌, ◌≤◌, is_ok};
ghost use Rattle.lrc_lock.specs.Held.{answer_of, first_state, forwarded_at, grant_answer, granted_at, is_free, pass_of, pass_to, released_at, state_after};

use crate::fault::LockFault;
use lrc_time::Time;

/// The largest number of locks.
pub const MOST_LOCKS: usize = 64;

/// A node that waits for a token, with the time of its request.
#[derive(Drop)]
pub struct Waiter {
    pub node: u8,
    pub time: Time,
}

/// A token that leaves for another node, with a grant.
#[derive(Drop)]
pub struct Pass {
    /// The lock, counted from 0.
    pub lock: u8,
    /// The node that gets the token.
    pub to: u8,
    /// The time of that node's request.
    pub since: Time,
    /// The time of the last release of this lock here, all zeros before the first.
    pub upto: Time,
}

/// What a node knows of one lock. Its successor is the node that gets the token next.
#[derive(Default, Drop)]
pub enum LockState {
    /// The token is at another node, or on its way to one.
    #[default]
    Away,
    /// The node has asked for the token. Its successor may have asked already.
    Awaited(Option<Waiter>),
    /// The token is here and the lock is free. The time is that of the last release here, all zeros before the first.
    Free(Time),
    /// The node holds the lock. Its successor may have asked already.
    Held(Option<Waiter>),
}

impl Waiter {
    // The grant of this lock to the waiter.
    fn pass(self, lock: u8, upto: Time) -> Pass
        ensures { result ≡ pass_to lock self upto }
    {
        Pass {
            lock,
            to: self.node,
            since: self.time,
            upto,
        }
    }
}

impl LockState {
    /// Returns what node `me` knows of a lock at the start.
    pub(crate) fn first(me: u8, nodes: u8, lock: u8) -> Self
        requires some { 1 ≤ nodes }
        requires few { nodes ≤ 16 }
        ensures { result ≡ first_state me nodes lock }
    {
        if lock % nodes == me {
            LockState::Free(Time::new(nodes))
        } else {
            LockState::Away
        }
    }

    /// Returns whether the token is here and the lock is free.
    pub(crate) fn is_free(&self) -> bool
        ensures { result ≡ is_free self.now }
    {
        matches!(self, LockState::Free(_))
    }

    /// Returns whether another node's request would be accepted now.
    pub(crate) fn accepts(&self) -> bool
        ensures { (lock : ℕ) (waiter : Waiter)
            → result ≡ is_ok (answer_of (forwarded_at lock waiter self.now)) }
    {
        matches!(
            self,
            LockState::Awaited(None) | LockState::Held(None) | LockState::Free(_)
        )
    }

    /// Takes another node's request. The result is a pass if the lock is free here, and none if the waiter becomes the
    /// successor. A refusal changes nothing: `NotMine` if the token is neither here nor awaited, `SecondSuccessor` if
    /// there is a successor already.
    pub(crate) fn forward(&mut self, lock: u8, waiter: Waiter) -> Result<Option<Pass>, LockFault>
        ensures answer { result ≡ answer_of (forwarded_at lock waiter self.old) }
        ensures state { self.new ≡ state_after self.old (forwarded_at lock waiter self.old) }
    {
        match self {
            LockState::Away => Err(LockFault::NotMine),
            LockState::Awaited(Some(_)) | LockState::Held(Some(_)) => {
                Err(LockFault::SecondSuccessor)
            }
            LockState::Awaited(None) => {
                *self = LockState::Awaited(Some(waiter));
                Ok(None)
            }
            LockState::Held(None) => {
                *self = LockState::Held(Some(waiter));
                Ok(None)
            }
            LockState::Free(kept) => {
                let upto = kept.copy();
                *self = LockState::Away;
                Ok(Some(waiter.pass(lock, upto)))
            }
        }
    }

    /// Takes the token, and the node then holds the lock; a successor stays. If the token is not awaited, it is refused
    /// with `NotAsked`, and nothing changes.
    pub(crate) fn granted(&mut self) -> Result<(), LockFault>
        ensures answer { result ≡ grant_answer (granted_at self.old) }
        ensures state { self.new ≡ state_after self.old (granted_at self.old) }
    {
        match self {
            LockState::Awaited(successor) => {
                let successor = successor.take();
                *self = LockState::Held(successor);
                Ok(())
            }
            LockState::Away | LockState::Free(_) | LockState::Held(_) => Err(LockFault::NotAsked),
        }
    }

    /// Releases the lock at the given time. With a successor, the token leaves for it; without one, it stays here and
    /// there is no pass. If the node does not hold the lock, nothing changes.
    pub(crate) fn release(&mut self, lock: u8, now: Time) -> Option<Pass>
        ensures answer { result ≡ pass_of (released_at lock now self.old) }
        ensures state { self.new ≡ state_after self.old (released_at lock now self.old) }
    {
        let LockState::Held(successor) = self else {
            return None;
        };
        match successor.take() {
            Some(waiter) => {
                *self = LockState::Away;
                Some(waiter.pass(lock, now))
            }
            None => {
                *self = LockState::Free(now);
                None
            }
        }
    }
}
