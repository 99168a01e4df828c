// The tokens at one node.

ghost use Rattle.std.specs.Prelude.{◌≡◌, ℕ, ◌<◌, ◌≤◌, List, IfOk, IfSome, IsTrue, is_ok, length};
ghost use Rattle.lrc_lock.specs.Held.{first_held, lock_at, held_after, answer_of, grant_answer, pass_of, is_free};
ghost use Rattle.lrc_lock.specs.Held.{is_held, taken, asked, forwarded, granted, released, SamePlace};
ghost use Rattle.lrc_lock.specs.Lock.{IsPass};
ghost use Rattle.lrc_lock.specs.declared.state.LockState.TheVariants.{Away};

use crate::fault::LockFault;
use crate::state::{LockState, MOST_LOCKS, Pass, Waiter};
use arrayvec::ArrayVec;
use lrc_time::Time;
use std::marker::Model;

/// What a node knows of each lock: where the token is, which node has it next, and the time of the last release here.
#[derive(Drop)]
pub struct Held {
    me: u8,
    nodes: u8,
    locks: ArrayVec<LockState, MOST_LOCKS>,
}

impl Model for Held {
    ghost use Rattle.lrc_lock.specs.Held.{HeldRecord, IsHeld};

    ghost Value = { HeldRecord };

    ghost view = { λ h. record { me = h.me; nodes = h.nodes; locks = h.locks.items } };

    ghost invariant = { λ h. IsHeld (record { me = h.me; nodes = h.nodes; locks = h.locks.items }) };
}

impl Held {
    /// Returns what node `me` of 1 to 16 nodes knows of at most 64 locks at the start. It has the tokens of exactly the
    /// locks that it manages.
    pub fn new(me: u8, nodes: u8, locks: u8) -> Self
        requires here { me < nodes }
        requires few { nodes ≤ 16 }
        requires room { locks ≤ 64 }
        ensures { result ≡ first_held me nodes locks }
    {
        let mut states = ArrayVec::new();
        for lock in 0..locks {
            states.push(LockState::first(me, nodes, lock));
        }
        Held {
            me,
            nodes,
            locks: states,
        }
    }

    /// Returns what the node knows of a lock.
    pub fn state(&self, lock: u8) -> &LockState
        requires { lock < length self.now.locks }
        ensures { result.now ≡ lock_at self.now lock }
    {
        &self.locks[usize::from(lock)]
    }

    /// Takes the lock if its token is here and the lock is free. Returns whether it did.
    pub fn try_local(&mut self, lock: u8) -> bool
        requires { lock < length self.old.locks }
        ensures answer { result ≡ is_free (lock_at self.old lock) }
        ensures held { self.new ≡ taken self.old lock }
        ensures place { SamePlace self.old self.new }
    {
        let state = &mut self.locks[usize::from(lock)];
        let free = state.is_free();
        if free {
            *state = LockState::Held(None);
        }
        free
    }

    /// Notes that the node has asked for the token. The token is neither here nor already awaited.
    pub fn ask(&mut self, lock: u8)
        requires lock { lock < length self.old.locks }
        requires away { lock_at self.old lock ≡ Away }
        ensures held { self.new ≡ asked self.old lock }
        ensures place { SamePlace self.old self.new }
    {
        self.locks[usize::from(lock)] = LockState::Awaited(None);
    }

    /// Returns whether the asker's request would be accepted if it arrived now.
    pub fn accepts(&self, lock: u8, asker: u8) -> bool
        requires { lock < length self.now.locks }
        ensures { (time : List ℕ) → result
            ≡ is_ok (answer_of (forwarded self.now lock asker time)) }
    {
        asker != self.me && self.locks[usize::from(lock)].accepts()
    }

    /// Takes another node's request, with its time. If the token is here and the lock is free, the token leaves at
    /// once: the pass has the time of the last release here. If the node holds the lock or awaits the token, the asker
    /// becomes its successor, and there is no pass.
    ///
    /// A refusal changes nothing. The reasons, in this order: `NotMine` if the asker is this node, or if the token is
    /// neither here nor awaited; `SecondSuccessor` if there is a successor already.
    pub fn forward(&mut self, lock: u8, asker: u8, time: Time) -> Result<Option<Pass>, LockFault>
        requires lock { lock < length self.old.locks }
        requires asker { asker < self.old.nodes }
        requires counted { length time ≡ self.old.nodes }
        ensures answer { result ≡ answer_of (forwarded self.old lock asker time) }
        ensures held { self.new ≡ held_after self.old lock (forwarded self.old lock asker time) }
        ensures place { SamePlace self.old self.new }
        ensures pass { IfOk result (λ answer. IfSome answer (IsPass self.old.me self.old.nodes)) }
    {
        if asker == self.me {
            return Err(LockFault::NotMine);
        }
        let state = &mut self.locks[usize::from(lock)];
        state.forward(lock, Waiter { node: asker, time })
    }

    /// Takes the token, and the node then holds the lock; a successor stays. If the token is not awaited, it is refused
    /// with `NotAsked`, and nothing changes.
    pub fn granted(&mut self, lock: u8) -> Result<(), LockFault>
        requires { lock < length self.old.locks }
        ensures answer { result ≡ grant_answer (granted self.old lock) }
        ensures held { self.new ≡ held_after self.old lock (granted self.old lock) }
        ensures place { SamePlace self.old self.new }
    {
        self.locks[usize::from(lock)].granted()
    }

    /// Releases a lock, which the node holds, at the given time. With a successor, the token leaves for it with this
    /// time. Without one, the token stays here with this time, and there is no pass.
    pub fn release(&mut self, lock: u8, now: Time) -> Option<Pass>
        requires lock { lock < length self.old.locks }
        requires held { IsTrue (is_held (lock_at self.old lock)) }
        requires counted { length now ≡ self.old.nodes }
        ensures answer { result ≡ pass_of (released self.old lock now) }
        ensures held { self.new ≡ held_after self.old lock (released self.old lock now) }
        ensures place { SamePlace self.old self.new }
        ensures pass { IfSome result (IsPass self.old.me self.old.nodes) }
    {
        self.locks[usize::from(lock)].release(lock, now)
    }
}
