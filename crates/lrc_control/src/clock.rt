// A node's clock, the tokens that it has or awaits, and the locks that it manages.

ghost use Rattle.std.specs.Prelude.{◌≡◌, ℕ, ◌+◌, ◌<◌, ◌≤◌, List, IfOk, IfSome, IsTrue, Ok, length};
ghost use Rattle.lrc_time.specs.Time.{entry};
ghost use Rattle.lrc_lock.specs.Held.{asked, forwarded, granted, held_after, is_free, is_held, lock_at, pass_of, released, taken, is_taken};
ghost use Rattle.lrc_lock.specs.Held.{is_awaited};
ghost use Rattle.lrc_lock.specs.Lock.{IsPass, manager_of};
ghost use Rattle.lrc_lock.specs.Managed.{managed_after, requested, request_answer};
ghost use Rattle.lrc_lock.specs.declared.state.LockState.TheVariants.{Away};
ghost use Rattle.lrc_protocol.specs.Times.{next_time, MOST_NUMBER};
ghost use Rattle.lrc_protocol.specs.Locks.{fresh_locks, ticked, with_held, with_managed, with_joined_time};
ghost use Rattle.lrc_control.specs.Clock.{IsClock, SameClock};

use lrc_lock::{Held, Managed, Pass};
use lrc_time::Time;
use std::alloc::{AllocError, Global};
use std::marker::Model;

/// A node's time, which counts closed intervals, with its knowledge of each lock's token, and the last node to ask for
/// each lock that it manages.
#[derive(Drop)]
pub struct Clock {
    me: u8,
    time: Time,
    // By far the largest part, so it is on the heap and stays there when a node moves.
    held: Box<Held>,
    managed: Managed,
}

impl Model for Clock {
    ghost use Rattle.lrc_protocol.specs.Locks.{Locks};
    ghost use Rattle.lrc_control.specs.Clock.{IsClock};

    ghost Value = { Locks };

    ghost view = { λ c. record { time = c.time; held = c.held.value; managed = c.managed } };

    ghost invariant = { λ c. IsClock c.me (record { time = c.time; held = c.held.value; managed = c.managed }) };
}

impl Clock {
    /// Creates the clock of node `me` in a run of 1 to 16 nodes, at the start, with at most 64 locks.
    pub fn new(alloc: Global, me: u8, nodes: u8, locks: u8) -> Result<Clock, AllocError>
        requires here { me < nodes }
        requires few { nodes ≤ 16 }
        requires room { locks ≤ 64 }
        ensures { IfOk result (λ clock. clock ≡ fresh_locks me nodes locks) }
    {
        let held = Box::new(alloc, Held::new(me, nodes, locks))?;
        Ok(Clock {
            me,
            time: Time::new(nodes),
            held,
            managed: Managed::new(me, nodes, locks),
        })
    }

    /// Returns what the node knows of each lock's token.
    pub fn held(&self) -> &Held
        ensures { result.now ≡ self.now.held }
    {
        &self.held
    }

    /// Returns the last node to ask for each lock that this node manages.
    pub fn managed(&self) -> &Managed
        ensures { result.now ≡ self.now.managed }
    {
        &self.managed
    }

    /// Returns the node's time.
    pub fn time(&self) -> &Time
        ensures time { result.now ≡ self.now.time }
        ensures is { IsClock self.now.held.me self.now }
    {
        &self.time
    }

    /// Returns the index of the node's newest closed interval, or 0 if it has closed none.
    pub fn index(&self) -> u32
        ensures { result ≡ entry self.now.time self.now.held.me }
    {
        self.time.at(self.me)
    }

    /// Returns the stamp that the open interval has or would have: the node's time with its own entry plus one.
    pub fn next(&self) -> Time
        requires { entry self.now.time self.now.held.me < MOST_NUMBER }
        ensures stamp { result ≡ next_time self.now.held.me self.now.time }
        ensures own { entry result self.now.held.me ≡ entry self.now.time self.now.held.me + 1 }
        ensures counted { length result ≡ length self.now.time }
    {
        let mut time = self.time.copy();
        let next = time.at(self.me) + 1;
        time.raise(self.me, next);
        time
    }

    /// Counts the open interval as closed.
    pub fn tick(&mut self)
        requires { entry self.old.time self.old.held.me < MOST_NUMBER }
        ensures clock { self.new ≡ ticked self.old.held.me self.old }
        ensures same { SameClock self.old self.new }
    {
        self.time = self.next();
    }

    /// Joins this time to the node's time.
    pub fn learn(&mut self, time: &Time)
        requires { length time.now ≡ length self.old.time }
        ensures clock { self.new ≡ with_joined_time time.now self.old }
        ensures same { SameClock self.old self.new }
    {
        self.time.join(time);
    }

    /// Takes the lock if its token is here and the lock is free, and returns whether it did.
    pub fn try_local(&mut self, lock: u8) -> bool
        requires { lock < length self.old.held.locks }
        ensures answer { result ≡ is_free (lock_at self.old.held lock) }
        ensures clock { self.new ≡ with_held (taken self.old.held lock) self.old }
        ensures same { SameClock self.old self.new }
    {
        self.held.try_local(lock)
    }

    /// Notes that the node has asked for the token. The token must be neither here nor awaited.
    pub fn ask(&mut self, lock: u8)
        requires lock { lock < length self.old.held.locks }
        requires away { lock_at self.old.held lock ≡ Away }
        ensures clock { self.new ≡ with_held (asked self.old.held lock) self.old }
        ensures same { SameClock self.old self.new }
    {
        self.held.ask(lock);
    }

    /// Releases a lock that the node holds, at the node's present time. It returns the pass to the successor, if there
    /// is one.
    pub fn release(&mut self, lock: u8) -> Option<Pass>
        requires lock { lock < length self.old.held.locks }
        requires held { IsTrue (is_held (lock_at self.old.held lock)) }
        ensures answer { result ≡ pass_of (released self.old.held lock self.old.time) }
        ensures clock { self.new ≡ with_held (held_after self.old.held lock
            (released self.old.held lock self.old.time)) self.old }
        ensures same { SameClock self.old self.new }
        ensures pass { IfSome result (IsPass self.old.held.me (length self.old.time)) }
    {
        let now = self.time.copy();
        self.held.release(lock, now)
    }

    /// Returns whether another node's request would be taken now, if it were forwarded to this node.
    pub fn accepts(&self, lock: u8, asker: u8) -> bool
        requires { lock < length self.now.held.locks }
        ensures { (time : List ℕ) → result ≡ is_taken (forwarded self.now.held lock asker time) }
    {
        self.held.accepts(lock, asker)
    }

    /// Takes another node's request, with its time, that was forwarded to this node. It returns a pass if the token
    /// leaves at once.
    pub fn forward(&mut self, lock: u8, asker: u8, time: Time) -> Option<Pass>
        requires lock { lock < length self.old.held.locks }
        requires asker { asker < length self.old.time }
        requires counted { length time ≡ length self.old.time }
        requires taken { IsTrue (is_taken (forwarded self.old.held lock asker time)) }
        ensures answer { result ≡ pass_of (forwarded self.old.held lock asker time) }
        ensures clock { self.new ≡ with_held (held_after self.old.held lock
            (forwarded self.old.held lock asker time)) self.old }
        ensures same { SameClock self.old self.new }
        ensures pass { IfSome result (IsPass self.old.held.me (length self.old.time)) }
    {
        let Ok(pass) = self.held.forward(lock, asker, time) else {
            unreachable!()
        };
        pass
    }

    /// Notes that the awaited token has arrived. The node holds the lock.
    pub fn granted(&mut self, lock: u8)
        requires lock { lock < length self.old.held.locks }
        requires awaited { IsTrue (is_awaited (lock_at self.old.held lock)) }
        ensures clock { self.new ≡ with_held (held_after self.old.held lock
            (granted self.old.held lock)) self.old }
        ensures same { SameClock self.old self.new }
    {
        let Ok(()) = self.held.granted(lock) else {
            unreachable!()
        };
    }

    /// Returns the node to which a request for a lock managed here is forwarded. From then on the asker is the last
    /// node to have asked.
    pub fn request(&mut self, lock: u8, asker: u8) -> u8
        requires lock { lock < length self.old.held.locks }
        requires asker { asker < length self.old.time }
        requires managed { manager_of self.old.managed.nodes lock ≡ self.old.managed.me }
        ensures answer { request_answer (requested self.old.managed lock asker) ≡ Ok result }
        ensures clock { self.new ≡ with_managed (managed_after self.old.managed
            (requested self.old.managed lock asker)) self.old }
        ensures same { SameClock self.old self.new }
        ensures to { result < length self.old.time }
    {
        let Ok(to) = self.managed.request(lock, asker) else {
            unreachable!()
        };
        to
    }
}
