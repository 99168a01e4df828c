// The locks that a node manages.

ghost use Rattle.std.specs.Prelude.{◌≡◌, ◌<◌, ◌≤◌, ◌==◌, IfOk, None, Some, if◌then◌else◌, length, slice_index};
ghost use Rattle.lrc_lock.specs.Lock.{manager_of};
ghost use Rattle.lrc_lock.specs.Managed.{first_managed, requested, request_answer, managed_after, SameManager};

use crate::fault::LockFault;
use crate::state::MOST_LOCKS;
use arrayvec::ArrayVec;
use std::marker::Model;

/// The last asker of each lock that a node manages. Node `l % nodes` manages lock `l`. It has the lock's token at the
/// start, and counts as its first asker.
#[derive(Drop)]
pub struct Managed {
    me: u8,
    nodes: u8,
    recent: ArrayVec<u8, MOST_LOCKS>,
}

impl Model for Managed {
    ghost use Rattle.lrc_lock.specs.Managed.{ManagedRecord, IsManaged};

    ghost Value = { ManagedRecord };

    ghost view = { λ m. record { me = m.me; nodes = m.nodes; recent = m.recent.items } };

    ghost invariant = { λ m. IsManaged (record { me = m.me; nodes = m.nodes; recent = m.recent.items }) };
}

impl Managed {
    /// Returns what node `me` of 1 to 16 nodes manages of at most 64 locks, before any request.
    pub fn new(me: u8, nodes: u8, locks: u8) -> Self
        requires here { me < nodes }
        requires few { nodes ≤ 16 }
        requires room { locks ≤ 64 }
        ensures { result ≡ first_managed me nodes locks }
    {
        let mut recent = ArrayVec::new();
        for lock in 0..locks {
            recent.push(lock % nodes);
        }
        Managed { me, nodes, recent }
    }

    /// Returns the last node to ask for the lock, or none if another node manages it.
    pub fn last_asker(&self, lock: u8) -> Option<u8>
        requires { lock < length self.now.recent }
        ensures { result ≡ (if manager_of self.now.nodes lock == self.now.me then Some
            (slice_index self.now.recent lock) else None) }
    {
        if lock % self.nodes != self.me {
            return None;
        }
        Some(self.recent[usize::from(lock)])
    }

    /// Returns the node to which a request is forwarded, the last one that asked before, and notes `asker` as the last.
    /// If another node manages the lock, the request is refused with `NotMine`, and nothing changes.
    pub fn request(&mut self, lock: u8, asker: u8) -> Result<u8, LockFault>
        requires lock { lock < length self.old.recent }
        requires asker { asker < self.old.nodes }
        ensures answer { result ≡ request_answer (requested self.old lock asker) }
        ensures managed { self.new ≡ managed_after self.old (requested self.old lock asker) }
        ensures place { SameManager self.old self.new }
        ensures to { IfOk result (λ to. to < self.old.nodes) }
    {
        if lock % self.nodes != self.me {
            return Err(LockFault::NotMine);
        }
        let place = usize::from(lock);
        let last = self.recent[place];
        self.recent[place] = asker;
        Ok(last)
    }
}
