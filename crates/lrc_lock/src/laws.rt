// What always holds of tokens. Each function is a law: its clauses are the statement, and there is nothing to do.

ghost use Rattle.std.specs.Prelude.{◌≡◌, ◌≢◌, ◌↔◌, ℕ, ◌<◌, ◌≤◌, IsTrue, IsFalse, List, Option, Some, None, length};
ghost use Rattle.lrc_lock.specs.declared.state.Pass.{Pass};
ghost use Rattle.lrc_lock.specs.declared.state.Waiter.{Waiter};
ghost use Rattle.lrc_lock.specs.declared.state.LockState.TheVariants.{Away, Awaited, Free, Held};
ghost use Rattle.lrc_lock.specs.declared.state.LockState.{LockState};
ghost use Rattle.lrc_lock.specs.Lock.{manager_of};
ghost use Rattle.lrc_lock.specs.Managed.{ManagedRecord, requested, forwards};
ghost use Rattle.lrc_lock.specs.Held.{HeldRecord, LockStep, stays, passes, pass_to, lock_at, held_after, first_held};
ghost use Rattle.lrc_lock.specs.Held.{has_token, taken, asked, forwarded, granted, released};

use crate::MOST_LOCKS;

/// There are at most 64 locks.
pub fn the_limits()
    ensures { MOST_LOCKS ≡ 64 }
{}

/// At the start, the token of each lock is at exactly one node, the lock's manager.
pub fn one_node_has_the_token_at_first()
    ensures { (me nodes locks lock : ℕ) → lock < locks
        → IsTrue (has_token (lock_at (first_held me nodes locks) lock))
        ↔ (manager_of nodes lock ≡ me) }
{}

/// A call on one lock changes no other lock.
pub fn a_step_leaves_the_other_locks()
    ensures { (held : HeldRecord) (lock other : ℕ) (step : LockStep) → other ≢ lock
        → lock_at (held_after held lock step) other ≡ lock_at held other }
{}

/// After a pass, the token is no longer here.
pub fn a_pass_takes_the_token_away()
    ensures { (held : HeldRecord) (lock : ℕ) (pass : Pass) → lock < length held.locks
        → lock_at (held_after held lock (passes pass)) lock ≡ Away }
{}

/// Another node's request makes the token leave exactly if the token is here and the lock is free. The pass has the
/// time of the request and the time kept with the token.
pub fn a_request_gets_a_free_token()
    ensures only { (held : HeldRecord) (lock asker : ℕ) (time : List ℕ) (pass : Pass)
        → forwarded held lock asker time ≡ passes pass
        → (asker ≢ held.me) × (lock_at held lock ≡ Free pass.upto)
        × (pass ≡ pass_to lock (record { node = asker; time = time }) pass.upto) }
    ensures always { (held : HeldRecord) (lock asker : ℕ) (time kept : List ℕ)
        → asker ≢ held.me → lock_at held lock ≡ Free kept
        → forwarded held lock asker time
        ≡ passes (pass_to lock (record { node = asker; time = time }) kept) }
{}

/// A release makes the token leave exactly if there is a successor. The token goes with the time of this release, or
/// stays with it.
pub fn a_release_serves_the_successor()
    ensures passes { (held : HeldRecord) (lock : ℕ) (now : List ℕ) (waiter : Waiter)
        → lock_at held lock ≡ Held (Some waiter)
        → released held lock now ≡ passes (pass_to lock waiter now) }
    ensures keeps { (held : HeldRecord) (lock : ℕ) (now : List ℕ)
        → lock_at held lock ≡ Held None → released held lock now ≡ stays (Free now) }
    ensures only { (held : HeldRecord) (lock : ℕ) (now : List ℕ) (pass : Pass)
        → released held lock now ≡ passes pass
        → (waiter : Waiter) × (lock_at held lock ≡ Held (Some waiter))
        × (pass ≡ pass_to lock waiter now) }
{}

/// A token arrives only by a grant, at a node that awaits it, and leaves only by a pass.
pub fn a_token_comes_by_a_grant_and_goes_by_a_pass()
    ensures granted { (held : HeldRecord) (lock : ℕ) (next : LockState)
        → granted held lock ≡ stays next
        → IsFalse (has_token (lock_at held lock)) × IsTrue (has_token next) }
    ensures forwarded { (held : HeldRecord) (lock asker : ℕ) (time : List ℕ) (next : LockState)
        → forwarded held lock asker time ≡ stays next
        → has_token next ≡ has_token (lock_at held lock) }
    ensures released { (held : HeldRecord) (lock : ℕ) (now : List ℕ) (next : LockState)
        → released held lock now ≡ stays next
        → has_token next ≡ has_token (lock_at held lock) }
    ensures taken { (held : HeldRecord) (lock : ℕ)
        → has_token (lock_at (taken held lock) lock) ≡ has_token (lock_at held lock) }
    ensures asked { (held : HeldRecord) (lock : ℕ) → lock_at held lock ≡ Away
        → IsFalse (has_token (lock_at (asked held lock) lock)) }
    ensures awaited { (held : HeldRecord) (lock : ℕ) (next : LockState)
        → granted held lock ≡ stays next
        → (successor : Option Waiter) × (lock_at held lock ≡ Awaited successor)
        × (next ≡ Held successor) }
{}

/// A request is forwarded to the last node that asked before.
pub fn a_request_goes_to_the_last_asker()
    ensures { (managed next later : ManagedRecord) (lock first second to onward : ℕ)
        → lock < length managed.recent
        → requested managed lock first ≡ forwards to next
        → requested next lock second ≡ forwards onward later
        → onward ≡ first }
{}
