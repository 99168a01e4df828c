// Locks.

ghost use Rattle.std.specs.Prelude.{◌≡◌, ◌<◌, IsTrue, length};
ghost use Rattle.lrc_lock.specs.Held.{first_held, forwarded, held_after, is_held, lock_at, released};

use crate::times::of;
use lrc_lock::{Held, LockFault, Managed, Pass};
use lrc_time::Time;

/// Whether this is a pass of the lock to this node with these times.
fn is_pass(pass: Option<Pass>, lock: u8, to: u8, since: &[u32], upto: &[u32]) -> bool {
    match pass {
        Some(pass) => {
            (pass.lock, pass.to) == (lock, to)
                && pass.since == of(2, since)
                && pass.upto == of(2, upto)
        }
        None => false,
    }
}

/// Whether a request is refused with this fault.
fn is_refused(held: &mut Held, lock: u8, asker: u8, time: Time, fault: LockFault) -> bool
    requires lock { lock < length held.old.locks }
    requires asker { asker < held.old.nodes }
    requires counted { length time ≡ held.old.nodes }
    ensures { held.new ≡ held_after held.old lock (forwarded held.old lock asker time) }
{
    held.forward(lock, asker, time).err() == Some(fault)
}

/// Whether a request takes a successor.
fn is_kept(held: &mut Held, lock: u8, asker: u8, time: Time) -> bool
    requires lock { lock < length held.old.locks }
    requires asker { asker < held.old.nodes }
    requires counted { length time ≡ held.old.nodes }
    ensures { held.new ≡ held_after held.old lock (forwarded held.old lock asker time) }
{
    matches!(held.forward(lock, asker, time), Ok(None))
}

/// Whether a request at this time gets a free token with the time of the last release.
fn is_passed(held: &mut Held, lock: u8, asker: u8, time: &[u32], released: &[u32]) -> bool
    requires lock { lock < length held.old.locks }
    requires asker { asker < held.old.nodes }
    requires two { held.old.nodes ≡ 2 }
    ensures locks { length held.new.locks ≡ length held.old.locks }
    ensures nodes { held.new.nodes ≡ 2 }
{
    match held.forward(lock, asker, of(2, time)) {
        Ok(pass) => is_pass(pass, lock, asker, time, released),
        Err(_) => false,
    }
}

/// Whether a release at this time passes the token to this node, which asked at the first time.
fn is_served(held: &mut Held, lock: u8, to: u8, since: &[u32], now: &[u32]) -> bool
    requires lock { lock < length held.old.locks }
    requires held { IsTrue (is_held (lock_at held.old lock)) }
    requires two { held.old.nodes ≡ 2 }
    ensures locks { length held.new.locks ≡ length held.old.locks }
    ensures nodes { held.new.nodes ≡ 2 }
{
    is_pass(held.release(lock, of(2, now)), lock, to, since, now)
}

/// Whether a release at this time keeps the token.
fn is_freed(held: &mut Held, lock: u8, now: Time) -> bool
    requires lock { lock < length held.old.locks }
    requires held { IsTrue (is_held (lock_at held.old lock)) }
    requires counted { length now ≡ held.old.nodes }
    ensures { held.new ≡ held_after held.old lock (released held.old lock now) }
{
    held.release(lock, now).is_none()
}

#[test]
fn a_manager_forwards_to_the_last_asker(rt: HostRuntime) {
    let mut managed = Managed::new(1, 2, 2);
    let answers = [
        managed.request(0, 0),
        managed.request(1, 0),
        managed.request(1, 1),
        managed.request(0, 1),
        managed.request(1, 0),
    ];
    let fault = LockFault::NotMine;
    assert!(rt; answers == [Err(fault), Ok(1), Ok(0), Err(fault), Ok(1)]);
}

/// Whether a successor that comes to an awaited token waits for the release.
fn successor_waits(held: &mut Held) -> bool
    requires { held.old ≡ first_held 1 2 1 }
{
    let before = [
        held.granted(0) == Err(LockFault::NotAsked),
        !held.try_local(0),
    ];
    held.ask(0);
    let then = [
        is_kept(held, 0, 0, of(2, &[1, 0])),
        is_refused(held, 0, 0, of(2, &[2, 0]), LockFault::SecondSuccessor),
        held.granted(0) == Ok(()),
        is_served(held, 0, 0, &[1, 0], &[0, 3]),
        is_refused(held, 0, 0, of(2, &[4, 3]), LockFault::NotMine),
    ];
    before == [true; 2] && then == [true; 5]
}

#[test]
fn a_successor_waits_for_the_release(rt: HostRuntime) {
    let mut held = Held::new(1, 2, 1);
    assert!(rt; successor_waits(&mut held));
}

/// Whether a node that awaits a token, and then has it, takes one successor and neither itself nor a second grant.
fn refuses_others(held: &mut Held) -> bool
    requires { held.old ≡ first_held 1 2 1 }
{
    held.ask(0);
    let seen = [
        is_refused(held, 0, 1, of(2, &[9, 9]), LockFault::NotMine),
        !held.try_local(0),
        held.granted(0) == Ok(()),
        held.granted(0) == Err(LockFault::NotAsked),
        is_kept(held, 0, 0, of(2, &[7, 2])),
        held.granted(0) == Err(LockFault::NotAsked),
        is_refused(held, 0, 1, of(2, &[9, 9]), LockFault::NotMine),
        is_refused(held, 0, 0, of(2, &[8, 2]), LockFault::SecondSuccessor),
        is_served(held, 0, 0, &[7, 2], &[6, 5]),
    ];
    seen == [true; 9]
}

#[test]
fn refusals_at_a_token_that_is_awaited(rt: HostRuntime) {
    let mut held = Held::new(1, 2, 1);
    assert!(rt; refuses_others(&mut held));
}

/// Whether a free token leaves with the time of the last of two releases.
fn leaves_with_the_last(held: &mut Held) -> bool
    requires { held.old ≡ first_held 1 2 2 }
{
    let seen = [
        held.granted(1) == Err(LockFault::NotAsked),
        is_refused(held, 1, 1, of(2, &[9, 9]), LockFault::NotMine),
        held.try_local(1),
        !held.try_local(1),
        is_freed(held, 1, of(2, &[0, 2])),
        held.try_local(1),
        is_freed(held, 1, of(2, &[0, 4])),
        is_passed(held, 1, 0, &[3, 1], &[0, 4]),
        !held.try_local(1),
    ];
    seen == [true; 9]
}

#[test]
fn a_free_token_leaves_with_the_time_of_the_last_release(rt: HostRuntime) {
    let mut held = Held::new(1, 2, 2);
    assert!(rt; leaves_with_the_last(&mut held));
}

/// Whether a token that was never released leaves with zeros, and once.
fn leaves_with_zeros(held: &mut Held) -> bool
    requires { held.old ≡ first_held 0 2 1 }
{
    is_passed(held, 0, 1, &[0, 6], &[0, 0])
        && is_refused(held, 0, 1, of(2, &[0, 7]), LockFault::NotMine)
}

#[test]
fn a_token_that_was_never_released_leaves_with_zeros(rt: HostRuntime) {
    let mut held = Held::new(0, 2, 1);
    assert!(rt; leaves_with_zeros(&mut held));
}

#[test]
fn sixteen_nodes_have_sixty_four_locks(rt: HostRuntime) {
    let mut managed = Managed::new(15, 16, 64);
    let answers = [
        managed.request(63, 0),
        managed.request(63, 7),
        managed.request(62, 7),
    ];
    let mut held = Held::new(15, 16, 64);
    let taken = [held.try_local(63), held.try_local(62), held.try_local(15)];
    let wanted = [Ok(15), Ok(0), Err(LockFault::NotMine)];
    assert!(rt; answers == wanted && taken == [true, false, true]);
}
