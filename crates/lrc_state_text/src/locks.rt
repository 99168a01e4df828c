// The tokens of locks.

ghost use Rattle.std.specs.Prelude.{◌≡◌, ◌++◌, ◌<◌, ◌≤◌, All, IfOk, OnOk, codes, decimal, length};
ghost use Rattle.lrc_lock.specs.Held.{lock_at};
ghost use Rattle.lrc_state_text.specs.Json.{later, listed, number_or_null, numbers_text};
ghost use Rattle.lrc_state_text.specs.Tokens.{asker_of, is_shown, lock_text, locks_member, locks_shown, next_text, released_text};
ghost use Rattle.lrc_state_text.specs.Tokens.{successor_text, token_name};

use crate::json::{push_or_null, push_time, put_if};
use lrc_control::Clock;
use lrc_lock::{LockState, Waiter};
use lrc_text::push_number;
use std::alloc::{AllocError, Global};

#[tactic(auto, unfolding(crate::specs::Tokens::token_name))]
fn token_name(state: &LockState) -> &'static [u8]
    ensures { result.now ≡ token_name state.now }
{
    match state {
        LockState::Away => b"away",
        LockState::Awaited(_) => b"awaited",
        LockState::Free(_) => b"free",
        LockState::Held(_) => b"held",
    }
}

#[tactic(auto, unfolding(crate::specs::Tokens::released_text))]
fn push_released(text: &mut Vec<u8>, state: &LockState) -> Result<(), AllocError>
    ensures { OnOk result (text.new.items ≡ text.old.items ++ released_text state.now) }
{
    match state {
        LockState::Free(kept) => push_time(text, kept),
        LockState::Away | LockState::Awaited(_) | LockState::Held(_) => {
            text.extend_from_slice(b"null")
        }
    }
}

fn push_waiter(text: &mut Vec<u8>, waiter: &Waiter) -> Result<(), AllocError>
    ensures { OnOk result (text.new.items ≡ text.old.items
        ++ (codes "{\"node\":" ++ decimal waiter.now.node ++ codes ",\"time\":"
        ++ numbers_text waiter.now.time ++ codes "}")) }
{
    push_number(text, b"{\"node\":", u64::from(waiter.node))?;
    text.extend_from_slice(b",\"time\":")?;
    push_time(text, &waiter.time)?;
    text.extend_from_slice(b"}")
}

#[tactic(auto, unfolding(crate::specs::Tokens::successor_text))]
fn push_successor(text: &mut Vec<u8>, successor: &Option<Waiter>) -> Result<(), AllocError>
    ensures { OnOk result (text.new.items ≡ text.old.items ++ successor_text successor.now) }
{
    match successor {
        Some(waiter) => push_waiter(text, waiter),
        None => text.extend_from_slice(b"null"),
    }
}

#[tactic(auto, unfolding(crate::specs::Tokens::next_text))]
fn push_next(text: &mut Vec<u8>, state: &LockState) -> Result<(), AllocError>
    ensures { OnOk result (text.new.items ≡ text.old.items ++ next_text state.now) }
{
    match state {
        LockState::Awaited(successor) | LockState::Held(successor) => {
            push_successor(text, successor)
        }
        LockState::Away | LockState::Free(_) => text.extend_from_slice(b"null"),
    }
}

// Adds where the token of a lock is.
fn push_token_name(text: &mut Vec<u8>, state: &LockState) -> Result<(), AllocError>
    ensures { OnOk result (text.new.items
        ≡ text.old.items ++ (codes ",\"token\":\"" ++ token_name state.now)) }
{
    text.extend_from_slice(b",\"token\":\"")?;
    text.extend_from_slice(token_name(state))
}

// Adds where the token of a lock is, and the time of the last release here.
fn push_token(text: &mut Vec<u8>, state: &LockState) -> Result<(), AllocError>
    ensures { OnOk result (text.new.items ≡ text.old.items
        ++ (codes ",\"token\":\"" ++ token_name state.now ++ codes "\",\"released\":"
        ++ released_text state.now)) }
{
    push_token_name(text, state)?;
    text.extend_from_slice(b"\",\"released\":")?;
    push_released(text, state)
}

// Adds the successor, and who asked last.
fn push_askers(text: &mut Vec<u8>, state: &LockState, recent: Option<u8>) -> Result<(), AllocError>
    ensures { OnOk result (text.new.items ≡ text.old.items
        ++ (codes ",\"next\":" ++ next_text state.now ++ codes ",\"recent\":"
        ++ number_or_null recent)) }
{
    text.extend_from_slice(b",\"next\":")?;
    push_next(text, state)?;
    text.extend_from_slice(b",\"recent\":")?;
    push_or_null(text, recent)
}

// Who asked last for a lock, where it is managed here.
fn asker_of(clock: &Clock, lock: u8) -> Option<u8>
    requires { lock < length clock.now.held.locks }
    ensures { result ≡ asker_of clock.now.managed lock }
{
    // For the proof: there are as many managed locks as tokens.
    let _same = clock.time();
    clock.managed().last_asker(lock)
}

#[tactic(auto, unfolding(crate::specs::Tokens::lock_text))]
fn push_lock(text: &mut Vec<u8>, clock: &Clock, lock: u8) -> Result<(), AllocError>
    requires { lock < length clock.now.held.locks }
    ensures { OnOk result (text.new.items ≡ text.old.items ++ lock_text clock.now lock) }
{
    push_number(text, b"{\"lock\":", u64::from(lock))?;
    push_token(text, clock.held().state(lock))?;
    push_askers(text, clock.held().state(lock), asker_of(clock, lock))?;
    text.extend_from_slice(b"}")
}

// Adds a lock behind others.
fn push_next_lock(text: &mut Vec<u8>, clock: &Clock, lock: u8) -> Result<(), AllocError>
    requires { lock < length clock.now.held.locks }
    ensures { OnOk result (text.new.items
        ≡ text.old.items ++ (codes "," ++ lock_text clock.now lock)) }
{
    text.extend_from_slice(b",")?;
    push_lock(text, clock, lock)
}

fn push_later(text: &mut Vec<u8>, clock: &Clock, locks: &[u8]) -> Result<(), AllocError>
    requires { All (λ l. l < length clock.now.held.locks) locks.now }
    ensures { OnOk result (text.new.items
        ≡ text.old.items ++ later (lock_text clock.now) locks.now) }
{
    for lock in locks {
        push_next_lock(text, clock, *lock)?;
    }
    Ok(())
}

#[tactic(auto, unfolding(crate::specs::Json::listed))]
fn push_listed(text: &mut Vec<u8>, clock: &Clock, locks: &[u8]) -> Result<(), AllocError>
    requires { All (λ l. l < length clock.now.held.locks) locks.now }
    ensures { OnOk result (text.new.items
        ≡ text.old.items ++ listed (lock_text clock.now) locks.now) }
{
    match locks {
        [] => Ok(()),
        [first, rest @ ..] => {
            push_lock(text, clock, *first)?;
            push_later(text, clock, rest)
        }
    }
}

// Whether the token of a lock is not away, or the lock is managed here.
fn is_shown(clock: &Clock, lock: u8) -> bool
    requires { lock < length clock.now.held.locks }
    ensures { result ≡ is_shown clock.now lock }
{
    !matches!(clock.held().state(lock), LockState::Away) || asker_of(clock, lock).is_some()
}

#[tactic(auto, using(crate::proofs::Lists::shown_more))]
// The locks that are shown, of so many.
fn locks_shown(alloc: Global, clock: &Clock, count: u8) -> Result<Vec<u8>, AllocError>
    requires { count ≤ length clock.now.held.locks }
    ensures { IfOk result (λ shown. shown.items ≡ locks_shown clock.now count) }
{
    let mut shown = Vec::new(alloc);
    for lock in 0..count {
        put_if(&mut shown, lock, is_shown(clock, lock))?;
    }
    Ok(shown)
}

/// Adds the locks, of the first `count`, whose token is here or was asked for, or which this node manages.
pub(crate) fn push_locks(text: &mut Vec<u8>, clock: &Clock, count: u8) -> Result<(), AllocError>
    requires { count ≤ length clock.now.held.locks }
    ensures { OnOk result (text.new.items ≡ text.old.items ++ locks_member clock.now count) }
{
    let shown = locks_shown(*text.allocator(), clock, count)?;
    text.extend_from_slice(b",\"locks\":[")?;
    push_listed(text, clock, &shown)?;
    text.extend_from_slice(b"]")
}
