//! The eleven kinds of messages (Keleher, Cox, Dwarkadas and Zwaenepoel 1994; Amza et al. 1996).

use crate::indices::Indices;
use crate::news::News;
use crate::parts::Parts;
use lrc_page::Page;
use lrc_time::Time;
use std::marker::Model;

/// A message from one node to another.
#[derive(Drop)]
pub enum Message {
    LockRequest(LockRequest),
    LockForward(LockForward),
    LockGrant(LockGrant),
    Arrive(Arrive),
    Depart(Depart),
    Clean(Clean),
    Discard(Discard),
    ChangesRequest(ChangesRequest),
    ChangesReply(ChangesReply),
    PageRequest(PageRequest),
    PageReply(PageReply),
}

/// Asks a lock's manager for the lock.
#[derive(Drop)]
pub struct LockRequest {
    /// The lock, below `MOST_LOCKS`.
    pub lock: u8,
    /// The asker's time.
    pub time: Time,
}

impl Model for LockRequest {
    ghost use Rattle.std.specs.Prelude.{◌<◌};
    ghost use Rattle.lrc_envelope.specs.declared.limits.TheConstants.{MOST_LOCKS};
    ghost use Rattle.lrc_envelope.specs.Records.{LockRequestRecord};

    ghost Value = { LockRequestRecord };

    ghost view = { λ m. record { lock = m.lock; time = m.time } };

    ghost invariant = { λ m. m.lock < MOST_LOCKS };
}

/// Forwards a request from a lock's manager to the last node that asked for the lock before.
#[derive(Drop)]
pub struct LockForward {
    /// The lock, below `MOST_LOCKS`.
    pub lock: u8,
    /// The node that asks, below `MOST_NODES`.
    pub asker: u8,
    /// The asker's time.
    pub time: Time,
}

impl Model for LockForward {
    ghost use Rattle.lrc_envelope.specs.Records.{LockForwardRecord, IsLockForward};

    ghost Value = { LockForwardRecord };

    ghost view = { λ m. record { lock = m.lock; asker = m.asker; time = m.time } };

    ghost invariant = { λ m. IsLockForward (record { lock = m.lock; asker = m.asker; time = m.time }) };
}

/// Hands a lock to the node that asked for it.
#[derive(Drop)]
pub struct LockGrant {
    /// The lock, below `MOST_LOCKS`.
    pub lock: u8,
    /// The time of the lock's last holder at its release, and the intervals up to it that the asker lacks.
    pub news: News,
}

impl Model for LockGrant {
    ghost use Rattle.std.specs.Prelude.{◌<◌};
    ghost use Rattle.lrc_envelope.specs.declared.limits.TheConstants.{MOST_LOCKS};
    ghost use Rattle.lrc_envelope.specs.Records.{LockGrantRecord};

    ghost Value = { LockGrantRecord };

    ghost view = { λ m. record { lock = m.lock; time = m.news.time; intervals = m.news.intervals } };

    ghost invariant = { λ m. m.lock < MOST_LOCKS };
}

/// Tells the barrier's manager that a node has arrived.
#[derive(Drop)]
pub struct Arrive {
    /// The number of the barrier in the run, from 1.
    pub episode: u32,
    /// Whether the node asks for a collection.
    pub ask: bool,
    /// The node's time, and its own intervals since its last arrival.
    pub news: News,
}

impl Model for Arrive {
    ghost use Rattle.std.specs.Prelude.{◌≤◌};
    ghost use Rattle.lrc_envelope.specs.Records.{ArriveRecord};

    ghost Value = { ArriveRecord };

    ghost view = { λ m. record { episode = m.episode; ask = m.ask; time = m.news.time; intervals = m.news.intervals } };

    ghost invariant = { λ m. 1 ≤ m.episode };
}

/// Lets a node depart from the barrier.
#[derive(Drop)]
pub struct Depart {
    /// The number of the barrier in the run, from 1.
    pub episode: u32,
    /// Whether a collection follows this barrier.
    pub collect: bool,
    /// The join of all nodes' times at their arrivals, and the intervals up to it that the node lacks.
    pub news: News,
}

impl Model for Depart {
    ghost use Rattle.std.specs.Prelude.{◌≤◌};
    ghost use Rattle.lrc_envelope.specs.Records.{DepartRecord};

    ghost Value = { DepartRecord };

    ghost view = { λ m. record { episode = m.episode; collect = m.collect; time = m.news.time; intervals = m.news.intervals } };

    ghost invariant = { λ m. 1 ≤ m.episode };
}

/// Tells that a node's copies are up to date, so its part of a collection is done.
#[derive(Drop)]
pub struct Clean {
    /// The number of the barrier that collects, from 1.
    pub episode: u32,
}

impl Model for Clean {
    ghost use Rattle.std.specs.Prelude.{ℕ, ◌≤◌};

    ghost Value = { ℕ };

    ghost view = { λ m. m.episode };

    ghost invariant = { λ m. 1 ≤ m.episode };
}

/// Tells that every node's part of a collection is done, so what it collects may be dropped.
#[derive(Drop)]
pub struct Discard {
    /// The number of the barrier that collects, from 1.
    pub episode: u32,
}

impl Model for Discard {
    ghost use Rattle.std.specs.Prelude.{ℕ, ◌≤◌};

    ghost Value = { ℕ };

    ghost view = { λ m. m.episode };

    ghost invariant = { λ m. 1 ≤ m.episode };
}

/// Asks a node for the changes that some of its intervals made to a page.
#[derive(Drop)]
pub struct ChangesRequest {
    /// The page, below `MOST_PAGES`.
    pub page: u16,
    /// The indices of the intervals, at least one.
    pub indices: Indices,
}

impl Model for ChangesRequest {
    ghost use Rattle.lrc_envelope.specs.Records.{ChangesRequestRecord, IsChangesRequest};

    ghost Value = { ChangesRequestRecord };

    ghost view = { λ m. record { page = m.page; indices = m.indices } };

    ghost invariant = { λ m. IsChangesRequest (record { page = m.page; indices = m.indices }) };
}

/// The changes that some of a node's intervals made to a page.
#[derive(Drop)]
pub struct ChangesReply {
    /// The page, below `MOST_PAGES`.
    pub page: u16,
    /// The changes of each interval, at least one interval.
    pub parts: Parts,
}

impl Model for ChangesReply {
    ghost use Rattle.lrc_envelope.specs.Records.{ChangesReplyRecord, IsChangesReply};

    ghost Value = { ChangesReplyRecord };

    ghost view = { λ m. record { page = m.page; parts = m.parts } };

    ghost invariant = { λ m. IsChangesReply (record { page = m.page; parts = m.parts }) };
}

/// Asks a page's keeper for its base copy.
#[derive(Drop)]
pub struct PageRequest {
    /// The page, below `MOST_PAGES`.
    pub page: u16,
}

impl Model for PageRequest {
    ghost use Rattle.std.specs.Prelude.{ℕ, ◌<◌};
    ghost use Rattle.lrc_page.specs.declared.TheConstants.{MOST_PAGES};

    ghost Value = { ℕ };

    ghost view = { λ m. m.page };

    ghost invariant = { λ m. m.page < MOST_PAGES };
}

/// A page's base copy.
#[derive(Drop)]
pub struct PageReply {
    /// The page, below `MOST_PAGES`.
    pub page: u16,
    pub copy: Box<Page>,
}

impl Model for PageReply {
    ghost use Rattle.std.specs.Prelude.{◌<◌};
    ghost use Rattle.lrc_page.specs.declared.TheConstants.{MOST_PAGES};
    ghost use Rattle.lrc_envelope.specs.Records.{PageReplyRecord};

    ghost Value = { PageReplyRecord };

    ghost view = { λ m. record { page = m.page; values = m.copy.value } };

    ghost invariant = { λ m. m.page < MOST_PAGES };
}
