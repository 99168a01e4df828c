// What messages brought, each counted once.

ghost use Rattle.std.specs.Prelude.{◌≡◌, IfOk, List, length, sum_by};
ghost use Rattle.lrc_protocol.specs.Run.{EntryRecord, turns_of_logs};
ghost use Rattle.lrc_stats.specs.Learned.{IsLearned, brought, brought_after, collections, discards, intervals_told, is_discard};
ghost use Rattle.lrc_stats.specs.Learned.{learned_intervals, learned_notices, repeats, told, with_entry};
ghost use Rattle.lrc_stats.specs.Seen.{HasSeen};

use crate::seen::Seen;
use crate::turns::add;
use lrc_envelope::Message;
use lrc_log::{Entry, Input};
use lrc_store::Interval;
use std::alloc::{AllocError, Global};

/// What the messages that nodes took brought, each message counted once.
#[derive(Clone, Copy)]
pub(crate) struct Learned {
    /// The number of turns that were repeats.
    pub repeats: u64,
    /// The number of intervals that were learned.
    pub intervals: u64,
    /// The number of pages that these intervals name, their write notices.
    pub notices: u64,
    /// The number of discard messages taken.
    pub discards: u64,
}

impl Learned {
    ghost use Rattle.std.specs.Prelude.{◌≡◌, IfOk};
    ghost use Rattle.lrc_stats.specs.Learned.{nothing, together};

    fn nothing() -> Learned
        ensures { result ≡ nothing }
    {
        Learned {
            repeats: 0,
            intervals: 0,
            notices: 0,
            discards: 0,
        }
    }

    // With what others brought.
    fn plus(self, other: Learned) -> Result<Learned, AllocError>
        ensures { IfOk result (λ sum. sum ≡ together self other) }
    {
        Ok(Learned {
            repeats: add(self.repeats, other.repeats)?,
            intervals: add(self.intervals, other.intervals)?,
            notices: add(self.notices, other.notices)?,
            discards: add(self.discards, other.discards)?,
        })
    }
}

// The intervals of a grant or a departure.
fn intervals_told(message: &Message) -> &[Interval]
    ensures { result.now ≡ intervals_told message.now }
{
    match message {
        Message::LockGrant(grant) => grant.news.intervals.as_slice(),
        Message::Depart(depart) => depart.news.intervals.as_slice(),
        _ => &[],
    }
}

// The intervals of which a turn learns.
fn told(entry: &Entry) -> &[Interval]
    ensures { result.now ≡ told entry.now.input }
{
    match &entry.input {
        Input::Run => &[],
        Input::Taken(envelope) => intervals_told(&envelope.message),
    }
}

// How many pages intervals name.
fn pages_in(intervals: &[Interval]) -> Result<u64, AllocError>
    ensures { IfOk result (λ count. count
        ≡ sum_by (λ interval. length interval.pages) intervals.now) }
{
    let mut count = 0;
    for interval in intervals {
        count = add(count, interval.pages.len() as u64)?;
    }
    Ok(count)
}

// Whether a turn takes the word to discard.
fn discards(entry: &Entry) -> bool
    ensures { result ≡ discards entry.now.input }
{
    match &entry.input {
        Input::Run => false,
        Input::Taken(envelope) => is_discard(&envelope.message),
    }
}

fn is_discard(message: &Message) -> bool
    ensures { result ≡ is_discard message.now }
{
    matches!(message, Message::Discard(_))
}

// What a turn brought that is no repeat.
fn brought(entry: &Entry) -> Result<Learned, AllocError>
    ensures { IfOk result (λ learned. learned ≡ brought entry.now) }
{
    let intervals = told(entry);
    Ok(Learned {
        repeats: 0,
        intervals: intervals.len() as u64,
        notices: pages_in(intervals)?,
        discards: u64::from(discards(entry)),
    })
}

// What a turn brought, where these messages were taken before it.
fn brought_after(seen: &mut Seen, entry: &Entry) -> Result<Learned, AllocError>
    ensures { (before : List EntryRecord) → HasSeen before seen.old
        → IfOk result (λ learned. (learned ≡ brought_after before entry.now)
        × HasSeen (with_entry before entry.now) seen.new) }
{
    if seen.has(entry) {
        return Ok(Learned {
            repeats: 1,
            intervals: 0,
            notices: 0,
            discards: 0,
        });
    }
    seen.add(entry)?;
    brought(entry)
}

// What a node's messages brought, by its log.
fn learned_in(alloc: Global, log: &[Entry]) -> Result<Learned, AllocError>
    ensures { IfOk result (IsLearned log.now) }
{
    let mut seen = Seen::new(alloc)?;
    let mut learned = Learned::nothing();
    for entry in log {
        learned = learned.plus(brought_after(&mut seen, entry)?)?;
    }
    Ok(learned)
}

/// Returns what the messages of all nodes brought. Fails if memory runs out, or if a count does not fit into 64 bits.
#[tactic(auto, using(crate::proofs::Logs::sum_more))]
pub(crate) fn learned_by_all(alloc: Global, logs: &[Vec<Entry>]) -> Result<Learned, AllocError>
    ensures repeats { IfOk result (λ learned. learned.repeats
        ≡ repeats (turns_of_logs logs.now)) }
    ensures intervals { IfOk result (λ learned. learned.intervals
        ≡ learned_intervals (turns_of_logs logs.now)) }
    ensures notices { IfOk result (λ learned. learned.notices
        ≡ learned_notices (turns_of_logs logs.now)) }
{
    let mut all = Learned::nothing();
    for log in logs {
        all = all.plus(learned_in(alloc, log)?)?;
    }
    Ok(all)
}

/// Returns how many barrier episodes collected: node 0 took as many discard messages.
pub(crate) fn collections(alloc: Global, logs: &[Vec<Entry>]) -> Result<u64, AllocError>
    ensures { IfOk result (λ count. count ≡ collections (turns_of_logs logs.now)) }
{
    match logs.first() {
        Some(log) => Ok(learned_in(alloc, log)?.discards),
        None => Ok(0),
    }
}
