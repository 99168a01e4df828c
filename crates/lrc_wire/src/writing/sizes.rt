//! The length of a body, computed before any of its bytes is written.

ghost use Rattle.std.specs.Prelude.{◌≡◌, ◌+◌, ◌<◌, ◌≤◌, length, IfSome, IfNone};
ghost use Rattle.lrc_wire.specs.declared.version.Version.TheVariants.{Two};
ghost use Rattle.lrc_wire.specs.Runs.{runs_of};
ghost use Rattle.lrc_wire.specs.Spelling.{time, interval, news, indices, part, parts, page_values, body};

use super::runs::count_runs;
use crate::limits::MOST_BODY_BYTES;
use lrc_envelope::{IndexedChanges, Indices, Message, News, Parts};
use lrc_page::Page;
use lrc_store::Interval;
use lrc_time::Time;

#[tactic(auto, using(crate::proofs::Lengths::length_time))]
fn time_len(entries: &Time) -> usize
    ensures exact { result ≡ length (time entries.now) }
    ensures small { result ≤ 65 }
{
    1 + 4 * usize::from(entries.nodes())
}

fn interval_len(item: &Interval) -> usize
    ensures exact { result ≡ length (interval item.now) }
    ensures small { result ≤ 2116 }
{
    3 + time_len(&item.stamp) + 2 * item.pages.len()
}

// How many bytes there are up to the end of the news, with so many before it. None where it is more than a body may
// have.
fn news_len(before: usize, told: &News) -> Option<usize>
    requires { before ≤ 5 }
    ensures within { IfSome result (λ n. n ≡ before + length
        (news told.now.time told.now.intervals)) }
    ensures small { IfSome result (λ n. n ≤ MOST_BODY_BYTES) }
    ensures over { IfNone result (MOST_BODY_BYTES
        < before + length (news told.now.time told.now.intervals)) }
{
    let mut len = before + time_len(&told.time) + 4;
    for record in told.intervals.as_slice() {
        len += interval_len(record);
        if len > MOST_BODY_BYTES {
            return None;
        }
    }
    Some(len)
}

// The same of indices after two bytes.
fn indices_len(list: &Indices) -> Option<usize>
    ensures within { IfSome result (λ n. n ≡ 2 + length (indices list.now)) }
    ensures small { IfSome result (λ n. n ≤ MOST_BODY_BYTES) }
    ensures over { IfNone result (MOST_BODY_BYTES < 2 + length (indices list.now)) }
{
    if list.len() > (MOST_BODY_BYTES - 6) / 4 {
        return None;
    }
    Some(6 + 4 * list.len())
}

fn part_len(item: &IndexedChanges) -> usize
    ensures exact { result ≡ length (part Two runs_of item.now) }
    ensures small { result ≤ 2566 }
{
    6 + 2 * count_runs(&item.changes) + 8 * item.changes.len()
}

// The same of parts after two bytes.
fn parts_len(list: &Parts) -> Option<usize>
    ensures within { IfSome result (λ n. n ≡ 2 + length (parts Two runs_of list.now)) }
    ensures small { IfSome result (λ n. n ≤ MOST_BODY_BYTES) }
    ensures over { IfNone result (MOST_BODY_BYTES < 2 + length (parts Two runs_of list.now)) }
{
    let mut len = 6;
    for item in list.as_slice() {
        len += part_len(item);
        if len > MOST_BODY_BYTES {
            return None;
        }
    }
    Some(len)
}

fn page_len(page: &Page) -> usize
    ensures exact { result ≡ 2 + length (page_values Two page.now) }
    ensures small { result ≤ 2052 }
{
    4 + 8 * usize::from(page.size().words())
}

/// Returns the number of bytes of a message's body, or `None` if the body would be too long.
#[tactic(auto, using(crate::proofs::Lengths::lengths))]
pub(super) fn body_len(message: &Message) -> Option<usize>
    ensures within { IfSome result (λ n. n ≡ length (body Two runs_of message.now)) }
    ensures short { IfSome result (λ n. n ≤ MOST_BODY_BYTES) }
    ensures over { IfNone result (MOST_BODY_BYTES < length (body Two runs_of message.now)) }
{
    match message {
        Message::LockRequest(m) => Some(1 + time_len(&m.time)),
        Message::LockForward(m) => Some(2 + time_len(&m.time)),
        Message::LockGrant(m) => news_len(1, &m.news),
        Message::Arrive(m) => news_len(5, &m.news),
        Message::Depart(m) => news_len(5, &m.news),
        Message::Clean(_) | Message::Discard(_) => Some(4),
        Message::ChangesRequest(m) => indices_len(&m.indices),
        Message::ChangesReply(m) => parts_len(&m.parts),
        Message::PageRequest(_) => Some(2),
        Message::PageReply(m) => Some(page_len(&m.copy)),
    }
}
