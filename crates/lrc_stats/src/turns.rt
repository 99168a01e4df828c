// How many turns there are of which kind.

ghost use Rattle.std.specs.Prelude.{◌≡◌, ◌+◌, IfOk, count_by, length};
ghost use Rattle.std.specs.List.{list_any};
ghost use Rattle.lrc_protocol.specs.Run.{turns_of_logs};
ghost use Rattle.lrc_stats.specs.Turns.{asks_for_page, is_miss, makes_of_kind, turn_count, turns_with};

use crate::deed_kind::DeedKind;
use lrc_envelope::{Envelope, Message};
use lrc_log::{Entry, Input};
use std::alloc::AllocError;

/// Adds two counts. Fails if the sum does not fit into 64 bits: there is no memory for that many things.
pub(crate) fn add(a: u64, b: u64) -> Result<u64, AllocError>
    ensures { IfOk result (λ sum. sum ≡ a + b) }
{
    a.checked_add(b).ok_or(AllocError)
}

/// Returns how many turns the nodes made.
#[tactic(auto, using(crate::proofs::Logs::sum_more))]
pub fn turns_made(logs: &[Vec<Entry>]) -> Result<u64, AllocError>
    ensures { IfOk result (λ count. count ≡ turn_count (turns_of_logs logs.now)) }
{
    let mut count = 0;
    for log in logs {
        count = add(count, log.len() as u64)?;
    }
    Ok(count)
}

// Whether a turn makes an act of this kind.
fn makes_of_kind(kind: DeedKind, entry: &Entry) -> bool
    ensures { result ≡ makes_of_kind kind entry.now }
{
    match entry.turn.act {
        Some(act) => DeedKind::of(act.deed) == kind,
        None => false,
    }
}

/// Returns how many turns make an act of this kind.
#[tactic(auto, using(crate::proofs::Logs::sum_more))]
pub(crate) fn turns_making(kind: DeedKind, logs: &[Vec<Entry>]) -> Result<u64, AllocError>
    ensures { IfOk result (λ count. count
        ≡ turns_with (makes_of_kind kind) (turns_of_logs logs.now)) }
{
    let mut count = 0;
    for log in logs {
        count = add(count, making(kind, log) as u64)?;
    }
    Ok(count)
}

fn making(kind: DeedKind, log: &[Entry]) -> usize
    ensures { result ≡ count_by (makes_of_kind kind) log.now }
{
    log.iter()
        .filter(|entry| makes_of_kind(kind, *entry))
        .count()
}

// Whether changes of a page, or its base copy, are asked for.
fn asks_for_page(message: &Message) -> bool
    ensures { result ≡ asks_for_page message.now }
{
    matches!(
        message,
        Message::ChangesRequest(_) | Message::PageRequest(_)
    )
}

// Whether one of the messages asks for what a page needs.
fn some_asks(out: &[Envelope]) -> bool
    ensures { result ≡ list_any (λ envelope. asks_for_page envelope.message) out.now }
{
    out.iter().any(|envelope| asks_for_page(&envelope.message))
}

// Whether a turn is a miss.
#[tactic(auto, unfolding(crate::specs::Turns::is_miss))]
fn is_miss(entry: &Entry) -> bool
    ensures { result ≡ is_miss entry.now }
{
    match &entry.input {
        Input::Run => some_asks(&entry.turn.out),
        Input::Taken(_) => false,
    }
}

/// Returns how many turns are misses: the node runs by itself, and requests what a page needs.
#[tactic(auto, using(crate::proofs::Logs::sum_more))]
pub(crate) fn misses(logs: &[Vec<Entry>]) -> Result<u64, AllocError>
    ensures { IfOk result (λ count. count ≡ turns_with is_miss (turns_of_logs logs.now)) }
{
    let mut count = 0;
    for log in logs {
        count = add(count, missing(log) as u64)?;
    }
    Ok(count)
}

fn missing(log: &[Entry]) -> usize
    ensures { result ≡ count_by is_miss log.now }
{
    let mut count = 0;
    for entry in log {
        if is_miss(entry) {
            count += 1;
        }
    }
    count
}
