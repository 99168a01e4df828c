//! Reading times and stamps.

ghost use Rattle.std.specs.Prelude.{◌≡◌, ◌≤◌, ◌<◌, ◌+◌, ◌*◌, ◌↔◌, drop, length, take, IfOk, IsTrue, None, Ok};
ghost use Rattle.std.specs.Int.{w32, from_be_bytes};
ghost use Rattle.lrc_time.specs.Time.{entry};
ghost use Rattle.lrc_wire.specs.Reading.{Gives, entries_at, time_at, stamp_at};

use super::numbers::read_u8;
use crate::fault::WireFault;
use bytes::Buf;
use lrc_envelope::MOST_NODES;
use lrc_time::Time;

// How many bytes an entry has.
const ENTRY_BYTES: usize = 4;

// Whether the entry of the node `own` stands in the bytes, which begin with entries, and is 0.
fn is_unbegun(own: u8, bytes: &[u8]) -> bool
    ensures { IsTrue result ↔ ((4 * own + 4 ≤ length bytes.now)
        × (from_be_bytes w32 (take 4 (drop (4 * own) bytes.now)) ≡ 0)) }
{
    let start = ENTRY_BYTES * usize::from(own);
    if bytes.len() < start + ENTRY_BYTES {
        return false;
    }
    let mut entries = &bytes[start..];
    entries.get_u32() == 0
}

// The entries that the bytes begin with, in place of those of a time.
fn take_entries(time: &mut Time, bytes: &mut &[u8])
    requires { 4 * length time.old ≤ length bytes.old.now }
    ensures { entries_at None (length time.old) bytes.old.now ≡ Ok (time.new, bytes.new.now) }
{
    let block = *bytes;
    for node in 0..time.nodes() {
        let at = ENTRY_BYTES * usize::from(node);
        let entry = u32::from_be_bytes([block[at], block[at + 1], block[at + 2], block[at + 3]]);
        time.set(node, entry);
    }
    *bytes = &block[ENTRY_BYTES * usize::from(time.nodes())..];
}

// As many entries as a time has, in place of its own.
fn read_entries(time: &mut Time, bytes: &mut &[u8]) -> Result<(), WireFault>
    ensures { Gives (λ _. (time.new, bytes.new.now)) result
        (entries_at None (length time.old) bytes.old.now) }
{
    if bytes.len() < ENTRY_BYTES * usize::from(time.nodes()) {
        return Err(WireFault::Short);
    }
    take_entries(time, bytes);
    Ok(())
}

/// Reads a time of any number of nodes.
#[tactic(auto, unfolding(crate::specs::Reading::time_at, crate::specs::Reading::tested))]
pub(super) fn read_time(bytes: &mut &[u8]) -> Result<Time, WireFault>
    ensures { Gives (λ time. (time, bytes.new.now)) result (time_at bytes.old.now) }
{
    let nodes = read_u8(bytes)?;
    if !(1..=MOST_NODES).contains(&nodes) {
        return Err(WireFault::BadCount);
    }
    let mut time = Time::new(nodes);
    read_entries(&mut time, bytes)?;
    Ok(time)
}

/// Reads the stamp of an interval of node `own` into `stamp`, which has the same number of nodes.
#[tactic(auto, unfolding(crate::specs::Reading::stamp_at, crate::specs::Reading::tested))]
pub(super) fn read_stamp(stamp: &mut Time, own: u8, bytes: &mut &[u8]) -> Result<(), WireFault>
    requires { own < length stamp.old }
    ensures exact { Gives (λ _. (stamp.new, bytes.new.now)) result
        (stamp_at (length stamp.old) own bytes.old.now) }
    ensures long { IfOk result (λ _. length stamp.new ≡ length stamp.old) }
    ensures begun { IfOk result (λ _. 1 ≤ entry stamp.new own) }
{
    if read_u8(bytes)? != stamp.nodes() || is_unbegun(own, bytes) {
        return Err(WireFault::BadCount);
    }
    read_entries(stamp, bytes)
}
