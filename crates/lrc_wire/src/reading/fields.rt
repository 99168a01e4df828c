//! Reading fields of one number, each checked as soon as it is read.

ghost use Rattle.std.specs.Prelude.{◌≡◌, ◌<◌, ◌≤◌, IfOk};
ghost use Rattle.lrc_page.specs.declared.TheConstants.{MOST_PAGES};
ghost use Rattle.lrc_wire.specs.Reading.{Gives, lock_at, node_at, episode_at, page_at, flag_at, count_at};

use super::numbers::{read_u8, read_u16, read_u32};
use crate::fault::WireFault;
use crate::version::Version;
use lrc_envelope::{MOST_LOCKS, MOST_NODES};

#[tactic(auto, unfolding(crate::specs::Reading::lock_at, crate::specs::Reading::tested))]
pub(super) fn read_lock(bytes: &mut &[u8]) -> Result<u8, WireFault>
    ensures exact { Gives (λ n. (n, bytes.new.now)) result (lock_at bytes.old.now) }
    ensures fits { IfOk result (λ n. n < MOST_LOCKS) }
{
    let lock = read_u8(bytes)?;
    if lock >= MOST_LOCKS {
        return Err(WireFault::BadCount);
    }
    Ok(lock)
}

#[tactic(auto, unfolding(crate::specs::Reading::node_at, crate::specs::Reading::tested))]
pub(super) fn read_node(bytes: &mut &[u8]) -> Result<u8, WireFault>
    ensures exact { Gives (λ n. (n, bytes.new.now)) result (node_at bytes.old.now) }
    ensures fits { IfOk result (λ n. n < MOST_NODES) }
{
    let node = read_u8(bytes)?;
    if node >= MOST_NODES {
        return Err(WireFault::BadNode);
    }
    Ok(node)
}

#[tactic(auto, unfolding(crate::specs::Reading::episode_at, crate::specs::Reading::tested))]
pub(super) fn read_episode(bytes: &mut &[u8]) -> Result<u32, WireFault>
    ensures exact { Gives (λ n. (n, bytes.new.now)) result (episode_at bytes.old.now) }
    ensures fits { IfOk result (λ n. 1 ≤ n) }
{
    let episode = read_u32(bytes)?;
    if episode == 0 {
        return Err(WireFault::BadCount);
    }
    Ok(episode)
}

#[tactic(auto, unfolding(crate::specs::Reading::page_at, crate::specs::Reading::tested))]
pub(super) fn read_page(version: Version, bytes: &mut &[u8]) -> Result<u16, WireFault>
    ensures exact { Gives (λ n. (n, bytes.new.now)) result (page_at version bytes.old.now) }
    ensures fits { IfOk result (λ n. n < MOST_PAGES) }
{
    let page = read_u16(bytes)?;
    if page >= version.pages() {
        return Err(WireFault::BadCount);
    }
    Ok(page)
}

#[tactic(auto, unfolding(crate::specs::Reading::flag_at, crate::specs::Reading::tested))]
pub(super) fn read_flag(bytes: &mut &[u8]) -> Result<bool, WireFault>
    ensures { Gives (λ flag. (flag, bytes.new.now)) result (flag_at bytes.old.now) }
{
    match read_u8(bytes)? {
        0 => Ok(false),
        1 => Ok(true),
        _ => Err(WireFault::BadCount),
    }
}

/// Reads the number of elements that follow, which is at least one.
#[tactic(auto, unfolding(crate::specs::Reading::count_at, crate::specs::Reading::tested))]
pub(super) fn read_count(bytes: &mut &[u8]) -> Result<u32, WireFault>
    ensures exact { Gives (λ n. (n, bytes.new.now)) result (count_at bytes.old.now) }
    ensures fits { IfOk result (λ n. 1 ≤ n) }
{
    let count = read_u32(bytes)?;
    if count == 0 {
        return Err(WireFault::BadCount);
    }
    Ok(count)
}
