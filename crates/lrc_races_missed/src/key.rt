// Claims by numbers, among which others are looked for.
ghost use Rattle.std.specs.Prelude.{◌≡◌, ◌⊎◌, ◌↔◌, Contains, IsTrue, OnOk};
ghost use Rattle.lrc_races_missed.specs.declared.key.Key.{Key as AnyKey};

use indexmap::IndexSet;
use std::alloc::AllocError;

/// A claim about a trace, by the numbers of its variables and places.
#[derive(Clone, Copy, PartialEq, Eq, Hash)]
pub enum Key {
    /// The access on this line races with an earlier one.
    Event(u64),
    /// The accesses on these lines race.
    Pair(u64, u64),
    /// Some two accesses race, one at the first place and the other at the second.
    Places(usize, usize),
    /// Some two accesses of this variable race.
    Variable(usize),
    /// The access on this line is the first of this variable that races with an earlier one.
    First(usize, u64),
}

/// Returns whether a claim is among these.
pub(crate) fn is_among(keys: &IndexSet<Key>, key: Key) -> bool
    ensures { IsTrue result ↔ Contains keys.now.keys key }
{
    match keys.get_full(&key) {
        Some((_place, _met)) => true,
        None => false,
    }
}

/// Adds a claim.
pub(crate) fn add(keys: &mut IndexSet<Key>, key: Key) -> Result<(), AllocError>
    ensures { OnOk result ((other : AnyKey) → Contains keys.new.keys other
        ↔ (Contains keys.old.keys other ⊎ (other ≡ key))) }
{
    keys.insert(key)?;
    Ok(())
}
