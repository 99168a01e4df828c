// The claims of a report.

/// A claim of a detector about a trace, with the names as they stand on its line.
#[derive(Clone, Copy)]
pub enum Claim<'a> {
    /// The access on this line races with an earlier one.
    Event(u64),
    /// The accesses on these lines race.
    Pair(u64, u64),
    /// Some two accesses race, one at the first location and the other at the second.
    Locations(&'a [u8], &'a [u8]),
    /// Some two accesses of this variable race.
    Variable(&'a [u8]),
    /// The access on this line is the first of this variable that races with an earlier one.
    First(&'a [u8], u64),
}
