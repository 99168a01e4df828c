// Vector times.

ghost use Rattle.std.specs.Prelude.{◌≡◌, ◌≤◌, length};

use lrc_time::Time;

// Sets an entry, if it is there and rises.
fn raise(time: &mut Time, node: u8, index: u32)
    ensures { length time.new ≡ length time.old }
{
    if node < time.nodes() && time.at(node) < index {
        time.raise(node, index);
    }
}

/// The time of so many nodes that have closed so many intervals. Those past the last entry have closed none.
pub fn of(nodes: u8, entries: &[u32]) -> Time
    requires some { 1 ≤ nodes }
    requires few { nodes ≤ 16 }
    ensures { length result ≡ nodes }
{
    let mut time = Time::new(nodes);
    for node in 0..nodes {
        if let Some(index) = entries.get(usize::from(node)) {
            raise(&mut time, node, *index);
        }
    }
    time
}

// Sixteen entries, each one more than the one before it up to the largest number.
fn of_sixteen(first: u32) -> Time {
    let mut time = Time::new(16);
    for node in 0..16u8 {
        raise(&mut time, node, first.saturating_add(u32::from(node)));
    }
    time
}

fn joined(one: &Time, other: &Time) -> Time {
    let mut both = one.copy();
    if both.nodes() == other.nodes() {
        both.join(other);
    }
    both
}

fn covers(one: &Time, other: &Time) -> bool {
    one.nodes() == other.nodes() && one.covers(other)
}

fn entry(time: &Time, node: u8) -> u32 {
    if node < time.nodes() {
        time.at(node)
    } else {
        u32::MAX
    }
}

// Whether the entries of a time of sixteen nodes go up by one from the first.
fn ascends_from(time: &Time, first: u32) -> bool {
    for node in 0..16u8 {
        if entry(time, node) != first.saturating_add(u32::from(node)) {
            return false;
        }
    }
    true
}

// A time by itself, the other, their join, and which of them covers which.
fn are_joined(one: &Time, other: &Time, both: &Time) -> bool {
    let covered = [
        covers(one, other),
        covers(other, one),
        covers(both, one),
        covers(both, other),
    ];
    let entries = [entry(both, 0), entry(both, 1), entry(both, 2)];
    covered == [false, false, true, true] && entries == [3, 2, 1]
}

#[test]
fn the_join_covers_both(rt: HostRuntime) {
    let one = of(3, &[3, 0, 1]);
    let other = of(3, &[1, 2, 1]);
    let both = joined(&one, &other);
    let weights = [one.weight(), other.weight(), both.weight()] == [4, 4, 6];
    assert!(rt; weights && are_joined(&one, &other, &both));
}

#[test]
fn sixteen_entries_are_kept_apart(rt: HostRuntime) {
    let time = of_sixteen(100);
    let weights = [time.weight(), of_sixteen(u32::MAX).weight()] == [1_720, 68_719_476_720];
    assert!(rt; weights && ascends_from(&time, 100) && time.copy() == time);
}
