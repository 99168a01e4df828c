// What a test ends in.

use std::process::Abort;

/// Fails where the answer is no, and names the case. It is no too where memory was refused.
pub fn holds(rt: &impl Abort, name: &str, answer: bool) {
    assert!(rt; answer, "at: {name}");
}

/// The same of the row at a place of a table, counted from 0.
pub fn holds_at(rt: &impl Abort, place: usize, answer: bool) {
    assert!(rt; answer, "at row {place}");
}
