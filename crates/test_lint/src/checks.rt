// What a test ends in.

use std::process::Abort;

/// Fails where the answer is no. It is no too where memory was refused.
pub fn holds(rt: &impl Abort, answer: bool) {
    assert!(rt; answer);
}

/// Fails where a row was found wrong, with the row's name.
pub fn passes(rt: &impl Abort, wrong: Option<&str>) {
    if let Some(name) = wrong {
        panic!(rt; "{name}");
    }
}
