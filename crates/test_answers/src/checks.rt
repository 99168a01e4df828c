// What a test over a table ends in.

use std::process::Abort;

/// Fails where a row was found wrong, with the row's name.
pub fn passes(rt: &impl Abort, wrong: Option<&str>) {
    if let Some(name) = wrong {
        panic!(rt; "{name}");
    }
}
