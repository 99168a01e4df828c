// What a test ends in.

use std::process::Abort;

/// Fails with the name of the case where the answer is no. It is no too where memory was refused.
pub fn holds(rt: &impl Abort, name: &str, answer: bool) {
    if !answer {
        rt.panic(name);
    }
}
