//! Texts as JSON spells them, without the signs that markup begins with.
#![tactic(auto)]

mod spelling;

pub use spelling::push_quoted;
