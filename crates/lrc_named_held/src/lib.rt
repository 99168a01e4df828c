//! What the translation's own names hold in each statement of a core, as the source of the named program.
#![tactic(auto)]

mod held;
mod owns;
mod source;

pub use held::{Held, held_of};
pub use owns::{Own, owns_among};
