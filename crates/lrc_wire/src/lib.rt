//! The bytes of an envelope. The format is this project's own, and `docs/messages.md` describes it.
//!
//! The grammar is `Spells`, a relation between envelopes and lists of bytes, one for each version. It is defined apart
//! from both the writer and the reader. `encode`, `spell` and `spell_over` write version 2. `decode` accepts exactly
//! the bytes of either version, and otherwise names the first fault.
#![tactic(auto)]

mod fault;
mod kind;
pub mod laws;
mod limits;
mod reading;
mod version;
mod writing;

pub use fault::{EncodeFault, WireFault};
pub use kind::MessageKind;
pub use limits::{HEADER_BYTES, MOST_BODY_BYTES, MOST_RUNS};
pub use reading::decode;
pub use version::Version;
pub use writing::{encode, spell, spell_over};
