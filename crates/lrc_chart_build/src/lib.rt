//! Builds the picture of a run, as data that the drawing crates then show. The picture has a row for each turn that
//! acts, sends or takes, an arrow for each message, and a band for each barrier. It also shows races, circles of
//! waiting nodes, and the program's text.
//!
//! Decisions:
//!
//! - A node's time is shown at the first of its acts that are shown, and wherever it differs from the time at the
//!   act shown before. A turn without an act shows no time.
//! - A circle of waiting nodes is shown if the last turn is in the picture, or no row is. Its rows have a second
//!   box, so that no colour is needed to see it.
//! - The program beside a chart has the lines between line feeds, without an empty last one.
#![tactic(auto)]

mod arrows;
mod bands;
mod circles;
mod counts;
mod course;
pub mod laws;
mod message;
mod pages;
mod part;
mod portrait;
mod races;
mod rows;
mod source;
mod times;
mod waits;
mod words;

pub use bands::bands_of;
pub use counts::Counts;
pub use course::{Course, Known};
pub use part::{Part, Place};
pub use portrait::{MOST_ROWS, PortraitFault, columns_of, portrait_of};
pub use races::races_of;
pub use times::{hint_text, new_time_text};
pub use words::{act_closes, act_place_text, deed_kind, push_act_words};
