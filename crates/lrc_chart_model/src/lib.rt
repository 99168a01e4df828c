//! The contents of a picture of a run, independent of how it is drawn. A picture has columns of nodes, rows of turns,
//! messages, barriers and races, each with its words.
#![tactic(auto)]

mod picture;

pub use picture::{Arrow, Band, Kind, Lost, Picture, Race, Row, SourceLine};
