//! Writes the lines of the command `why`. They describe acts with their source lines, the words that an interval
//! writes, page by page, the acts that race with an act, and how two acts are ordered. The crate `lrc_why` finds these
//! reasons; this crate puts them into words.
#![tactic(auto)]

pub mod deed;
pub mod lists;
pub mod look;
pub mod opponents;
pub mod pages;
pub mod places;
pub mod relation;
pub mod shown;
