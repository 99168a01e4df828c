//! Reads the command line of `treadmarks`. Clap parses the words, and this crate turns them into a request: a command
//! with its options, the races of a trace, help, or the version. It refuses words that clap refuses, options that do
//! not fit together, and numbers outside their ranges.
//!
//! Decisions:
//!
//! - `--order`, `--page` and `--as` are any text to clap. This crate checks them, before the numbers, and answers
//!   with clap's refusal of an invalid value: clap's parser of possible values holds borrowed lists, so no
//!   constant can name it.
//! - Options that exclude each other are checked here too, with clap's refusal of a conflict: what clap makes of
//!   the arguments is known exactly only if no argument has a rule about another.
//! - With `--events`, an `--order` must be valid and is ignored. `--events -` names a file called `-`.
#![tactic(auto)]

mod chart;
pub mod choice;
mod command_line;
mod explore;
mod files;
mod judge;
mod misfit;
mod races;
mod reading;
mod runs;
mod topics;
mod why;

pub use command_line::choose;
pub use topics::about;
