//! Describes the command line of `treadmarks` to clap: its commands, and the options of each.
#![tactic(auto)]

mod commands;

pub use commands::{command_line, is_command};
