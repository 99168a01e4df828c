//! Runs a program and shows the run in the form that was chosen: as a report, a report with reasons, a trace, a chart,
//! counts, the reasons for certain acts, or a page for a browser.
#![tactic(auto)]

pub mod any;
pub mod charted;
pub mod reasoned;
mod runs;
pub mod shown;
mod stated;
pub mod threads;
mod trace;
