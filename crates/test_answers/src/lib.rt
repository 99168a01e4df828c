//! Tests of what is said of runs: texts of acts and events, times, what `explain` and `why` print, and the reasons beneath: chains,
//! what is known and held, and what a read gives.
#![tactic(auto)]

#[cfg(test)]
mod acts_read;
#[cfg(test)]
mod chains;
#[cfg(test)]
mod checks;
#[cfg(test)]
mod deadlocked;
#[cfg(test)]
mod events;
#[cfg(test)]
mod held;
#[cfg(test)]
mod known;
#[cfg(test)]
mod racing;
#[cfg(test)]
mod reason_runs;
#[cfg(test)]
mod reasons;
#[cfg(test)]
mod run_texts;
#[cfg(test)]
mod shell;
#[cfg(test)]
mod stuck;
#[cfg(test)]
mod times;
#[cfg(test)]
mod trapped;
#[cfg(test)]
mod unfinished;
#[cfg(test)]
mod why_named;
#[cfg(test)]
mod why_runs;
#[cfg(test)]
mod writes;
