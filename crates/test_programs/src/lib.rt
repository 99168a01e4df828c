//! Tests of texts and their programs, of the acts of the programs, and of the acts' order, times and races.
#![tactic(auto)]

#[cfg(test)]
mod acts;
#[cfg(test)]
mod checks;
#[cfg(test)]
mod clocks;
#[cfg(test)]
mod detector;
#[cfg(test)]
mod execution;
#[cfg(test)]
mod language;
#[cfg(test)]
mod lines;
#[cfg(test)]
mod races;
#[cfg(test)]
mod runs;
