//! Tests of runs of nodes on threads, and of the weave of their turns.
#![tactic(auto)]

#[cfg(test)]
mod alone;
#[cfg(test)]
mod checks;
#[cfg(test)]
mod gates;
#[cfg(test)]
mod halts;
#[cfg(test)]
mod letters;
#[cfg(test)]
mod origins;
#[cfg(test)]
mod refusals;
#[cfg(test)]
mod rows;
#[cfg(test)]
mod shell;
#[cfg(test)]
mod weaves;
