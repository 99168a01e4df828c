//! Tests of single nodes, of what they wait for, and of runs of several nodes along lists of events.
#![tactic(auto)]

#[cfg(test)]
mod checks;
#[cfg(test)]
mod mails;
#[cfg(test)]
mod nodes;
#[cfg(test)]
mod plays;
#[cfg(test)]
mod random;
#[cfg(test)]
mod refusals;
#[cfg(test)]
mod rounds;
#[cfg(test)]
mod simulations;
#[cfg(test)]
mod stamps;
#[cfg(test)]
mod told;
#[cfg(test)]
mod traces;
