//! Tests of the lines about the turns of runs, with the states of their nodes. The expected lines are worked cases that
//! another program made.
#![tactic(auto)]

#[cfg(test)]
mod asking;
#[cfg(test)]
mod checks;
#[cfg(test)]
mod long;
#[cfg(test)]
mod members;
#[cfg(test)]
mod parts;
#[cfg(test)]
mod rows;
#[cfg(test)]
mod whole;
