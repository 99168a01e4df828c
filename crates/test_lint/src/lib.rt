//! Tests of labels, and of the words of `lint`.
#![tactic(auto)]

#[cfg(test)]
mod checks;
#[cfg(test)]
mod faults;
#[cfg(test)]
mod labels;
#[cfg(test)]
mod warnings;
#[cfg(test)]
mod words;
