//! Tests with random and damaged input, from fixed seeds. Each answer is a named refusal, or agrees with what the input
//! says.
#![tactic(auto)]

#[cfg(test)]
mod checks;
#[cfg(test)]
mod events;
#[cfg(test)]
mod messages;
#[cfg(test)]
mod nodes;
#[cfg(test)]
mod random;
#[cfg(test)]
mod texts;
