//! Tests of the parts of the protocol, from vector times to messages, with worked values.
#![tactic(auto)]

#[cfg(test)]
mod barriers;
#[cfg(test)]
mod checks;
#[cfg(test)]
mod copies;
#[cfg(test)]
mod large_messages;
#[cfg(test)]
mod large_stores;
#[cfg(test)]
mod locks;
#[cfg(test)]
mod messages;
#[cfg(test)]
mod pages;
#[cfg(test)]
mod protocol;
#[cfg(test)]
mod stores;
#[cfg(test)]
mod tables;
#[cfg(test)]
mod times;
