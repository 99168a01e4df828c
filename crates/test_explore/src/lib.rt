//! Tests of what the search through every order finds for programs. `tests/rows` tests what is printed about it.
#![tactic(auto)]

#[cfg(test)]
mod brute;
#[cfg(test)]
mod checks;
#[cfg(test)]
mod ends;
#[cfg(test)]
mod limits;
#[cfg(test)]
mod orders;
